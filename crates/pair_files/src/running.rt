//! Work on a pair of files: loaded, booted, worked on, and saved.

ghost use Rattle.std.specs.Prelude.{◌≡◌, ◌≢◌, ◌≤◌, ◌+◌, ◌*◌, ℕ, false, true, List, None, Some, IfOk, IfErr, OnOk, OnErr, is_some, length};
ghost use Rattle.std.specs.String.{string_bytes};
ghost use Rattle.block_disk.specs.HostDisks.{around_of};
ghost use Rattle.rio_base.specs.Disks.{is_pending};
ghost use Rattle.rio_base.specs.Hosts.{Asked};
ghost use Rattle.rio_base.specs.Image.{HasHeader};
ghost use Rattle.rio_model.specs.declared.state.State.{State};
ghost use Rattle.rio_model.specs.Registry.{HasLayout, KeepsRegistry};
ghost use Rattle.cached_pages.specs.Caches.{CacheSound, cache_below};
ghost use Rattle.machine_bench.specs.Benches.{made_contents, made_run};
ghost use Rattle.pair_files.specs.Ends.{Ended, EndedEarly, HasBegun, Outset, outcome_of, outset_of};
ghost use Rattle.pair_files.specs.Loads.{IsImageRead};
ghost use Rattle.pair_files.specs.Scenes.{AsksUnarmed, IsBooted, Streams, streams_of};
ghost use Rattle.pair_files.specs.Stages.{IsFailed, IsFound, IsMade, IsOf, IsStarted, SavedOrNot, end_of};

use crate::ends::PairEnd;
use crate::failures::LoadFail;
use crate::image_file::PairImage;
use crate::loading::{LoadedPair, load_pair};
use crate::names::PairNames;
use crate::saving::{hand_back, save};
use crate::work::PairWork;
use block_disk::HostDisk;
use machine_bench::Bench;
use page_cache::PageCache;
use rio_base::{Block, DiskBlocks, Host, Machine, Sink, Source, VolumeShape};
use rio_model::VolumeRule;
use std::alloc::Global;
use warm_reboot::{BootError, BootFail, boot};

/// Works on a pair of files, and hands the host back. The image is looked for and its rules are looked at, and then the disk is
/// looked for. The bench makes a machine of both, with `stop` as its stop, and a reboot is made on it, which looks at the rules
/// of the volume. Then comes the work. Once the reboot began the image is saved at every end, but after a rule that fails.
///
/// No end but `BootFault`, `BootStopped`, `Worked` and `Unsaved` changes a file.
pub fn work_on_pair<H: Host, B: Bench<HostDisk<H>>, S: Source, K: Sink, W: PairWork>(
    alloc: Global,
    names: &PairNames<'_>,
    stop: Option<u64>,
    source: &mut S,
    sink: &mut K,
    host: H,
    bench: &mut B,
    work: &mut W,
) -> (PairEnd<W::End>, H)
    requires unmade { B.pages bench.old ≡ None }
    requires two { string_bytes names.now.image.now ≢ string_bytes names.now.disk.now }
    requires asks { AsksUnarmed (W.asks work.old) (is_some stop) }
    ensures ended { Ended (outset_of (H.files host) (H.faults host) (string_bytes names.now.image.now) (string_bytes names.now.disk.now) stop (streams_of (S.left source.old) (K.written sink.old) (S.faults source.old) (K.faults sink.old))) (λ end before after. W.does work.old before end after) result.0 (outcome_of (H.files result.1) (H.faults result.1) (streams_of (S.left source.new) (K.written sink.new) (S.faults source.new) (K.faults sink.new)) (B.pages bench.new) (B.tells bench.new) (B.left bench.new)) }
    ensures began { (n : ℕ) → B.pages bench.new ≡ Some n → B.tells_start bench.new ≡ true → HasBegun (outset_of (H.files host) (H.faults host) (string_bytes names.now.image.now) (string_bytes names.now.disk.now) stop (streams_of (S.left source.old) (K.written sink.old) (S.faults source.old) (K.faults sink.old))) (B.began bench.new) }
    ensures parted { (n : ℕ) → B.pages bench.new ≡ Some n → B.parted bench.new ≡ true }
    ensures tells_start { B.tells_start bench.new ≡ B.tells_start bench.old }
    ensures tells { B.tells bench.new ≡ B.tells bench.old }
    ensures source_later { S.faults source.old ≤ S.faults source.new }
    ensures sink_later { K.faults sink.old ≤ K.faults sink.new }
{
    match load_pair(alloc, names, host) {
        Ok(loaded) => work_loaded(alloc, names.image, loaded, stop, source, sink, bench, work),
        Err((host, fail)) => (end_unloaded(fail), host),
    }
}

/// How a work ends where nothing was loaded.
fn end_unloaded<E>(fail: LoadFail) -> PairEnd<E>
    ensures { result ≡ end_of fail }
{
    match fail {
        LoadFail::Absent(file) => PairEnd::Absent(file),
        LoadFail::BadImage(rule) => PairEnd::BadImage(rule),
        LoadFail::BadLength => PairEnd::BadVolume(VolumeRule::Superblock as u8, Block(0)),
        LoadFail::Fault(file) => PairEnd::HostFault(file),
        LoadFail::Memory => PairEnd::Memory,
    }
}

/// Works on a pair that was loaded, whose image is the file of this name.
fn work_loaded<H: Host, B: Bench<HostDisk<H>>, S: Source, K: Sink, W: PairWork>(
    alloc: Global,
    image: &String,
    loaded: LoadedPair<H>,
    stop: Option<u64>,
    source: &mut S,
    sink: &mut K,
    bench: &mut B,
    work: &mut W,
) -> (PairEnd<W::End>, H)
    requires read { IsImageRead loaded.image.bytes.items loaded.image.words.items loaded.image.scratch }
    requires settled { (b : ℕ) → is_pending (⟦<HostDisk<H> as DiskBlocks>⟧.contents loaded.disk).pending b ≡ false }
    requires unmade { B.pages bench.old ≡ None }
    requires asks { AsksUnarmed (W.asks work.old) (is_some stop) }
    ensures ended { (o : Outset) → IsOf o (string_bytes image.now) (streams_of (S.left source.old) (K.written sink.old) (S.faults source.old) (K.faults sink.old)) → IsFound o loaded.image.bytes.items loaded.image.words.items loaded.image.scratch (⟦<HostDisk<H> as DiskBlocks>⟧.contents loaded.disk) stop → Ended o (λ end before after. W.does work.old before end after) result.0 (outcome_of (H.files result.1) (H.faults result.1) (streams_of (S.left source.new) (K.written sink.new) (S.faults source.new) (K.faults sink.new)) (B.pages bench.new) (B.tells bench.new) (B.left bench.new)) }
    ensures began { (o : Outset) → IsFound o loaded.image.bytes.items loaded.image.words.items loaded.image.scratch (⟦<HostDisk<H> as DiskBlocks>⟧.contents loaded.disk) stop → (n : ℕ) → B.pages bench.new ≡ Some n → B.tells_start bench.new ≡ true → HasBegun o (B.began bench.new) }
    ensures parted { (n : ℕ) → B.pages bench.new ≡ Some n → B.parted bench.new ≡ true }
    ensures tells_start { B.tells_start bench.new ≡ B.tells_start bench.old }
    ensures tells { B.tells bench.new ≡ B.tells bench.old }
    ensures source_later { S.faults source.old ≤ S.faults source.new }
    ensures sink_later { K.faults sink.old ≤ K.faults sink.new }
{
    let LoadedPair {
        image: PairImage {
            bytes,
            words,
            scratch,
        },
        disk,
    } = loaded;
    match make_machine(alloc, words, disk, scratch, stop, bench) {
        Ok(machine) => work_made(alloc, image, bytes, machine, source, sink, bench, work),
        Err(disk) => (PairEnd::Memory, disk.into_host()),
    }
}

/// Makes the machine. The words are let go, since the machine has its own.
fn make_machine<H: Host, B: Bench<HostDisk<H>>>(
    alloc: Global,
    words: Vec<u64>,
    disk: HostDisk<H>,
    scratch: u32,
    stop: Option<u64>,
    bench: &mut B,
) -> Result<B::M, HostDisk<H>>
    requires bytes { (bytes : List ℕ) × IsImageRead bytes words.items scratch }
    requires settled { (b : ℕ) → is_pending (⟦<HostDisk<H> as DiskBlocks>⟧.contents disk).pending b ≡ false }
    requires unmade { B.pages bench.old ≡ None }
    ensures contents { IfOk result (λ m. B.M.contents m ≡ made_contents words.items scratch (⟦<HostDisk<H> as DiskBlocks>⟧.contents disk)) }
    ensures run { IfOk result (λ m. B.M.run m ≡ made_run words.items scratch stop) }
    ensures pages { IfOk result (λ m. (n : ℕ) × (B.pages bench.new ≡ Some n) × (512 * n ≡ length (B.M.contents m).words + length (B.M.run m).scratch)) }
    ensures unparted { OnOk result (B.parted bench.new ≡ false) }
    ensures began { OnOk result (B.tells_start bench.old ≡ true → B.began bench.new ≡ Some (record { words = words.items; blocks = (⟦<HostDisk<H> as DiskBlocks>⟧.contents disk).blocks; scratch = scratch; stop = stop })) }
    ensures tells_start { B.tells_start bench.new ≡ B.tells_start bench.old }
    ensures tells { B.tells bench.new ≡ B.tells bench.old }
    ensures back { IfErr result (λ back. ⟦<HostDisk<H> as DiskBlocks>⟧.contents back ≡ ⟦<HostDisk<H> as DiskBlocks>⟧.contents disk) }
    ensures same { OnErr result (bench.new ≡ bench.old) }
{
    match bench.make(alloc, &words, disk, scratch, stop) {
        Ok(machine) => Ok(machine),
        Err((disk, _)) => Err(disk),
    }
}

/// Works over a machine that was made of a pair.
fn work_made<H: Host, B: Bench<HostDisk<H>>, S: Source, K: Sink, W: PairWork>(
    alloc: Global,
    image: &String,
    bytes: Vec<u8>,
    machine: B::M,
    source: &mut S,
    sink: &mut K,
    bench: &mut B,
    work: &mut W,
) -> (PairEnd<W::End>, H)
    requires header { HasHeader (B.M.contents machine).words }
    requires layout { HasLayout (B.M.contents machine).words (B.M.run machine).scratch }
    requires keeps { KeepsRegistry (B.M.contents machine).words }
    requires closed { (B.M.contents machine).open_page ≡ None }
    requires settled { (b : ℕ) → is_pending (B.M.contents machine).pending b ≡ false }
    requires bytes { length bytes.items ≡ 8 * (length (B.M.contents machine).words + length (B.M.run machine).scratch) }
    requires pages { (n : ℕ) × (B.pages bench.old ≡ Some n) × (512 * n ≡ length (B.M.contents machine).words + length (B.M.run machine).scratch) }
    requires unparted { B.parted bench.old ≡ false }
    requires unarmed { (B.M.run machine).armed ≡ None }
    requires asks { AsksUnarmed (W.asks work.old) (B.M.run machine).stop_set }
    ensures ended { (o : Outset) → IsOf o (string_bytes image.now) (streams_of (S.left source.old) (K.written sink.old) (S.faults source.old) (K.faults sink.old)) → IsMade o (B.M.contents machine) (B.M.run machine) → Ended o (λ end before after. W.does work.old before end after) result.0 (outcome_of (H.files result.1) (H.faults result.1) (streams_of (S.left source.new) (K.written sink.new) (S.faults source.new) (K.faults sink.new)) (B.pages bench.new) (B.tells bench.new) (B.left bench.new)) }
    ensures parted { B.parted bench.new ≡ true }
    ensures began { B.began bench.new ≡ B.began bench.old }
    ensures tells_start { B.tells_start bench.new ≡ B.tells_start bench.old }
    ensures tells { B.tells bench.new ≡ B.tells bench.old }
    ensures pages { B.pages bench.new ≡ B.pages bench.old }
    ensures source_later { S.faults source.old ≤ S.faults source.new }
    ensures sink_later { K.faults sink.old ≤ K.faults sink.new }
{
    match boot(alloc, machine) {
        Ok((cache, report)) => {
            work_booted(
                alloc,
                image,
                bytes,
                cache,
                report.shape,
                source,
                sink,
                bench,
                work,
            )
        }
        Err(BootError { machine, fail }) => end_unbooted(fail, machine, image, bytes, bench),
    }
}

/// Works over a cache that a reboot left, and saves the image.
fn work_booted<H: Host, B: Bench<HostDisk<H>>, S: Source, K: Sink, W: PairWork>(
    alloc: Global,
    image: &String,
    bytes: Vec<u8>,
    cache: PageCache<B::M>,
    shape: VolumeShape,
    source: &mut S,
    sink: &mut K,
    bench: &mut B,
    work: &mut W,
) -> (PairEnd<W::End>, H)
    requires sound { CacheSound (B.M.contents cache.machine) (length (B.M.run cache.machine).scratch) cache.tables }
    requires booted { (s : State) × IsBooted shape (B.M.contents cache.machine) (B.M.run cache.machine) cache.tables s }
    requires bytes { length bytes.items ≡ 8 * (length (B.M.contents cache.machine).words + length (B.M.run cache.machine).scratch) }
    requires pages { (n : ℕ) × (B.pages bench.old ≡ Some n) × (512 * n ≡ length (B.M.contents cache.machine).words + length (B.M.run cache.machine).scratch) }
    requires unparted { B.parted bench.old ≡ false }
    requires asks { W.asks work.old (cache_below (B.M.contents cache.machine) (B.M.run cache.machine)).causes }
    ensures ended { (o : Outset) → IsOf o (string_bytes image.now) (streams_of (S.left source.old) (K.written sink.old) (S.faults source.old) (K.faults sink.old)) → IsStarted o shape (B.M.contents cache.machine) (B.M.run cache.machine) cache.tables → Ended o (λ end before after. W.does work.old before end after) result.0 (outcome_of (H.files result.1) (H.faults result.1) (streams_of (S.left source.new) (K.written sink.new) (S.faults source.new) (K.faults sink.new)) (B.pages bench.new) (B.tells bench.new) (B.left bench.new)) }
    ensures parted { B.parted bench.new ≡ true }
    ensures began { B.began bench.new ≡ B.began bench.old }
    ensures tells_start { B.tells_start bench.new ≡ B.tells_start bench.old }
    ensures tells { B.tells bench.new ≡ B.tells bench.old }
    ensures pages { B.pages bench.new ≡ B.pages bench.old }
    ensures source_later { S.faults source.old ≤ S.faults source.new }
    ensures sink_later { K.faults sink.old ≤ K.faults sink.new }
{
    let (machine, end) = work.work(alloc, cache, shape, source, sink);
    let (saved, host) = save(machine, image, bytes, bench);
    match saved {
        Ok(()) => (PairEnd::Worked(end), host),
        Err(_) => (PairEnd::Unsaved(Some(end)), host),
    }
}

/// Ends a work whose reboot failed. The image is saved, but where a rule fails.
fn end_unbooted<H: Host, B: Bench<HostDisk<H>>, E: Drop>(
    fail: BootFail,
    machine: B::M,
    image: &String,
    bytes: Vec<u8>,
    bench: &mut B,
) -> (PairEnd<E>, H)
    requires bytes { length bytes.items ≡ 8 * (length (B.M.contents machine).words + length (B.M.run machine).scratch) }
    requires pages { (n : ℕ) × (B.pages bench.old ≡ Some n) × (512 * n ≡ length (B.M.contents machine).words + length (B.M.run machine).scratch) }
    requires unparted { B.parted bench.old ≡ false }
    ensures ended { (o : Outset) (streams : Streams) → IsOf o (string_bytes image.now) streams → IsFailed o (B.M.contents machine) (B.M.run machine) fail → EndedEarly o result.0 (outcome_of (H.files result.1) (H.faults result.1) streams (B.pages bench.new) (B.tells bench.new) (B.left bench.new)) }
    ensures parted { B.parted bench.new ≡ true }
    ensures began { B.began bench.new ≡ B.began bench.old }
    ensures tells_start { B.tells_start bench.new ≡ B.tells_start bench.old }
    ensures tells { B.tells bench.new ≡ B.tells bench.old }
    ensures pages { B.pages bench.new ≡ B.pages bench.old }
{
    match fail {
        BootFail::BadImage(rule) => (PairEnd::BadImage(rule), hand_back(machine, bench)),
        BootFail::BadVolume(rule, block) => {
            (PairEnd::BadVolume(rule, block), hand_back(machine, bench))
        }
        BootFail::Memory => end_saved(PairEnd::Memory, machine, image, bytes, bench),
        BootFail::Fault => end_saved(PairEnd::BootFault, machine, image, bytes, bench),
        BootFail::Stopped => end_saved(PairEnd::BootStopped, machine, image, bytes, bench),
    }
}

/// Saves the image, and ends so; or, where that fails, tells it.
fn end_saved<H: Host, B: Bench<HostDisk<H>>, E: Drop>(
    end: PairEnd<E>,
    machine: B::M,
    image: &String,
    bytes: Vec<u8>,
    bench: &mut B,
) -> (PairEnd<E>, H)
    requires bytes { length bytes.items ≡ 8 * (length (B.M.contents machine).words + length (B.M.run machine).scratch) }
    requires pages { (n : ℕ) × (B.pages bench.old ≡ Some n) × (512 * n ≡ length (B.M.contents machine).words + length (B.M.run machine).scratch) }
    requires unparted { B.parted bench.old ≡ false }
    ensures saved { (o : Outset) (streams : Streams) (asked : Asked) → o.image ≡ string_bytes image.now → (B.M.contents machine).around ≡ around_of o.told asked o.disk → SavedOrNot end result.0 o (B.M.contents machine) (B.M.run machine) (outcome_of (H.files result.1) (H.faults result.1) streams (B.pages bench.new) (B.tells bench.new) (B.left bench.new)) }
    ensures parted { B.parted bench.new ≡ true }
    ensures began { B.began bench.new ≡ B.began bench.old }
    ensures tells_start { B.tells_start bench.new ≡ B.tells_start bench.old }
    ensures tells { B.tells bench.new ≡ B.tells bench.old }
    ensures pages { B.pages bench.new ≡ B.pages bench.old }
{
    let (saved, host) = save(machine, image, bytes, bench);
    match saved {
        Ok(()) => (end, host),
        Err(_) => (PairEnd::Unsaved(None), host),
    }
}
