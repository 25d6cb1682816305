//! The command `check`: a pair of files looked at, and what there is on it told.

ghost use Rattle.std.specs.Prelude.{◌≡◌, ◌≤◌, ℕ, List, Option, None, IfOk, IfErr, false, length};
ghost use Rattle.std.specs.String.{string_bytes};
ghost use Rattle.rio_base.specs.Failures.{Rose};
ghost use Rattle.rio_base.specs.Disks.{is_pending};
ghost use Rattle.rio_base.specs.Hosts.{Files};
ghost use Rattle.rio_base.specs.Image.{HasHeader};
ghost use Rattle.rio_model.specs.declared.state.State.{State};
ghost use Rattle.rio_model.specs.Registry.{HasLayout};
ghost use Rattle.rio_model.specs.Standing.{StandsFor};
ghost use Rattle.registry.specs.Views.{Viewed};
ghost use Rattle.pair_files.specs.Loads.{IsDiskLoaded, IsImageLoaded, IsImageRead};
ghost use Rattle.pair_files.specs.Pairs.{HasPair};
ghost use Rattle.rio_commands.specs.Check.{Checks, Examined, Found, HasDisk, HasWords, IsSureOf, unexamined_end, unloaded_end};

use crate::CheckEnd;
use crate::check_lines::tell_check;
use block_disk::HostDisk;
use board::Board;
use pair_files::{LoadFail, LoadedPair, PairFile, PairImage, PairNames, load_pair};
use phys_memory::{Memory, memory_of};
use request_codec::ROOM_BYTES;
use rio_base::{Block, DiskBlocks, Host, Machine, Sink};
use rio_model::VolumeRule;
use std::alloc::Global;
use warm_reboot::{BootError, BootFail, examine};

/// Looks whether a pair of files keeps its rules, and tells what there is on it where it does. Answers the status: 0 where it
/// does, 3 where the image breaks a rule, 4 where the volume does, 6 where there is no memory for the pair, 7 where a file is
/// not there or could not be read. It changes no file.
pub fn check_pair<K: Sink, H: Host>(
    alloc: Global,
    names: &PairNames<'_>,
    sink: &mut K,
    host: H,
) -> (u8, H)
    ensures run { Checks (string_bytes names.now.image.now) (string_bytes names.now.disk.now) result.0 (Rose (H.faults host) (H.faults result.1)) (Rose (K.faults sink.old) (K.faults sink.new)) (H.files host) (K.written sink.old) (K.written sink.new) }
    ensures files { H.files result.1 ≡ H.files host }
    ensures later { H.faults host ≤ H.faults result.1 }
    ensures sink_later { K.faults sink.old ≤ K.faults sink.new }
{
    let mut room = [0u8; ROOM_BYTES];
    let (end, host) = look_at_files(alloc, names, host);
    (tell_check(end, names, &mut room, sink), host)
}

/// Loads a pair of files and looks at it.
fn look_at_files<H: Host>(alloc: Global, names: &PairNames<'_>, host: H) -> (CheckEnd, H)
    ensures found { Found result.0 (string_bytes names.now.image.now) (string_bytes names.now.disk.now) (Rose (H.faults host) (H.faults result.1)) (H.files host) }
    ensures sure { (image disk : List ℕ) (s : State) → HasPair (H.files host) (string_bytes names.now.image.now) (string_bytes names.now.disk.now) image disk s → IsSureOf s result.0 }
    ensures files { H.files result.1 ≡ H.files host }
    ensures later { H.faults host ≤ H.faults result.1 }
{
    match load_pair(alloc, names, host) {
        Ok(pair) => look_at_pair(alloc, pair),
        Err((host, fail)) => (unloaded(fail), host),
    }
}

/// How a look ends where nothing is loaded.
fn unloaded(fail: LoadFail) -> CheckEnd
    ensures { result ≡ unloaded_end fail }
{
    match fail {
        LoadFail::Absent(file) => CheckEnd::Absent(file),
        LoadFail::BadImage(rule) => CheckEnd::BadImage(rule),
        LoadFail::BadLength => CheckEnd::BadVolume(VolumeRule::Superblock as u8, Block(0)),
        LoadFail::Fault(file) => CheckEnd::HostFault(file),
        LoadFail::Memory => CheckEnd::Memory,
    }
}

/// Looks at a pair that is loaded, on a machine of its own, and hands the host back.
fn look_at_pair<H: Host>(alloc: Global, pair: LoadedPair<H>) -> (CheckEnd, H)
    requires read { IsImageRead pair.image.bytes.items pair.image.words.items pair.image.scratch }
    requires settled { (b : ℕ) → is_pending (⟦<HostDisk<H> as DiskBlocks>⟧.contents pair.disk).pending b ≡ false }
    ensures found { (told : Option Files) (image disk : List ℕ) → IsImageLoaded told image pair.image.bytes.items pair.image.words.items pair.image.scratch → IsDiskLoaded told disk (⟦<HostDisk<H> as DiskBlocks>⟧.contents pair.disk) → Found result.0 image disk (Rose (⟦<HostDisk<H> as DiskBlocks>⟧.contents pair.disk).faults.count (H.faults result.1)) told }
    ensures sure { (told : Option Files) (image disk image_bytes disk_bytes : List ℕ) (s : State) → IsImageLoaded told image pair.image.bytes.items pair.image.words.items pair.image.scratch → IsDiskLoaded told disk (⟦<HostDisk<H> as DiskBlocks>⟧.contents pair.disk) → HasPair told image disk image_bytes disk_bytes s → IsSureOf s result.0 }
    ensures files { (told : Option Files) (disk : List ℕ) → IsDiskLoaded told disk (⟦<HostDisk<H> as DiskBlocks>⟧.contents pair.disk) → H.files result.1 ≡ told }
    ensures later { (⟦<HostDisk<H> as DiskBlocks>⟧.contents pair.disk).faults.count ≤ H.faults result.1 }
{
    let LoadedPair { image, disk } = pair;
    match machine_of(alloc, &image, disk) {
        Ok(board) => {
            let (end, board) = look_at_machine(alloc, board);
            let (_, disk) = board.into_parts();
            (end, disk.into_host())
        }
        Err(disk) => (CheckEnd::Memory, disk.into_host()),
    }
}

/// A machine with the words of an image and this disk, which is handed back where there is no memory for the words.
fn machine_of<H: Host>(
    alloc: Global,
    image: &PairImage,
    disk: HostDisk<H>,
) -> Result<Board<Memory, HostDisk<H>>, HostDisk<H>>
    requires read { IsImageRead image.now.bytes.items image.now.words.items image.now.scratch }
    ensures memory { IfOk result (λ m. HasWords (⟦<Board<Memory, HostDisk<H>> as Machine>⟧.contents m) (⟦<Board<Memory, HostDisk<H>> as Machine>⟧.run m) image.now.words.items image.now.scratch) }
    ensures disk { IfOk result (λ m. HasDisk (⟦<Board<Memory, HostDisk<H>> as Machine>⟧.contents m) (⟦<HostDisk<H> as DiskBlocks>⟧.contents disk)) }
    ensures back { IfErr result (λ d. ⟦<HostDisk<H> as DiskBlocks>⟧.contents d ≡ ⟦<HostDisk<H> as DiskBlocks>⟧.contents disk) }
{
    let Ok(mem) = memory_of(alloc, &image.words) else {
        return Err(disk);
    };
    Ok(Board::new(mem, disk, image.scratch, None))
}

/// Looks at memory and disk, and hands the machine back as it was.
fn look_at_machine<M: Machine>(alloc: Global, machine: M) -> (CheckEnd, M)
    requires header { HasHeader (M.contents machine).words }
    requires layout { HasLayout (M.contents machine).words (M.run machine).scratch }
    requires closed { (M.contents machine).open_page ≡ None }
    requires settled { (b : ℕ) → is_pending (M.contents machine).pending b ≡ false }
    requires running { (M.run machine).stopped ≡ false }
    ensures examined { Examined result.0 (M.contents machine) (length (M.run machine).scratch) (M.contents result.1) }
    ensures sure { (s : State) → StandsFor (M.contents machine) (length (M.run machine).scratch) s → IsSureOf s result.0 }
    ensures untouched { Viewed (M.contents machine) (M.contents result.1) (M.run machine) (M.run result.1) }
{
    match examine(alloc, machine) {
        Ok((machine, census)) => (CheckEnd::Sound(census), machine),
        Err(BootError { machine, fail }) => (unexamined(fail), machine),
    }
}

/// How a look ends where the examination fails. Nothing stops the machine of a look.
fn unexamined(fail: BootFail) -> CheckEnd
    ensures { result ≡ unexamined_end fail }
{
    match fail {
        BootFail::BadImage(rule) => CheckEnd::BadImage(rule),
        BootFail::BadVolume(rule, block) => CheckEnd::BadVolume(rule, block),
        BootFail::Fault => CheckEnd::HostFault(PairFile::Disk),
        BootFail::Stopped => CheckEnd::HostFault(PairFile::Disk),
        BootFail::Memory => CheckEnd::Memory,
    }
}
