//! Whole runs of the program.

ghost use Rattle.std.specs.Prelude.{◌≡◌, ◌<◌, ◌≤◌, ◌^◌, ◌⊎◌, ℕ, List, Option, Some, None, length};
ghost use Rattle.rio_base.specs.Failures.{Rose};
ghost use Rattle.rio_words.specs.Tokens.{Text};
ghost use Rattle.rio_words.specs.Words.{Reads, texts_of};
ghost use Rattle.rio_words.specs.declared.command.RioCommand.TheVariants.{Check, Drill, Format, Registry, Serve};
ghost use Rattle.rio_commands.specs.Command.{WritesLine, memory_line, usage_line};
ghost use Rattle.rio_server.specs.Commands.{CheckRuns, DrillRuns, FormatRuns, IsCommand, IsServe, NamesAbsent, Obeyed, RegistryRuns};
ghost use Rattle.rio_commands.specs.Format.{format_sizes};
ghost use Rattle.rio_commands.specs.Outside.{benched, outside};
ghost use Rattle.rio_commands.specs.Serve.{ServeRuns};

use crate::drill_command::drill;
use block_disk::HostDisk;
use machine_bench::Bench;
use pair_files::PairNames;
use rio_base::{Host, Sink, Source, VolumeShape};
use rio_commands::{FormatSizes, PairPlan, check_pair, format, say, serve_pair, show_registry};
use rio_words::{RioCommand, WordsFail, read_words};
use std::alloc::Global;

/// What is printed where the words are no command.
const USAGE: &[u8; 49] = b"usage: rio format, serve, registry, check, drill\n";

/// Runs the program on the words after its name. Answers its exit status, and hands the host back.
///
/// `serve IMAGE DISK` makes a warm reboot of these two files on a machine of the bench, and answers the request lines of the source
/// until that ends, each reply written to the sink before more is asked of the source. Then IMAGE is written anew, also where it ended
/// before its time. What files and regions hold is in both files, and the next `serve` finds it. With `--stop N` the machine
/// stops where it is asked for a step after N. A wild store on a protected word, which lines may ask for, stops it too.
///
/// `format IMAGE DISK --frames F --blocks B --inodes I --scratch C` writes a fresh memory image and a fresh volume as
/// these two files of the host, DISK first.
///
/// `registry IMAGE` writes the sizes and the gate of a memory image to the sink, and a line for each valid entry of its
/// registry. It changes no file.
///
/// `check IMAGE DISK` looks at the rules of a memory image and of the volume that it and a disk stand for, and writes a line on
/// what there is on them. It changes no file.
///
/// `drill --seed N --boots B --requests R` draws requests, stops and wild stores from a number, runs so many boots in memory
/// alone, and writes a summary of what came. It changes no file.
///
/// An option is written `--name VALUE` or `--name=VALUE`, anywhere after the command. The files of one command have
/// different names.
///
/// | Status | It comes where |
/// |---|---|
/// | 0 | the input was read to its end and every reply was written, or both files are written, or the registry is listed, or the pair breaks no rule |
/// | 2 | the words are no command |
/// | 3 | the image breaks a rule |
/// | 4 | the image breaks none, and the volume does |
/// | 5 | the disk failed in the reboot |
/// | 6 | there was no memory to go on |
/// | 7 | a file could not be replaced or read, or is not there. Of `serve` IMAGE is then as before |
/// | 8 | the source failed |
/// | 9 | the sink refused a reply or a line of the listing |
/// | 10 | the machine stopped, in the reboot or on a request |
/// | 11 | more than 1,099,511,627,776 bytes of input came |
///
/// The bench has made no machine yet. None but `serve` uses it.
pub fn run<S: Source, K: Sink, H: Host, B: Bench<HostDisk<H>>>(
    alloc: Global,
    words: &Vec<String>,
    source: &mut S,
    sink: &mut K,
    host: H,
    bench: &mut B,
) -> (u8, H)
    requires unmade { B.pages bench.old ≡ None }
    // 2 comes where the words are no command, but for want of memory to read them, and nowhere else. Then nothing is done.
    ensures usage { (result.0 ≡ 2 → IsCommand (texts_of words.now.items) → ⊥) × ((IsCommand (texts_of words.now.items) → ⊥) → (result.0 ≡ 2) ⊎ (result.0 ≡ 6)) }
    ensures untouched { (IsCommand (texts_of words.now.items) → ⊥) → H.files result.1 ≡ H.files host }
    ensures told { result.0 ≡ 2 → WritesLine (Rose (K.faults sink.old) (K.faults sink.new)) (K.written sink.old) usage_line (K.written sink.new) }

    // What each command does.
    ensures served { (image disk : List ℕ) (stop : Option ℕ) → Reads (texts_of words.now.items) (Serve image disk stop) → ServeRuns image disk stop result.0 (outside (H.files host) (H.faults host) (S.left source.old) (S.faults source.old) (K.written sink.old) (K.faults sink.old)) (outside (H.files result.1) (H.faults result.1) (S.left source.new) (S.faults source.new) (K.written sink.new) (K.faults sink.new)) (benched (B.pages bench.new) (B.parted bench.new) (B.tells_start bench.new) (B.tells bench.new) (B.began bench.new) (B.left bench.new)) }
    ensures formatted { (image disk : List ℕ) (frames blocks inodes scratch : ℕ) → Reads (texts_of words.now.items) (Format image disk frames blocks inodes scratch) → FormatRuns image disk (format_sizes frames blocks inodes scratch) result.0 (outside (H.files host) (H.faults host) (S.left source.old) (S.faults source.old) (K.written sink.old) (K.faults sink.old)) (outside (H.files result.1) (H.faults result.1) (S.left source.new) (S.faults source.new) (K.written sink.new) (K.faults sink.new)) }
    ensures listed { (image : List ℕ) → Reads (texts_of words.now.items) (Registry image) → RegistryRuns image result.0 (outside (H.files host) (H.faults host) (S.left source.old) (S.faults source.old) (K.written sink.old) (K.faults sink.old)) (outside (H.files result.1) (H.faults result.1) (S.left source.new) (S.faults source.new) (K.written sink.new) (K.faults sink.new)) }
    ensures checked { (image disk : List ℕ) → Reads (texts_of words.now.items) (Check image disk) → CheckRuns image disk result.0 (outside (H.files host) (H.faults host) (S.left source.old) (S.faults source.old) (K.written sink.old) (K.faults sink.old)) (outside (H.files result.1) (H.faults result.1) (S.left source.new) (S.faults source.new) (K.written sink.new) (K.faults sink.new)) }
    ensures drilled { (seed boots requests : ℕ) → Reads (texts_of words.now.items) (Drill seed boots requests) → DrillRuns seed boots requests result.0 (outside (H.files host) (H.faults host) (S.left source.old) (S.faults source.old) (K.written sink.old) (K.faults sink.old)) (outside (H.files result.1) (H.faults result.1) (S.left source.new) (S.faults source.new) (K.written sink.new) (K.faults sink.new)) }

    // Nothing but `serve` reads the source, and nothing but it uses the bench.
    ensures unread { ((image disk : List ℕ) (stop : Option ℕ) → Reads (texts_of words.now.items) (Serve image disk stop) → ⊥) → S.left source.new ≡ S.left source.old }
    ensures unused { ((image disk : List ℕ) (stop : Option ℕ) → Reads (texts_of words.now.items) (Serve image disk stop) → ⊥) → bench.new ≡ bench.old }
    ensures tells_start { B.tells_start bench.new ≡ B.tells_start bench.old }
    ensures tells { B.tells bench.new ≡ B.tells bench.old }

    // The cause of each status, whatever the words are.
    ensures host_fault { result.0 ≡ 7 → Rose (H.faults host) (H.faults result.1) ⊎ NamesAbsent (texts_of words.now.items) (H.files host) }
    ensures source_fault { result.0 ≡ 8 → Rose (S.faults source.old) (S.faults source.new) }
    ensures sink_fault { result.0 ≡ 9 → Rose (K.faults sink.old) (K.faults sink.new) }
    ensures limit { (input : List ℕ) → S.left source.old ≡ Some input → result.0 ≡ 11 → 2 ^ 40 < length input }
{
    match read_words(alloc, words) {
        Ok(command) => obey(alloc, &command, source, sink, host, bench),
        Err(WordsFail::Usage) => (say(USAGE, 2, sink), host),
        Err(WordsFail::Memory) => (end_without_memory(sink), host),
    }
}

/// Does what a command asks.
fn obey<S: Source, K: Sink, H: Host, B: Bench<HostDisk<H>>>(
    alloc: Global,
    command: &RioCommand,
    source: &mut S,
    sink: &mut K,
    host: H,
    bench: &mut B,
) -> (u8, H)
    requires read { (words : List Text) × Reads words command.now }
    requires unmade { B.pages bench.old ≡ None }
    ensures obeyed { Obeyed command.now result.0 (outside (H.files host) (H.faults host) (S.left source.old) (S.faults source.old) (K.written sink.old) (K.faults sink.old)) (outside (H.files result.1) (H.faults result.1) (S.left source.new) (S.faults source.new) (K.written sink.new) (K.faults sink.new)) (benched (B.pages bench.new) (B.parted bench.new) (B.tells_start bench.new) (B.tells bench.new) (B.began bench.new) (B.left bench.new)) }
    ensures unused { (IsServe command.now → ⊥) → bench.new ≡ bench.old }
    ensures tells_start { B.tells_start bench.new ≡ B.tells_start bench.old }
    ensures tells { B.tells bench.new ≡ B.tells bench.old }
{
    let mut host = host;
    match command {
        RioCommand::Serve { image, disk, stop } => {
            let names = PairNames {
                image: image.text(),
                disk: disk.text(),
            };
            serve_pair(alloc, &names, *stop, source, sink, host, bench)
        }
        RioCommand::Format {
            image,
            disk,
            frames,
            blocks,
            inodes,
            scratch,
        } => {
            let plan = PairPlan {
                image: image.text(),
                disk: disk.text(),
                sizes: sizes_of(*frames, *blocks, *inodes, *scratch),
            };
            let status = format(alloc, &plan, sink, &mut host);
            (status, host)
        }
        RioCommand::Registry { image } => {
            let status = show_registry(alloc, image.text(), sink, &mut host);
            (status, host)
        }
        RioCommand::Check { image, disk } => {
            let names = PairNames {
                image: image.text(),
                disk: disk.text(),
            };
            check_pair(alloc, &names, sink, host)
        }
        RioCommand::Drill {
            seed,
            boots,
            requests,
        } => (drill(alloc, *seed, *boots, *requests, sink), host),
    }
}

/// The sizes of a fresh pair that has a volume of version 1.
fn sizes_of(frames: u32, blocks: u32, inodes: u32, scratch: u32) -> FormatSizes
    ensures { result ≡ format_sizes frames blocks inodes scratch }
{
    FormatSizes {
        frames,
        scratch,
        shape: VolumeShape {
            version: 1,
            blocks,
            inodes,
        },
    }
}

/// Ends a run whose words found no memory: status 6.
pub fn end_without_memory<K: Sink>(sink: &mut K) -> u8
    ensures status { result ≡ 6 }
    ensures told { WritesLine (Rose (K.faults sink.old) (K.faults sink.new)) (K.written sink.old) memory_line (K.written sink.new) }
    ensures later { K.faults sink.old ≤ K.faults sink.new }
{
    say(b"out of memory\n", 6, sink)
}
