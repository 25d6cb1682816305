//! A run of the program whose memory is held in its file.

ghost use Rattle.std.specs.Prelude.{◌≡◌, ◌<◌, ◌⊎◌, ℕ, List, Option, None, Some, true, IfSome, MatchOption, is_some};
ghost use Rattle.std.specs.Option.{option_map};
ghost use Rattle.std.specs.String.{string_bytes};
ghost use Rattle.rio_words.specs.Words.{Reads, texts_of};
ghost use Rattle.rio_words.specs.declared.command.RioCommand.{RioCommand};
ghost use Rattle.rio_words.specs.declared.command.RioCommand.TheVariants.{Serve};
ghost use Rattle.rio_base.specs.Failures.{Rose};
ghost use Rattle.rio_commands.specs.Command.{WritesLine, usage_line};
ghost use Rattle.rio_server.specs.Commands.{IsCommand};
ghost use Rattle.rio_commands.specs.Outside.{outside};
ghost use Rattle.machine_bench.specs.Benches.{Leaving};
ghost use Rattle.held_memory.specs.Held.{Holds};
ghost use Rattle.held_memory.specs.HeldEnds.{left_of};
ghost use Rattle.held_runs.specs.HeldRuns.{HeldRuns, RunsAs, kept_file};

use held_memory::{HeldBench, HostFile, KeptFile, WordFile};
use rio_base::{Host, Sink, Source};
use rio_server::run;
use rio_words::{RioCommand, read_words};
use std::alloc::Global;

/// How a run ended whose memory was to be held in its file.
#[derive(Drop)]
pub struct HeldRun<H: Host + Drop, G: Host + Drop> {
    /// The exit status, as [`rio_server::run`] tells it.
    pub status: u8,
    /// The host of the pair, handed back.
    pub host: H,
    /// The file that memory was held in, where a machine was made.
    pub kept: Option<KeptFile<HostFile<G>>>,
}

/// Runs the program on the words after its name, as [`rio_server::run`] does. Of `serve` each word of memory is in IMAGE as soon
/// as it is stored, by the host `beside`, which is used for nothing else: so IMAGE and DISK are a pair at every end, also where
/// the image could not be saved, as long as no call on that file failed.
///
/// What the words ask for is done by the host of the pair. Both hosts are of one file system, and no call of the one beside has
/// failed yet.
pub fn run_held<S: Source, K: Sink, H: Host + Drop, G: Host + Drop>(
    alloc: Global,
    words: &Vec<String>,
    source: &mut S,
    sink: &mut K,
    host: H,
    beside: G,
) -> HeldRun<H, G>
    requires fresh { G.faults beside ≡ 0 }
    ensures served { (image disk : List ℕ) (stop : Option ℕ) → Reads (texts_of words.now.items) (Serve image disk stop) → HeldRuns image disk stop result.status (outside (H.files host) (H.faults host) (S.left source.old) (S.faults source.old) (K.written sink.old) (K.faults sink.old)) (outside (H.files result.host) (H.faults result.host) (S.left source.new) (S.faults source.new) (K.written sink.new) (K.faults sink.new)) (option_map (λ k. kept_file (string_bytes k.file.name) (⟦<HostFile<G> as WordFile>⟧.content k.file) k.holds k.failures (⟦<HostFile<G> as WordFile>⟧.faults k.file)) result.kept) }
    ensures obeyed { (command : RioCommand) → Reads (texts_of words.now.items) command → RunsAs command result.status (outside (H.files host) (H.faults host) (S.left source.old) (S.faults source.old) (K.written sink.old) (K.faults sink.old)) (outside (H.files result.host) (H.faults result.host) (S.left source.new) (S.faults source.new) (K.written sink.new) (K.faults sink.new)) }
    ensures unheld { ((image disk : List ℕ) (stop : Option ℕ) → Reads (texts_of words.now.items) (Serve image disk stop) → ⊥) → result.kept ≡ None }
    ensures usage { (result.status ≡ 2 → IsCommand (texts_of words.now.items) → ⊥) × ((IsCommand (texts_of words.now.items) → ⊥) → (result.status ≡ 2) ⊎ (result.status ≡ 6)) }
    ensures untouched { (IsCommand (texts_of words.now.items) → ⊥) → H.files result.host ≡ H.files host }
    ensures told { result.status ≡ 2 → WritesLine (Rose (K.faults sink.old) (K.faults sink.new)) (K.written sink.old) usage_line (K.written sink.new) }
    ensures unread { ((image disk : List ℕ) (stop : Option ℕ) → Reads (texts_of words.now.items) (Serve image disk stop) → ⊥) → S.left source.new ≡ S.left source.old }
{
    let image = served_image(alloc, words);
    let file = match &image {
        Some(name) => file_named(alloc, name, beside),
        None => None,
    };
    let mut bench = HeldBench::new(file);
    let (status, host) = run(alloc, words, source, sink, host, &mut bench);
    let kept = kept_by(bench, &image);
    HeldRun { status, host, kept }
}

/// The name of the image that is to be served, or `None` where the words ask for something else, or there is no memory for it.
pub fn served_image(alloc: Global, words: &Vec<String>) -> Option<String>
    ensures { IfSome result (λ name. (image disk : List ℕ) (stop : Option ℕ) → Reads (texts_of words.now.items) (Serve image disk stop) → string_bytes name ≡ image) }
{
    let Ok(RioCommand::Serve { image, .. }) = read_words(alloc, words) else {
        return None;
    };
    let Ok(name) = image.text().clone() else {
        return None;
    };
    Some(name)
}

/// The file of this name, or `None` where there is no memory for it.
fn file_named<G: Host + Drop>(alloc: Global, name: &String, host: G) -> Option<HostFile<G>> {
    let name = name.clone().ok()?;
    HostFile::new(alloc, host, name).ok()
}

/// The file that a bench kept. Where it has another name than the image, or there is none, it is not said to hold memory.
fn kept_by<G: Host + Drop>(
    bench: HeldBench<HostFile<G>>,
    image: &Option<String>,
) -> Option<KeptFile<HostFile<G>>>
    ensures made { is_some result ≡ is_some bench.left }
    ensures pages { is_some result ≡ true → is_some bench.pages ≡ true }
    ensures holds { IfSome result (λ k. k.holds ≡ true → (l : Leaving) → option_map left_of bench.left ≡ Some l → Holds (⟦<HostFile<G> as WordFile>⟧.content k.file) l.words) }
    ensures named { IfSome result (λ k. k.holds ≡ true → MatchOption image.now ⊥ (λ name. string_bytes k.file.name ≡ string_bytes name)) }
    ensures failed { IfSome result (λ k. 0 < k.failures → 0 < ⟦<HostFile<G> as WordFile>⟧.faults k.file) }
{
    let kept = bench.into_kept()?;
    let named = match image {
        Some(name) => kept.file.name() == name,
        None => false,
    };
    Some(KeptFile {
        holds: kept.holds && named,
        ..kept
    })
}
