//! The bench whose machine's memory is in a file.

ghost use Rattle.std.specs.Prelude.{◌≡◌, ◌<◌, true, false, None, Some, IfSome, is_some, length};
ghost use Rattle.machine_bench.specs.Benches.{Leaving};
ghost use Rattle.held_memory.specs.Held.{HasRisen, Holds, Misfits};

use crate::held_words::HeldWords;
use crate::word_file::WordFile;
use block_disk::HostDisk;
use board::Board;
use machine_bench::Bench;
use phys_memory::{Memory, memory_of};
use rio_base::{BLOCK_WORDS, DiskBlocks, Host, Machine, MemWords, WordAt};
use std::alloc::{AllocError, Global};

/// How a machine was left.
#[derive(Drop)]
struct HeldEnd<W: WordFile + Drop> {
    /// Its memory, which it had from the start, and the file that follows it.
    memory: HeldWords<Memory, W>,
    /// How many calls of its disk failed, up to the largest `u64`.
    faults: u64,
    /// It was stopped.
    stopped: bool,
    /// The place of the wild store that trapped, if one did.
    trapped: Option<WordAt>,
}

/// A bench that makes a board whose memory is held in a file, and keeps how it was left. Where there is no file it makes
/// none.
#[derive(Drop)]
pub struct HeldBench<W: WordFile + Drop> {
    /// How many pages its board has.
    pages: Option<u32>,
    /// The file, until a board is made.
    file: Option<W>,
    left: Option<HeldEnd<W>>,
    ghost made: { is_some left ≡ true → is_some pages ≡ true },
}

/// A file that followed the memory of a machine, after that was taken back.
#[derive(Drop)]
pub struct KeptFile<W: WordFile + Drop> {
    pub file: W,
    /// The file has the words with which the machine was left: it was as long as they are, at first and when the machine was taken
    /// back, and no call of it failed.
    pub holds: bool,
    /// How many calls of the file failed, up to the largest `u64`.
    pub failures: u64,
}

impl<W: WordFile + Drop> HeldBench<W> {
    ghost use Rattle.std.specs.Option.{option_map};
    ghost use Rattle.held_memory.specs.HeldEnds.{left_of};

    /// A bench that has made no machine. The file, where one is given, has the words that the machine is to be made of.
    pub fn new(file: Option<W>) -> HeldBench<W>
        ensures pages { result.pages ≡ None }
        ensures left { result.left ≡ None }
    {
        HeldBench {
            pages: None,
            file,
            left: None,
        }
    }

    /// The file, or `None` where no machine was made and taken back.
    pub fn into_kept(self) -> Option<KeptFile<W>>
        ensures made { is_some result ≡ is_some self.left }
        ensures pages { is_some result ≡ true → is_some self.pages ≡ true }
        ensures holds { IfSome result (λ k. k.holds ≡ true → (l : Leaving) → option_map left_of self.left ≡ Some l → Holds (W.content k.file) l.words) }
        ensures failures { IfSome result (λ k. IfSome self.left (λ e. (k.failures ≡ e.memory.file.failed) × (0 < k.failures → HasRisen e.memory.file.since (W.faults k.file)))) }
        ensures otherwise { IfSome result (λ k. k.holds ≡ false → k.failures ≡ 0 → IfSome self.left (λ e. e.memory.file.fits ≡ false)) }
        ensures misfits { IfSome result (λ k. k.holds ≡ false → k.failures ≡ 0 → (l : Leaving) → option_map left_of self.left ≡ Some l → Misfits (W.content k.file) (length l.words)) }
    {
        let left = self.left?;
        let holds = left.memory.is_held();
        let failures = left.memory.failures();
        Some(KeptFile {
            file: left.memory.into_file(),
            holds,
            failures,
        })
    }
}

impl<H: Host, W: WordFile + Drop> Bench<HostDisk<H>> for HeldBench<W> {
    ghost use Rattle.std.specs.Option.{option_map};
    ghost use Rattle.held_memory.specs.HeldEnds.{left_of};

    type M = Board<HeldWords<Memory, W>, HostDisk<H>>;

    ghost pages = { λ b. b.pages };

    ghost parted = { λ b. is_some b.left };

    ghost tells_start = { λ b. false };

    ghost tells = { λ b. true };

    ghost began = { λ b. None };

    ghost left = { λ b. option_map left_of b.left };

    fn make(
        &mut self,
        alloc: Global,
        words: &Vec<u64>,
        disk: HostDisk<H>,
        scratch: u32,
        stop_after: Option<u64>,
    ) -> Result<Board<HeldWords<Memory, W>, HostDisk<H>>, (HostDisk<H>, AllocError)> {
        let mem = match memory_of(alloc, words) {
            Ok(mem) => mem,
            Err(error) => return Err((disk, error)),
        };
        // A bench that makes no machine is as it was: so it is looked at before the file is taken.
        if self.file.is_none() {
            return Err((disk, AllocError));
        }
        let Some(file) = self.file.take() else {
            return Err((disk, AllocError));
        };
        let held = HeldWords::new(mem, file);
        self.pages = Some((words.len() / BLOCK_WORDS) as u32);
        self.left = None;
        Ok(Board::new(held, disk, scratch, stop_after))
    }

    fn part(&mut self, machine: Board<HeldWords<Memory, W>, HostDisk<H>>) -> HostDisk<H> {
        let stopped = machine.stopped();
        let trapped = machine.trapped();
        let (mut memory, disk) = machine.into_parts();
        memory.look_again();
        self.left = Some(HeldEnd {
            memory,
            faults: disk.faults(),
            stopped,
            trapped,
        });
        disk
    }
}
