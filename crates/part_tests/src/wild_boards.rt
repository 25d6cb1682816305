//! Boards of two protected pages and a page of scratch, all of whose words are 0, which wild stores strike.

ghost use Rattle.std.specs.Prelude.{◌≡◌, ◌<◌, ◌/◌, false, None, Some, IfOk, length};

use block_disk::MemDisk;
use board::Board;
use phys_memory::ListMem;
use rio_base::{Machine, Page, Wild, WordAt};
use std::alloc::{AllocError, Global};

/// The words of memory, and the place of the first of scratch.
pub(crate) const WORDS: u32 = 1_536;

pub(crate) const SCRATCH: u32 = 1_024;

/// What a wild store stores, and what a store does.
pub(crate) const WILD: u64 = 9;

pub(crate) const STORED: u64 = 5;

/// A board in memory.
type MemBoard = Board<ListMem, MemDisk>;

/// What is found of a board after a wild store.
#[derive(Clone, Copy, Debug, PartialEq, Eq)]
pub(crate) struct Struck {
    /// What the store met, where it fell at once.
    pub(crate) met: Option<Wild>,
    /// Whether the store of the program was made, where it made one.
    pub(crate) stored: Option<bool>,
    /// The word at the place of the wild store.
    pub(crate) word: u64,
    /// How many words of memory are not 0.
    pub(crate) changed: usize,
    pub(crate) stopped: bool,
    pub(crate) trapped: Option<WordAt>,
    /// How many wild stores were spared.
    pub(crate) spared: u64,
}

/// A board.
fn board(alloc: Global) -> Result<MemBoard, AllocError>
    ensures words { IfOk result (λ b. length (⟦<Board<ListMem, MemDisk> as Machine>⟧.contents b).words ≡ 1024) }
    ensures scratch { IfOk result (λ b. length (⟦<Board<ListMem, MemDisk> as Machine>⟧.run b).scratch ≡ 512) }
    ensures closed { IfOk result (λ b. (⟦<Board<ListMem, MemDisk> as Machine>⟧.contents b).open_page ≡ None) }
    ensures running { IfOk result (λ b. (⟦<Board<ListMem, MemDisk> as Machine>⟧.run b).stopped ≡ false) }
{
    let mem = ListMem::new(alloc, 3)?;
    let disk = MemDisk::new(alloc, 1)?;
    Ok(Board::new(mem, disk, 1, None))
}

/// A board on which this protected page is open, or none.
fn opened(alloc: Global, open: Option<u32>) -> Result<MemBoard, AllocError>
    ensures words { IfOk result (λ b. length (⟦<Board<ListMem, MemDisk> as Machine>⟧.contents b).words ≡ 1024) }
    ensures scratch { IfOk result (λ b. length (⟦<Board<ListMem, MemDisk> as Machine>⟧.run b).scratch ≡ 512) }
    ensures running { IfOk result (λ b. (⟦<Board<ListMem, MemDisk> as Machine>⟧.run b).stopped ≡ false) }
{
    let mut board = board(alloc)?;
    match open {
        Some(p) => {
            if 2 <= p {
                return Err(AllocError);
            }
            board.open_page(Page(p));
            Ok(board)
        }
        None => Ok(board),
    }
}

/// What is found of a board after a wild store to this place.
fn found(board: MemBoard, at: u32, met: Option<Wild>, stored: Option<bool>) -> Struck {
    let stopped = board.stopped();
    let trapped = board.trapped();
    let spared = board.spared();
    let (mem, _) = board.into_parts();
    let words = mem.into_words();
    let mut changed = 0usize;
    for word in words.iter() {
        if *word != 0 {
            changed = changed.saturating_add(1);
        }
    }
    Struck {
        met,
        stored,
        word: *words.get(at as usize).unwrap_or(&0),
        changed,
        stopped,
        trapped,
        spared,
    }
}

/// What is found after a wild store to this place now, while this page is open.
pub(crate) fn after_wild(alloc: Global, at: u32, open: Option<u32>) -> Result<Struck, AllocError> {
    if WORDS <= at {
        return Err(AllocError);
    }
    let mut board = opened(alloc, open)?;
    let met = board.wild(WordAt(at), WILD);
    Ok(found(board, at, Some(met), None))
}

/// What is found after a store to the first word of a protected page, before whose step a wild store to this place is armed to fall.
pub(crate) fn after_armed(alloc: Global, at: u32, page: u32) -> Result<Struck, AllocError> {
    if WORDS <= at {
        return Err(AllocError);
    }
    if 2 <= page {
        return Err(AllocError);
    }
    let mut board = board(alloc)?;
    board.arm(0, WordAt(at), WILD);
    board.open_page(Page(page));
    let stored = board.store(WordAt(page * 512), STORED).is_ok();
    Ok(found(board, at, None, Some(stored)))
}
