//! A board on which rows of calls are made: one page of scratch, over a disk of 4 blocks. A call is made where it may be
//! made, and is else told to be out of place.

ghost use Rattle.std.specs.Prelude.{◌≡◌, ◌<◌, ◌+◌, ◌*◌, ◌%◌, None, IfOk, IsTrue, length};
ghost use Rattle.block_disk.specs.MemDisks.{state_of};

use crate::machines::{MemBoard, Mishap, board_on, counted, disk_of};
use block_disk::MemDisk;
use board::Board;
use page_protect::{Window, put_run, put_word};
use phys_memory::ListMem;
use rio_base::{BLOCK_WORDS, Block, DiskFail, Machine, Page, Stopped, Wild, WordAt};
use std::alloc::{AllocError, Global};
use std::process::Abort;
use test_objects::zeros;

/// The most words that a board's memory has.
const MOST_WORDS: usize = 42_496;

/// What came of a call.
#[derive(Clone, Copy, Debug, PartialEq, Eq)]
pub(crate) enum Came {
    /// It was made.
    Done,
    /// The board is stopped.
    Stopped,
    /// The disk failed.
    Fault,
    /// What a wild store met.
    Met(Wild),
    /// A number was told.
    Number(u64),
    /// Whether it is so was told.
    Is(bool),
    /// A place was told, or that there is none.
    Place(Option<WordAt>),
    /// The call may not be made there.
    OutOfPlace,
}

/// A call, or what a board is asked.
#[derive(Clone, Copy)]
pub(crate) enum Call {
    /// This page is opened.
    Open(u32),
    /// The open page is closed.
    Close,
    /// This block is written with that page.
    Write(u32, u32),
    /// All that was written is brought to the device.
    Sync,
    /// This block is read, and its last word told.
    Read(u32),
    /// A wild store falls now: where, and what it stores.
    Wild(u32, u64),
    /// A wild store is armed, to fall after so many steps: where, and what it stores.
    Arm(u64, u32, u64),
    /// A word of the open page is stored: where, and the word.
    Store(u32, u64),
    /// Words of the open page are stored, from this place on.
    Run(u32, &'static [u64]),
    /// This page is copied to that one, which is open.
    Copy(u32, u32),
    /// A value is put as the first and the last word of this page, through one window.
    PutTwo(u32, u64),
    /// A word of this closed page is put: which, and the word.
    PutOne(u32, u16, u64),
    /// Words of this closed page are put, from that one of its words on.
    PutRun(u32, u16, &'static [u64]),
    /// The word at this place.
    Word(u32),
    /// How many words this page has as it is lent.
    PageLen(u32),
    /// A word of this page as it is lent.
    PageWord(u32, usize),
    /// Whether so many words at the front of page 2 are those of page 20, and the others its own, on a board whose
    /// words are their own places.
    Front(usize),
    /// How many steps were made.
    Steps,
    /// How many wild stores were spared.
    Spared,
    /// Whether the board is stopped.
    Halted,
    /// Where a wild store trapped.
    Trapped,
    /// How many pages memory has.
    Pages,
    /// How many blocks the disk has.
    Blocks,
}

impl From<Result<(), Stopped>> for Came {
    fn from(end: Result<(), Stopped>) -> Came {
        match end {
            Ok(()) => Came::Done,
            Err(_) => Came::Stopped,
        }
    }
}

impl From<Result<(), DiskFail>> for Came {
    fn from(end: Result<(), DiskFail>) -> Came {
        match end {
            Ok(()) => Came::Done,
            Err(DiskFail::Fault) => Came::Fault,
            Err(DiskFail::Stopped) => Came::Stopped,
        }
    }
}

/// Which memory a board has.
#[derive(Clone, Copy)]
pub(crate) enum Memory {
    /// 3 pages of zeros.
    Small,
    /// 83 pages of zeros.
    Zeros,
    /// 83 pages of words that are their own places.
    Counted,
}

impl Memory {
    /// The words.
    fn words(self, alloc: Global) -> Result<Vec<u64>, AllocError>
        ensures pages { IfOk result (λ words. length words.items % 512 ≡ 0) }
        ensures room { IfOk result (λ words. 512 < length words.items) }
    {
        match self {
            Memory::Small => zeros(alloc, 1_536),
            Memory::Zeros => zeros(alloc, 42_496),
            Memory::Counted => counted(alloc, 42_496),
        }
    }
}

/// Whether so many words at the front of page 2 are those of page 20, and the others its own.
fn has_front(page: &[u64], n: usize) -> bool {
    for (i, word) in page.iter().enumerate() {
        let first = if i < n { 10_240 } else { 1_024 };
        if word.wrapping_sub(i as u64) != first {
            return false;
        }
    }
    true
}

/// Puts a value as the first and the last word of a page, through one window.
fn put_two<M: Machine>(m: &mut M, p: Page, v: u64) -> Result<(), Stopped>
    requires closed { (M.contents m.old).open_page ≡ None }
    requires protected { 512 * p.0 < length (M.contents m.old).words }
    ensures closed { (M.contents m.new).open_page ≡ None }
    ensures words { length (M.contents m.new).words ≡ length (M.contents m.old).words }
    ensures scratch { length (M.run m.new).scratch ≡ length (M.run m.old).scratch }
    ensures disk { length (M.contents m.new).disk ≡ length (M.contents m.old).disk }
{
    let mut window = Window::open(m, p);
    let first = window.put(0, v);
    let last = window.put(511, v);
    window.close();
    first?;
    last?;
    Ok(())
}

/// A board, and which of its pages is open.
#[derive(Drop)]
pub(crate) struct Rig {
    board: MemBoard,
    page: Option<u32>,
    /// What a block is read into.
    room: Vec<u64>,
    ghost page_is: { (⟦<Board<ListMem, MemDisk> as Machine>⟧.contents board).open_page ≡ page },
    ghost scratch: { length (⟦<Board<ListMem, MemDisk> as Machine>⟧.run board).scratch ≡ 512 },
    ghost disk: { length (⟦<Board<ListMem, MemDisk> as Machine>⟧.contents board).disk ≡ 4 },
    ghost room_len: { length room.items ≡ 512 },
}

impl Rig {
    /// A board over such a memory, which this befalls, with no page open.
    pub(crate) fn new(rt: &impl Abort, alloc: Global, memory: Memory, mishap: Mishap) -> Rig {
        let Ok(words) = memory.words(alloc) else {
            panic!(rt; "no memory");
        };
        if MOST_WORDS < words.len() {
            panic!(rt; "too much memory");
        }
        let Ok(room) = zeros(alloc, 512) else {
            panic!(rt; "no room");
        };
        let disk = disk_of(rt, alloc, 4, mishap);
        Rig {
            board: board_on(ListMem::from_words(words), disk, mishap.stop_after()),
            page: None,
            room,
        }
    }

    /// The memory and the disk.
    pub(crate) fn into_parts(self) -> (ListMem, MemDisk)
        ensures { length (state_of result.1).blocks ≡ 4 }
    {
        let Rig {
            board,
            page: _,
            room: _,
        } = self;
        board.into_parts()
    }

    /// Whether no page is open, and there is such a protected page.
    fn is_shut(&self, p: u32) -> bool
        ensures closed { IsTrue result → (⟦<Board<ListMem, MemDisk> as Machine>⟧.contents self.now.board).open_page ≡ None }
        ensures page { IsTrue result → 512 * p < length (⟦<Board<ListMem, MemDisk> as Machine>⟧.contents self.now.board).words }
    {
        if self.page.is_some() {
            return false;
        }
        p < self.board.pages() - 1
    }

    /// Whether memory has such a word.
    fn has_word(&self, at: u32) -> bool
        ensures { IsTrue result → at < length (⟦<Board<ListMem, MemDisk> as Machine>⟧.contents self.now.board).words + length (⟦<Board<ListMem, MemDisk> as Machine>⟧.run self.now.board).scratch }
    {
        at / 512 < self.board.pages()
    }

    fn open(&mut self, p: u32) -> Came {
        if !self.is_shut(p) {
            return Came::OutOfPlace;
        }
        self.board.open_page(Page(p));
        self.page = Some(p);
        Came::Done
    }

    fn close(&mut self) -> Came {
        if self.page.is_none() {
            return Came::OutOfPlace;
        }
        self.board.close_page();
        self.page = None;
        Came::Done
    }

    fn store(&mut self, at: u32, v: u64) -> Came {
        if self.page != Some(at / 512) {
            return Came::OutOfPlace;
        }
        Came::from(self.board.store(WordAt(at), v))
    }

    fn store_run(&mut self, at: u32, words: &[u64]) -> Came {
        if self.page != Some(at / 512) {
            return Came::OutOfPlace;
        }
        if BLOCK_WORDS - (at as usize) % BLOCK_WORDS < words.len() {
            return Came::OutOfPlace;
        }
        Came::from(self.board.store_run(WordAt(at), words))
    }

    fn copy(&mut self, from: u32, to: u32) -> Came {
        if self.page != Some(to) {
            return Came::OutOfPlace;
        }
        if self.board.pages() <= from || from == to {
            return Came::OutOfPlace;
        }
        Came::from(self.board.copy_page(Page(from), Page(to)))
    }

    fn write(&mut self, b: u32, from: u32) -> Came {
        if 4 <= b || !self.is_shut(from) {
            return Came::OutOfPlace;
        }
        Came::from(self.board.write_block(Block(b), Page(from)))
    }

    fn sync(&mut self) -> Came {
        if self.page.is_some() {
            return Came::OutOfPlace;
        }
        Came::from(self.board.sync())
    }

    /// Reads a block, and tells its last word.
    fn read(&mut self, b: u32) -> Came {
        if self.page.is_some() || 4 <= b {
            return Came::OutOfPlace;
        }
        match self.board.read_block(Block(b), &mut self.room) {
            Ok(()) => Came::Number(self.room[511]),
            Err(DiskFail::Fault) => Came::Fault,
            Err(DiskFail::Stopped) => Came::Stopped,
        }
    }

    fn wild(&mut self, at: u32, v: u64) -> Came {
        if self.board.stopped() {
            return Came::OutOfPlace;
        }
        if !self.has_word(at) {
            return Came::OutOfPlace;
        }
        Came::Met(self.board.wild(WordAt(at), v))
    }

    fn arm(&mut self, steps: u64, at: u32, v: u64) -> Came {
        if !self.has_word(at) {
            return Came::OutOfPlace;
        }
        self.board.arm(steps, WordAt(at), v);
        Came::Done
    }

    fn put_two(&mut self, p: u32, v: u64) -> Came {
        if !self.is_shut(p) {
            return Came::OutOfPlace;
        }
        Came::from(put_two(&mut self.board, Page(p), v))
    }

    fn put_one(&mut self, p: u32, w: u16, v: u64) -> Came {
        if 512 <= w || !self.is_shut(p) {
            return Came::OutOfPlace;
        }
        Came::from(put_word(&mut self.board, Page(p), w, v))
    }

    fn put_run(&mut self, p: u32, w: u16, words: &[u64]) -> Came {
        if 512 < w || !self.is_shut(p) {
            return Came::OutOfPlace;
        }
        if BLOCK_WORDS - (w as usize) < words.len() {
            return Came::OutOfPlace;
        }
        Came::from(put_run(&mut self.board, Page(p), w, words))
    }

    /// The words of a page that is lent: none where memory has no such page.
    fn page(&self, p: u32) -> &[u64] {
        if p < self.board.pages() {
            return self.board.frame(Page(p));
        }
        &[]
    }

    fn word(&self, at: u32) -> Came {
        if !self.has_word(at) {
            return Came::OutOfPlace;
        }
        Came::Number(self.board.load(WordAt(at)))
    }

    fn page_word(&self, p: u32, w: usize) -> Came {
        match self.page(p).get(w) {
            Some(word) => Came::Number(*word),
            None => Came::OutOfPlace,
        }
    }

    /// Answers what the board is asked. Any other call is out of place.
    fn tell(&self, call: Call) -> Came {
        match call {
            Call::Word(at) => self.word(at),
            Call::PageLen(p) => Came::Number(self.page(p).len() as u64),
            Call::PageWord(p, w) => self.page_word(p, w),
            Call::Front(n) => Came::Is(has_front(self.page(2), n)),
            Call::Steps => Came::Number(self.board.steps()),
            Call::Spared => Came::Number(self.board.spared()),
            Call::Halted => Came::Is(self.board.stopped()),
            Call::Trapped => Came::Place(self.board.trapped()),
            Call::Pages => Came::Number(self.board.pages() as u64),
            Call::Blocks => Came::Number(self.board.disk_blocks() as u64),
            _ => Came::OutOfPlace,
        }
    }

    /// Makes a call, or asks the board, and answers what came of it.
    pub(crate) fn make(&mut self, call: Call) -> Came {
        match call {
            Call::Open(p) => self.open(p),
            Call::Close => self.close(),
            Call::Write(b, from) => self.write(b, from),
            Call::Sync => self.sync(),
            Call::Read(b) => self.read(b),
            Call::Wild(at, v) => self.wild(at, v),
            Call::Arm(steps, at, v) => self.arm(steps, at, v),
            Call::Store(at, v) => self.store(at, v),
            Call::Run(at, words) => self.store_run(at, words),
            Call::Copy(from, to) => self.copy(from, to),
            Call::PutTwo(p, v) => self.put_two(p, v),
            Call::PutOne(p, w, v) => self.put_one(p, w, v),
            Call::PutRun(p, w, words) => self.put_run(p, w, words),
            _ => self.tell(call),
        }
    }
}
