//! Machines in memory, made of pairs, that are booted and served.

ghost use Rattle.std.specs.Prelude.{◌≡◌, ◌<◌, ◌≤◌, ◌+◌, ◌/◌, ◌%◌, ◌^◌, None, IfOk, IsTrue, length};
ghost use Rattle.phys_memory.specs.ListMem.{words_of as memory_words};
ghost use Rattle.rio_base.specs.Image.{HasHeader};
ghost use Rattle.rio_model.specs.declared.state.State.{State};
ghost use Rattle.rio_model.specs.Registry.{HasLayout};

use crate::pairs::Pair;
use block_disk::{DiskChoice, MemDisk};
use board::Board;
use line_loop::{LineServer, serve_until_end};
use phys_memory::ListMem;
use rio_base::{Block, DiskBlocks, Machine, WordAt};
use rio_core::Core;
use rio_model::Census;
use std::alloc::{AllocError, Global};
use test_objects::{MemSink, MemSource};
use warm_reboot::{BootError, BootFail, BootReport, boot, examine};

/// A machine in memory, with one page of scratch.
type PairBoard = Board<ListMem, MemDisk>;

/// The words of a page and of a block.
const PAGE_WORDS: usize = 512;

/// The fewest words of a header and a page of scratch, and the most words of an image.
const LEAST_WORDS: usize = 1024;

const MOST_WORDS: usize = 4_300_000;

/// The most words of a disk.
const MOST_DISK_WORDS: usize = 16_777_216;

/// How many bytes a source gives at most in one call.
const PIECE: usize = 65_536;

/// The byte that fills blocks on their way to the disk. No page of a script is full of it.
const FILLED: u8 = 0xa5;

/// What befalls a machine.
#[derive(Clone, Copy)]
pub enum Cut {
    Nothing,
    /// It stops before its next step once it has made so many.
    Stop(u64),
    /// This call on its disk fails, from 1 on.
    Call(u64),
    /// So many reads of this block fail.
    Reads(u32, u64),
}

/// How a reboot ended.
pub type Ended = Result<BootReport, BootFail>;

/// What a look at a machine found.
#[derive(Clone, Copy)]
pub struct Looked {
    /// What there is on its volume, or why that is not told.
    pub found: Result<Census, BootFail>,
    /// Whether memory and disk are as they were.
    pub is_kept: bool,
}

/// A machine whose memory is an image with one page of scratch, and no page is open.
#[derive(Drop)]
pub struct Bootable {
    machine: PairBoard,
    ghost header: { HasHeader (⟦<Board<ListMem, MemDisk> as Machine>⟧.contents machine).words },
    ghost layout: { HasLayout (⟦<Board<ListMem, MemDisk> as Machine>⟧.contents machine).words (⟦<Board<ListMem, MemDisk> as Machine>⟧.run machine).scratch },
    ghost closed: { (⟦<Board<ListMem, MemDisk> as Machine>⟧.contents machine).open_page ≡ None },
}

impl Bootable {
    /// The machine of a pair, which this befalls. The error means that there was no room for it, or that the pair has no image.
    fn new(alloc: Global, pair: &Pair, cut: Cut) -> Result<Bootable, AllocError> {
        if !has_pages(&pair.memory) {
            return Err(AllocError);
        }
        let disk = disk_of(alloc, &pair.disk, cut)?;
        let memory = Vec::from_slice(alloc, &pair.memory)?;
        let machine = board_of(memory, disk, stop_after(cut));
        if !is_image(&machine) {
            return Err(AllocError);
        }
        Ok(Bootable { machine })
    }
}

/// Room in which machines are booted and served one after another, and what came of the last one.
#[derive(Drop)]
pub struct Room {
    alloc: Global,
    /// The lines that are served.
    source: MemSource,
    sink: MemSink,
    /// How the reboot ended.
    pub end: Ended,
    /// How many steps were made, those of the reboot among them.
    pub steps: u64,
    /// The disk as it read before it crashed.
    read: Vec<u64>,
    /// The words of a block.
    block: Vec<u64>,
}

impl Room {
    /// Room in which no machine was booted yet.
    pub fn new(alloc: Global) -> Result<Room, AllocError> {
        let block = vec![in alloc; 0; PAGE_WORDS]?;
        let source = MemSource::new(alloc, &[], PIECE)?;
        Ok(Room {
            alloc,
            source,
            sink: MemSink::new(alloc),
            end: Err(BootFail::Memory),
            steps: 0,
            read: Vec::new(alloc),
            block,
        })
    }

    /// The replies, a line each.
    pub fn replies(&self) -> &[u8] {
        self.sink.bytes().as_slice()
    }

    /// The machine of a pair, which this befalls, and that is to serve these lines.
    pub fn machine(&mut self, pair: &Pair, cut: Cut, input: &[u8]) -> Result<Bootable, AllocError> {
        self.source = MemSource::new(self.alloc, input, PIECE)?;
        self.sink = MemSink::new(self.alloc);
        Bootable::new(self.alloc, pair, cut)
    }

    /// Boots a machine, and serves the lines.
    pub fn serve(&mut self, machine: Bootable) -> PairBoard {
        let Bootable { machine } = machine;
        let (end, machine) = boot_and_serve(self.alloc, machine, &mut self.source, &mut self.sink);
        self.end = end;
        self.steps = machine.steps();
        machine
    }

    /// Boots the machine of a pair, and serves lines. What it left is let go.
    pub fn pass(&mut self, pair: &Pair, input: &[u8]) -> Result<(), AllocError> {
        let machine = self.machine(pair, Cut::Nothing, input)?;
        let _machine = self.serve(machine);
        Ok(())
    }

    /// How many steps a machine of a pair takes to boot and to serve lines.
    pub fn steps_of(&mut self, pair: &Pair, input: &[u8]) -> Result<u64, AllocError> {
        self.pass(pair, input)?;
        Ok(self.steps)
    }

    /// Boots the machine of a pair, which this befalls, serves lines, and takes it apart. What is pending then reads as is chosen.
    pub fn run(
        &mut self,
        pair: &Pair,
        cut: Cut,
        input: &[u8],
        choice: DiskChoice,
    ) -> Result<Pair, AllocError> {
        let machine = self.machine(pair, cut, input)?;
        let machine = self.serve(machine);
        self.taken_apart(machine, choice)
    }

    /// Looks at the machine of a pair, and stores nothing.
    pub fn look(&mut self, pair: &Pair) -> Result<Looked, AllocError> {
        let Bootable { machine } = Bootable::new(self.alloc, pair, Cut::Nothing)?;
        let (found, machine) = looked_at(self.alloc, machine);
        let left = self.taken_apart(machine, DiskChoice::AsRead)?;
        Ok(Looked {
            found,
            is_kept: left.is(pair),
        })
    }

    /// The memory and the disk that a machine left.
    fn taken_apart(&mut self, machine: PairBoard, choice: DiskChoice) -> Result<Pair, AllocError> {
        let (memory, disk) = machine.into_parts();
        let disk = self.crashed(disk, choice)?;
        let memory = memory.into_words();
        Ok(Pair { memory, disk })
    }

    /// The words of a disk after it crashed so. What it read before is kept.
    fn crashed(&mut self, disk: MemDisk, choice: DiskChoice) -> Result<Vec<u64>, AllocError> {
        let mut disk = disk;
        disk.drop_fails();
        self.read = self.all_words(&mut disk)?;
        disk.after_crash(choice);
        self.all_words(&mut disk)
    }

    /// The words of a disk as it reads. No call of it is to fail.
    fn all_words(&mut self, disk: &mut MemDisk) -> Result<Vec<u64>, AllocError> {
        let mut words = Vec::new(self.alloc);
        for b in 0..disk.count() {
            read_block(disk, b, &mut self.block, &mut words)?;
        }
        Ok(words)
    }

    /// Boots the machine of a pair, which this befalls, serves lines, and takes what it may leave: a pair for each thing that the
    /// disk may make of what is pending, without those that are the same as one before. Nothing is pending where the disk reads
    /// the same after a crash that fills what is.
    pub fn leave(
        &mut self,
        pair: &Pair,
        cut: Cut,
        input: &[u8],
        left: &mut Vec<Pair>,
    ) -> Result<(), AllocError> {
        let filled = self.run(pair, cut, input, DiskChoice::Filled(FILLED))?;
        self.leave_pending(pair, cut, input, &filled, left)?;
        Ok(left.push(filled)?)
    }

    /// Takes what the machine of a pair may leave beside what it left where the disk was filled: nothing where nothing is pending.
    fn leave_pending(
        &mut self,
        pair: &Pair,
        cut: Cut,
        input: &[u8],
        filled: &Pair,
        left: &mut Vec<Pair>,
    ) -> Result<(), AllocError> {
        if self.read.as_slice() == filled.disk.as_slice() {
            return Ok(());
        }
        let as_read = Pair::of(self.alloc, &filled.memory, &self.read)?;
        left.push(as_read)?;
        self.leave_synced(pair, cut, input, left)
    }

    /// Takes what the machine of a pair leaves if what is pending is lost, where that is not what was taken before.
    fn leave_synced(
        &mut self,
        pair: &Pair,
        cut: Cut,
        input: &[u8],
        left: &mut Vec<Pair>,
    ) -> Result<(), AllocError> {
        let synced = self.run(pair, cut, input, DiskChoice::AsSynced)?;
        if has(left, &synced) {
            return Ok(());
        }
        Ok(left.push(synced)?)
    }

    /// Takes what the machine of a pair may leave in place of what was taken last. Answers whether it is not the same.
    pub fn leave_anew(
        &mut self,
        pair: &Pair,
        cut: Cut,
        input: &[u8],
        last: &mut Vec<Pair>,
    ) -> Result<bool, AllocError> {
        let mut left = Vec::new(self.alloc);
        self.leave(pair, cut, input, &mut left)?;
        let is_anew = !are_same(&left, last);
        *last = left;
        Ok(is_anew)
    }
}

/// Whether one of these pairs has the words of another.
fn has(pairs: &[Pair], other: &Pair) -> bool {
    for pair in pairs {
        if pair.is(other) {
            return true;
        }
    }
    false
}

/// Whether both are the same pairs, in order.
fn are_same(some: &[Pair], others: &[Pair]) -> bool {
    let mut rest = others;
    for one in some {
        let Some((other, behind)) = rest.split_first() else {
            return false;
        };
        if !one.is(other) {
            return false;
        }
        rest = behind;
    }
    rest.is_empty()
}

/// Reads block `b`, and puts its words behind others.
fn read_block(
    disk: &mut MemDisk,
    b: u32,
    block: &mut Vec<u64>,
    words: &mut Vec<u64>,
) -> Result<(), AllocError> {
    if block.len() != PAGE_WORDS {
        return Err(AllocError);
    }
    if disk.count() <= b {
        return Err(AllocError);
    }
    match disk.read(Block(b), block) {
        Ok(()) => words.extend_from_slice(block),
        Err(_) => Err(AllocError),
    }
}

/// Whether memory has so many words as an image with a page of scratch may have.
fn has_pages(words: &[u64]) -> bool
    ensures pages { IsTrue result → length words.now % 512 ≡ 0 }
    ensures room { IsTrue result → 512 < length words.now }
    ensures small { IsTrue result → length words.now < 2 ^ 32 }
{
    if words.len() < LEAST_WORDS {
        return false;
    }
    if MOST_WORDS < words.len() {
        return false;
    }
    words.len() % PAGE_WORDS == 0
}

/// The steps after which a machine stops.
fn stop_after(cut: Cut) -> Option<u64> {
    match cut {
        Cut::Stop(n) => Some(n),
        Cut::Nothing | Cut::Call(_) | Cut::Reads(_, _) => None,
    }
}

/// A disk of these words, which this befalls.
fn disk_of(alloc: Global, words: &[u64], cut: Cut) -> Result<MemDisk, AllocError> {
    if MOST_DISK_WORDS < words.len() {
        return Err(AllocError);
    }
    let mut disk = MemDisk::from_words(alloc, words)?;
    match cut {
        Cut::Call(n) => disk.fail_call(n.max(1))?,
        Cut::Reads(b, n) => disk.fail_reads(Block(b), n),
        Cut::Nothing | Cut::Stop(_) => {}
    }
    Ok(disk)
}

/// A board over this memory and this disk, with one page of scratch.
fn board_of(memory: Vec<u64>, disk: MemDisk, stop_after: Option<u64>) -> PairBoard
    requires pages { length memory.items % 512 ≡ 0 }
    requires room { 512 < length memory.items }
    requires small { length memory.items < 2 ^ 32 }
    ensures words { 512 + length (⟦<Board<ListMem, MemDisk> as Machine>⟧.contents result).words ≡ length memory.items }
    ensures scratch { length (⟦<Board<ListMem, MemDisk> as Machine>⟧.run result).scratch ≡ 512 }
    ensures closed { (⟦<Board<ListMem, MemDisk> as Machine>⟧.contents result).open_page ≡ None }
{
    Board::new(ListMem::from_words(memory), disk, 1, stop_after)
}

/// Whether memory has the header of an image that is as long as it, with one page of scratch.
#[tactic(auto, using(crate::proofs::Layouts::layout_of))]
fn is_image<M: Machine>(m: &M) -> bool
    requires words { 512 ≤ length (M.contents m.now).words }
    requires scratch { length (M.run m.now).scratch ≡ 512 }
    ensures header { IsTrue result → HasHeader (M.contents m.now).words }
    ensures layout { IsTrue result → HasLayout (M.contents m.now).words (M.run m.now).scratch }
{
    if m.load(WordAt(0)) != 0x4548_4341_434f_4952 {
        return false;
    }
    if m.load(WordAt(1)) != 1 {
        return false;
    }
    if m.load(WordAt(3)) != 1 {
        return false;
    }
    has_frames(m.load(WordAt(2)), m.pages())
}

/// Whether an image of so many frames and one page of scratch has so many pages.
fn has_frames(frames: u64, pages: u32) -> bool
    ensures { IsTrue result → (32 ≤ frames) × (frames ≤ 8192) × (pages ≡ (frames + 101) / 102 + frames + 18) }
{
    if frames < 32 {
        return false;
    }
    if 8192 < frames {
        return false;
    }
    u64::from(pages) == (frames + 101) / 102 + frames + 18
}

/// Boots a machine, and starts a core on it.
fn core_of<M: Machine>(alloc: Global, machine: M) -> Result<(Core<M>, BootReport), (M, BootFail)>
    requires header { HasHeader (M.contents machine).words }
    requires layout { HasLayout (M.contents machine).words (M.run machine).scratch }
    requires closed { (M.contents machine).open_page ≡ None }
    ensures sound { IfOk result (λ b. ⟦<Core<M> as LineServer>⟧.sound b.0) }
    ensures holds { IfOk result (λ b. (s : State) × ⟦<Core<M> as LineServer>⟧.holds b.0 s) }
{
    match boot(alloc, machine) {
        Ok((cache, report)) => match Core::new(alloc, cache, report.shape) {
            Ok(core) => Ok((core, report)),
            Err((cache, _)) => Err((cache.into_machine(), BootFail::Memory)),
        },
        Err(BootError { machine, fail }) => Err((machine, fail)),
    }
}

/// Boots a machine, serves the lines of a source, and takes the machine back.
fn boot_and_serve<M: Machine>(
    alloc: Global,
    machine: M,
    source: &mut MemSource,
    sink: &mut MemSink,
) -> (Ended, M)
    requires header { HasHeader (M.contents machine).words }
    requires layout { HasLayout (M.contents machine).words (M.run machine).scratch }
    requires closed { (M.contents machine).open_page ≡ None }
{
    match core_of(alloc, machine) {
        Ok((core, report)) => (Ok(report), served(alloc, core, source, sink)),
        Err((machine, fail)) => (Err(fail), machine),
    }
}

/// Looks at a machine, and takes it back.
fn looked_at<M: Machine>(alloc: Global, machine: M) -> (Result<Census, BootFail>, M)
    requires layout { HasLayout (M.contents machine).words (M.run machine).scratch }
    requires closed { (M.contents machine).open_page ≡ None }
{
    match examine(alloc, machine) {
        Ok((machine, census)) => (Ok(census), machine),
        Err(BootError { machine, fail }) => (Err(fail), machine),
    }
}

/// Serves the lines of a source, and takes the machine back.
fn served<M: Machine>(alloc: Global, core: Core<M>, source: &mut MemSource, sink: &mut MemSink) -> M
    requires sound { ⟦<Core<M> as LineServer>⟧.sound core }
    requires holds { (s : State) × ⟦<Core<M> as LineServer>⟧.holds core s }
{
    let mut core = core;
    let _end = serve_until_end(alloc, &mut core, source, sink, false);
    core.into_machine()
}
