//! A view of a small machine that is made by hand: 32 frames, one page of scratch, and a disk of 16 blocks.

ghost use Rattle.std.specs.Prelude.{◌≡◌, ◌<◌, ◌≤◌, ◌-◌, ◌%◌, None, IfOk, IsTrue, length};
ghost use Rattle.phys_memory.specs.ListMem.{words_of};
ghost use Rattle.rio_model.specs.Registry.{HasLayout};

use crate::same::same;
use block_disk::MemDisk;
use board::Board;
use phys_memory::ListMem;
use registry::{CoverView, Tag, check_image};
use rio_base::{Block, Blocks, DiskBlocks, Machine, VolFail, WordAt};
use std::alloc::{AllocError, Global};
use std::process::Abort;
use std::test::Fail;

/// The words of such a machine, 51 pages.
const WORDS: usize = 26_112;

/// Puts the tag and the shadow of a metadata entry.
fn put_entry(words: &mut [u64], k: usize, tag: Tag, shadow: u64)
    requires entry { k ≤ 5 }
    requires room { 12000 ≤ length words.old }
    ensures { length words.new ≡ length words.old }
{
    words[512 + 5 * k] = tag.0;
    words[515 + 5 * k] = 4096;
    words[516 + 5 * k] = shadow;
}

/// Words whose gate is 1. Entry 0 is of block 9 and dirty; entry 3 is of block 10 and has shadow 2; entry 4 is of block 11
/// and clean, and its page is not the disk's block; entry 5 is of block 200, which is past the disk.
fn image_of(alloc: Global, count: usize) -> Result<Vec<u64>, AllocError>
    requires room { 12000 ≤ count }
    ensures { IfOk result (λ words. length words.items ≡ count) }
{
    let mut words = vec![in alloc; 0u64; count]?;
    words[2] = 32;
    words[3] = 1;
    words[4] = 1;
    words[1_536] = 8; // page 3, shadow page 2
    words[9_216] = 7; // page 18, frame 0
    words[10_752] = 70; // page 21, frame 3
    words[11_264] = 6; // page 22, frame 4
    put_entry(&mut words, 0, Tag::of(Block(9), true, false), 0);
    put_entry(&mut words, 3, Tag::of(Block(10), true, false), 2);
    put_entry(&mut words, 4, Tag::of(Block(11), false, false), 0);
    put_entry(&mut words, 5, Tag::of(Block(200), true, false), 0);
    Ok(words)
}

/// A disk whose blocks 10 to 12 begin with 50 and 60, and where the second read fails.
fn disk_of(alloc: Global) -> Result<MemDisk, Fail> {
    let mut block = vec![in alloc; 0u64; 512]?;
    block[0] = 50;
    block[1] = 60;
    let mut disk = MemDisk::new(alloc, 16)?;
    disk.write(Block(10), &block)?;
    disk.write(Block(11), &block)?;
    disk.write(Block(12), &block)?;
    disk.fail_call(2)?;
    Ok(disk)
}

/// A board over this memory and this disk, with one page of scratch.
fn board_of(mem: ListMem, disk: MemDisk) -> Board<ListMem, MemDisk>
    requires pages { length (words_of mem) % 512 ≡ 0 }
    requires room { 512 < length (words_of mem) }
    ensures words { length (⟦<Board<ListMem, MemDisk> as Machine>⟧.contents result).words ≡ length (words_of mem) - 512 }
    ensures scratch { length (⟦<Board<ListMem, MemDisk> as Machine>⟧.run result).scratch ≡ 512 }
    ensures closed { (⟦<Board<ListMem, MemDisk> as Machine>⟧.contents result).open_page ≡ None }
{
    Board::new(mem, disk, 1, None)
}

/// Whether the machine's header says what its sizes are.
#[tactic(auto, using(crate::proofs::Layouts::layout_of))]
fn has_layout<M: Machine>(m: &M) -> bool
    requires words { length (M.contents m.now).words ≡ 25600 }
    requires scratch { length (M.run m.now).scratch ≡ 512 }
    ensures { IsTrue result → HasLayout (M.contents m.now).words (M.run m.now).scratch }
{
    if m.load(WordAt(2)) != 32 {
        return false;
    }
    m.load(WordAt(3)) == 1
}

/// A view of a machine, whose image must keep its rules.
fn view_of<M: Machine + Drop>(alloc: Global, m: M) -> Result<CoverView<M>, AllocError>
    requires words { length (M.contents m).words ≡ 25600 }
    requires scratch { length (M.run m).scratch ≡ 512 }
    requires closed { (M.contents m).open_page ≡ None }
    ensures { IfOk result (λ view. ⟦<CoverView<M> as Blocks>⟧.sound view) }
{
    if !has_layout(&m) {
        return Err(AllocError);
    }
    if check_image(&m).is_err() {
        return Err(AllocError);
    }
    match CoverView::new(alloc, m) {
        Ok(view) => Ok(view),
        Err((_, error)) => Err(error),
    }
}

/// What is found of a block.
#[derive(Clone, Copy, Debug, PartialEq, Eq)]
struct Came {
    /// A word of it as it is lent, before it is read.
    lent: Option<u64>,
    word: Result<u64, VolFail>,
    /// This word and the next, read together, after it was read alone.
    two: Result<[u64; 2], VolFail>,
}

/// Looks at word `w` of block `b`; nothing where there are no two words.
fn look<M: Machine>(view: &mut CoverView<M>, b: u32, w: u16) -> Option<Came>
    requires sound { ⟦<CoverView<M> as Blocks>⟧.sound view.old }
    ensures sound { ⟦<CoverView<M> as Blocks>⟧.sound view.new }
{
    if b >= view.volume_blocks() {
        return None;
    }
    if w > 510 {
        return None;
    }
    let lent = match view.page(Block(b)) {
        Some(words) => Some(words[w as usize]),
        None => None,
    };
    let word = view.word(Block(b), None, w);
    let mut into = [0; 2];
    let two = match view.read_run(Block(b), None, w, &mut into) {
        Ok(()) => Ok(into),
        Err(fail) => Err(fail),
    };
    Some(Came { lent, word, two })
}

/// Looks at blocks one after the other, of which the second that is read from the disk fails.
fn look_at_blocks<M: Machine>(rt: &impl Abort, view: &mut CoverView<M>)
    requires sound { ⟦<CoverView<M> as Blocks>⟧.sound view.old }
{
    let fault = Err(VolFail::Fault);
    let rows = [
        (9, 0, Some(7), Ok(7), Ok([7, 0])),
        (10, 0, Some(8), Ok(8), Ok([8, 0])),
        (11, 0, Some(6), Ok(6), Ok([6, 0])),
        (12, 0, None, Ok(50), Ok([50, 60])),
        (12, 1, Some(60), Ok(60), Ok([60, 0])),
        (13, 0, None, fault, Ok([0, 0])),
        (12, 0, None, Ok(50), Ok([50, 60])),
    ];
    for row in 0..rows.len() {
        let (b, w, lent, word, two) = rows[row];
        let due = Some(Came { lent, word, two });
        same(rt, "blocks", row, &look(view, b, w), &due);
    }
    same(rt, "past the disk", 0, &look(view, 200, 0), &None);
}

#[test]
fn blocks_are_read_as_they_stand(rt: HostRuntime) -> Result<(), Fail> {
    let mem = ListMem::from_words(image_of(rt.alloc(), WORDS)?);
    let board = board_of(mem, disk_of(rt.alloc())?);
    let mut view = view_of(rt.alloc(), board)?;
    look_at_blocks(&rt, &mut view);
    let board = view.into_machine();
    same(&rt, "steps", 0, &board.steps(), &0);
    let (_, disk) = board.into_parts();
    same(&rt, "writes", 0, &disk.writes(), &3);
    Ok(())
}
