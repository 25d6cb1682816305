//! The words of a region's file, read and stored in place. The caller has the inode of the region, and a call goes to the
//! block of each page once.

ghost use Rattle.std.specs.Prelude.{◌≡◌, ◌+◌, ◌*◌, ◌/◌, ◌%◌, ◌^◌, ◌<◌, ◌≤◌, IfOk, IsErrOf, OnOk, length};
ghost use Rattle.rio_base.specs.Frames.{CanRead, ReadBy};
ghost use Rattle.rio_base.specs.Blocks.{Ends, FaultAt, as_word};
ghost use Rattle.rio_base.specs.Regions.{AreWords, OldOrPutWord, OldOrPutWords, put_word, put_words};
ghost use Rattle.rio_base.specs.Volume.{Goes};
ghost use Rattle.rio_base.specs.NodeKinds.{region_kind};
ghost use Rattle.rio_model.specs.Held.{held_of};
ghost use Rattle.rio_model.specs.VolumeReady.{Ready};
ghost use Rattle.inode_table.specs.Inodes.{IsInode};
ghost use Rattle.region_view.specs.Views.{CanReadWords, IsWordName, IsWordPage, LooksWords};
ghost use Rattle.rio_model.specs.RegionMoves.{RestHeld};

use inode_table::{DIRECT_PAGES, Inode};
use node_pages::block_of;
use rio_base::{
    Block, Blocks, Ino, PAGE_BYTES, PAGE_WORDS, PageName, RunFail, VolFail, Volume, VolumeShape,
};

/// Bytes of a word.
const WORD_BYTES: u64 = 8;

/// How many words a region with this inode has.
pub fn region_words(inode: &Inode) -> u32
    requires few { inode.now.size < 2 ^ 35 }
    ensures { result ≡ inode.now.size / 8 }
{
    (inode.size / WORD_BYTES) as u32
}

/// The name of the page of region `i` that has word `at`. A region has whole pages.
fn page_name(i: Ino, at: u32) -> PageName
    ensures { IsWordName i.0 at result }
{
    PageName {
        file: i,
        index: at / PAGE_WORDS,
        size: PAGE_BYTES as u32,
    }
}

/// The block of that page, by the inode of the region where that numbers it.
fn page_block<V: Blocks>(
    v: &mut V,
    shape: &VolumeShape,
    i: Ino,
    inode: &Inode,
    at: u32,
) -> Result<Block, VolFail>
    requires can { CanRead V.seen V.sound (CanReadWords shape.now) v.old }
    requires region { (held_of shape.now (V.seen v.old).words i.0).kind ≡ region_kind }
    requires inode { IsInode (V.seen v.old).words i.0 inode.now }
    requires place { 8 * at < (held_of shape.now (V.seen v.old).words i.0).size }
    ensures page { IfOk result (λ b. IsWordPage shape.now (V.seen v.new).words i.0 at b.0) }
    ensures read { ReadBy V.seen V.health V.sound V.passes (LooksWords shape.now) v.old v.new result }
{
    let page = at / PAGE_WORDS;
    if page < DIRECT_PAGES {
        return Ok(Block(inode.direct[page as usize]));
    }
    block_of(v, shape, i, page)
}

/// How many of `len` words from word `at` of a region on lie in one page with the first of them.
fn in_page(at: u32, len: usize) -> usize
    ensures some { 0 < len → 0 < result }
    ensures most { result ≤ len }
    ensures within { at % 512 + result ≤ 512 }
{
    len.min((PAGE_WORDS - at % PAGE_WORDS) as usize)
}

/// Word `at` of region `i`.
pub fn read_word<V: Volume>(
    v: &mut V,
    shape: &VolumeShape,
    i: Ino,
    inode: &Inode,
    at: u32,
) -> Result<u64, VolFail>
    requires sound { V.sound v.old }
    requires ready { Ready shape.now (V.seen v.old) (V.kept v.old) }
    requires region { (held_of shape.now (V.seen v.old).words i.0).kind ≡ region_kind }
    requires inode { IsInode (V.seen v.old).words i.0 inode.now }
    requires place { 8 * at < (held_of shape.now (V.seen v.old).words i.0).size }
    ensures value { IfOk result (λ word. word ≡ (held_of shape.now (V.seen v.old).words i.0).word at) }
    ensures words { (V.seen v.new).words ≡ (V.seen v.old).words }
    ensures ready { Ready shape.now (V.seen v.new) (V.kept v.new) }
    ensures passes { V.passes v.old v.new }
    ensures ends { Ends (V.health v.old) (V.health v.new) result }
    ensures sound { V.sound v.new }
{
    let b = page_block(v, shape, i, inode, at)?;
    v.word(b, Some(page_name(i, at)), (at % PAGE_WORDS) as u16)
}

/// Reads words of one page of region `i`, from word `at` of the region on, as many as `into` has. After a failure `into` may
/// hold anything.
fn read_part<V: Blocks>(
    v: &mut V,
    shape: &VolumeShape,
    i: Ino,
    inode: &Inode,
    at: u32,
    into: &mut [u64],
) -> Result<(), VolFail>
    requires can { CanRead V.seen V.sound (CanReadWords shape.now) v.old }
    requires region { (held_of shape.now (V.seen v.old).words i.0).kind ≡ region_kind }
    requires inode { IsInode (V.seen v.old).words i.0 inode.now }
    requires some { 0 < length into.old }
    requires within { at % 512 + length into.old ≤ 512 }
    requires place { 8 * (at + length into.old) ≤ (held_of shape.now (V.seen v.old).words i.0).size }
    ensures value { OnOk result (AreWords (held_of shape.now (V.seen v.old).words i.0).word at (length into.old) into.new) }
    ensures len { length into.new ≡ length into.old }
    ensures read { ReadBy V.seen V.health V.sound V.passes (LooksWords shape.now) v.old v.new result }
{
    let b = page_block(v, shape, i, inode, at)?;
    v.read_run(b, Some(page_name(i, at)), (at % PAGE_WORDS) as u16, into)
}

/// Reads one part of a run of words of region `i`, which begins at word `at`: `done` of them are read, and the next is
/// read together with those of its page. Says how many are read then.
fn read_more<V: Blocks>(
    v: &mut V,
    shape: &VolumeShape,
    i: Ino,
    inode: &Inode,
    at: u32,
    done: usize,
    into: &mut [u64],
) -> Result<usize, VolFail>
    requires can { CanRead V.seen V.sound (CanReadWords shape.now) v.old }
    requires region { (held_of shape.now (V.seen v.old).words i.0).kind ≡ region_kind }
    requires inode { IsInode (V.seen v.old).words i.0 inode.now }
    requires some { done < length into.old }
    requires few { at + length into.old < 2 ^ 32 }
    requires place { 8 * (at + length into.old) ≤ (held_of shape.now (V.seen v.old).words i.0).size }
    requires value { AreWords (held_of shape.now (V.seen v.old).words i.0).word at done into.old }
    ensures more { IfOk result (λ n. (done < n) × (n ≤ length into.old) × AreWords (held_of shape.now (V.seen v.old).words i.0).word at n into.new) }
    ensures len { length into.new ≡ length into.old }
    ensures read { ReadBy V.seen V.health V.sound V.passes (LooksWords shape.now) v.old v.new result }
{
    let first = at + done as u32;
    let end = done + in_page(first, into.len() - done);
    read_part(v, shape, i, inode, first, &mut into[done..end])?;
    Ok(end)
}

/// Reads words of region `i`, from word `at` on, as many as `into` has, part by part. After a failure `into` may hold
/// anything.
pub fn read_words<V: Blocks>(
    v: &mut V,
    shape: &VolumeShape,
    i: Ino,
    inode: &Inode,
    at: u32,
    into: &mut [u64],
) -> Result<(), VolFail>
    requires sound { V.sound v.old }
    requires can { CanReadWords shape.now (V.seen v.old) }
    requires region { (held_of shape.now (V.seen v.old).words i.0).kind ≡ region_kind }
    requires inode { IsInode (V.seen v.old).words i.0 inode.now }
    requires few { at + length into.old < 2 ^ 32 }
    requires place { 8 * (at + length into.old) ≤ (held_of shape.now (V.seen v.old).words i.0).size }
    ensures value { OnOk result (AreWords (held_of shape.now (V.seen v.old).words i.0).word at (length into.old) into.new) }
    ensures len { length into.new ≡ length into.old }
    ensures words { (V.seen v.new).words ≡ (V.seen v.old).words }
    ensures can { CanReadWords shape.now (V.seen v.new) }
    ensures passes { V.passes v.old v.new }
    ensures ends { Ends (V.health v.old) (V.health v.new) result }
    ensures sound { V.sound v.new }
{
    let mut done = 0;
    while done < into.len() {
        done = read_more(v, shape, i, inode, at, done, into)?;
    }
    Ok(())
}

/// Stores word `at` of region `i`. `Fault` changes nothing; `Stopped` leaves the old or the new word.
pub fn store_word<V: Volume>(
    v: &mut V,
    shape: &VolumeShape,
    i: Ino,
    inode: &Inode,
    at: u32,
    word: u64,
) -> Result<(), VolFail>
    requires sound { V.sound v.old }
    requires ready { Ready shape.now (V.seen v.old) (V.kept v.old) }
    requires region { (held_of shape.now (V.seen v.old).words i.0).kind ≡ region_kind }
    requires inode { IsInode (V.seen v.old).words i.0 inode.now }
    requires place { 8 * at < (held_of shape.now (V.seen v.old).words i.0).size }
    ensures ok { OnOk result ((held_of shape.now (V.seen v.new).words i.0).word ≡ put_word (held_of shape.now (V.seen v.old).words i.0).word at word) }
    ensures fault { IsErrOf result VolFail.Fault → (held_of shape.now (V.seen v.new).words i.0).word ≡ (held_of shape.now (V.seen v.old).words i.0).word }
    ensures either { OldOrPutWord (held_of shape.now (V.seen v.old).words i.0).word (held_of shape.now (V.seen v.new).words i.0).word at word }
    ensures rest { RestHeld shape.now i.0 (V.seen v.old).words (V.seen v.new).words }
    ensures ready { Ready shape.now (V.seen v.new) (V.kept v.new) }
    ensures goes { Goes (V.health v.old) (V.below v.old) (V.health v.new) (V.below v.new) }
    ensures ends { Ends (V.health v.old) (V.health v.new) result }
    ensures sound { V.sound v.new }
{
    let b = page_block(v, shape, i, inode, at)?;
    v.store(b, Some(page_name(i, at)), (at % PAGE_WORDS) as u16, word)
}

/// Stores words of one page of region `i`, from word `at` of the region on, in rising order. `Fault` says how many were
/// stored; `Stopped` leaves a front of them.
fn store_part<V: Volume>(
    v: &mut V,
    shape: &VolumeShape,
    i: Ino,
    inode: &Inode,
    at: u32,
    from: &[u64],
) -> Result<(), RunFail>
    requires sound { V.sound v.old }
    requires ready { Ready shape.now (V.seen v.old) (V.kept v.old) }
    requires region { (held_of shape.now (V.seen v.old).words i.0).kind ≡ region_kind }
    requires inode { IsInode (V.seen v.old).words i.0 inode.now }
    requires some { 0 < length from.now }
    requires within { at % 512 + length from.now ≤ 512 }
    requires place { 8 * (at + length from.now) ≤ (held_of shape.now (V.seen v.old).words i.0).size }
    ensures ok { OnOk result ((held_of shape.now (V.seen v.new).words i.0).word ≡ put_words (held_of shape.now (V.seen v.old).words i.0).word at (length from.now) from.now) }
    ensures fault { FaultAt result (λ n. (n < length from.now) × ((held_of shape.now (V.seen v.new).words i.0).word ≡ put_words (held_of shape.now (V.seen v.old).words i.0).word at n from.now)) }
    ensures front { OldOrPutWords (held_of shape.now (V.seen v.old).words i.0).word (held_of shape.now (V.seen v.new).words i.0).word at from.now (length from.now) }
    ensures rest { RestHeld shape.now i.0 (V.seen v.old).words (V.seen v.new).words }
    ensures ready { Ready shape.now (V.seen v.new) (V.kept v.new) }
    ensures goes { Goes (V.health v.old) (V.below v.old) (V.health v.new) (V.below v.new) }
    ensures ends { Ends (V.health v.old) (V.health v.new) (as_word result) }
    ensures sound { V.sound v.new }
{
    match page_block(v, shape, i, inode, at) {
        Ok(b) => v.store_run(b, Some(page_name(i, at)), (at % PAGE_WORDS) as u16, from),
        Err(VolFail::Fault) => Err(RunFail::Fault(0)),
        Err(VolFail::Stopped) => Err(RunFail::Stopped),
    }
}

/// Stores those of the words that lie in one page with the first of them, which is word `at` of region `i`. Says how many.
fn store_page<V: Volume>(
    v: &mut V,
    shape: &VolumeShape,
    i: Ino,
    inode: &Inode,
    at: u32,
    from: &[u64],
) -> Result<usize, RunFail>
    requires sound { V.sound v.old }
    requires ready { Ready shape.now (V.seen v.old) (V.kept v.old) }
    requires region { (held_of shape.now (V.seen v.old).words i.0).kind ≡ region_kind }
    requires inode { IsInode (V.seen v.old).words i.0 inode.now }
    requires some { 0 < length from.now }
    requires place { 8 * (at + length from.now) ≤ (held_of shape.now (V.seen v.old).words i.0).size }
    ensures ok { IfOk result (λ n. (0 < n) × (n ≤ length from.now) × ((held_of shape.now (V.seen v.new).words i.0).word ≡ put_words (held_of shape.now (V.seen v.old).words i.0).word at n from.now)) }
    ensures fault { FaultAt result (λ n. (n < length from.now) × ((held_of shape.now (V.seen v.new).words i.0).word ≡ put_words (held_of shape.now (V.seen v.old).words i.0).word at n from.now)) }
    ensures front { OldOrPutWords (held_of shape.now (V.seen v.old).words i.0).word (held_of shape.now (V.seen v.new).words i.0).word at from.now (length from.now) }
    ensures rest { RestHeld shape.now i.0 (V.seen v.old).words (V.seen v.new).words }
    ensures ready { Ready shape.now (V.seen v.new) (V.kept v.new) }
    ensures goes { Goes (V.health v.old) (V.below v.old) (V.health v.new) (V.below v.new) }
    ensures ends { Ends (V.health v.old) (V.health v.new) (as_word result) }
    ensures sound { V.sound v.new }
{
    let count = in_page(at, from.len());
    match store_part(v, shape, i, inode, at, &from[..count]) {
        Ok(()) => Ok(count),
        Err(RunFail::Fault(n)) => Err(RunFail::Fault(n)),
        Err(RunFail::Stopped) => Err(RunFail::Stopped),
    }
}

/// Stores words of region `i`, from word `at` on, in rising order. `Fault` says how many were stored; `Stopped` leaves a
/// front of them.
pub fn store_words<V: Volume>(
    v: &mut V,
    shape: &VolumeShape,
    i: Ino,
    inode: &Inode,
    at: u32,
    from: &[u64],
) -> Result<(), RunFail>
    requires sound { V.sound v.old }
    requires ready { Ready shape.now (V.seen v.old) (V.kept v.old) }
    requires region { (held_of shape.now (V.seen v.old).words i.0).kind ≡ region_kind }
    requires inode { IsInode (V.seen v.old).words i.0 inode.now }
    requires few { at + length from.now < 2 ^ 32 }
    requires place { 8 * (at + length from.now) ≤ (held_of shape.now (V.seen v.old).words i.0).size }
    ensures ok { OnOk result ((held_of shape.now (V.seen v.new).words i.0).word ≡ put_words (held_of shape.now (V.seen v.old).words i.0).word at (length from.now) from.now) }
    ensures fault { FaultAt result (λ n. (n < length from.now) × ((held_of shape.now (V.seen v.new).words i.0).word ≡ put_words (held_of shape.now (V.seen v.old).words i.0).word at n from.now)) }
    ensures front { OldOrPutWords (held_of shape.now (V.seen v.old).words i.0).word (held_of shape.now (V.seen v.new).words i.0).word at from.now (length from.now) }
    ensures rest { RestHeld shape.now i.0 (V.seen v.old).words (V.seen v.new).words }
    ensures ready { Ready shape.now (V.seen v.new) (V.kept v.new) }
    ensures goes { Goes (V.health v.old) (V.below v.old) (V.health v.new) (V.below v.new) }
    ensures ends { Ends (V.health v.old) (V.health v.new) (as_word result) }
    ensures sound { V.sound v.new }
{
    let mut done = 0;
    while done < from.len() {
        match store_page(v, shape, i, inode, at + done as u32, &from[done..]) {
            Ok(count) => done += count,
            Err(RunFail::Fault(n)) => return Err(RunFail::Fault(done as u32 + n)),
            Err(RunFail::Stopped) => return Err(RunFail::Stopped),
        }
    }
    Ok(())
}
