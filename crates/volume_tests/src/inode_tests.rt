//! Tests of the inodes on a volume in memory.

ghost use Rattle.std.specs.Prelude.{◌≡◌, ◌≤◌, ◌<◌, false, IfOk, OnOk, slice_index};
ghost use Rattle.rio_base.specs.Layout.{IsIno, inode_kind};
ghost use Rattle.test_objects.specs.ListVolumes.{ListSound, list_kept, list_seen};
ghost use Rattle.rio_base.specs.Shapes.{HasShape};
ghost use Rattle.inode_table.specs.Inodes.{KnowsFull, StayUsed};

use crate::same::same;
use inode_table::{
    FullBlocks, Inode, edit_inode, inode_block, least_free, least_free_past_full, read_inode,
};
use rio_base::{Block, Blocks, Ino, RunFail, Stopped, VolFail, Volume, VolumeShape};
use std::alloc::Global;
use std::test::Fail;
use test_objects::{FaultyVolume, ListVolume};

/// A volume with two blocks of inodes.
const SHAPE: VolumeShape = VolumeShape {
    version: 1,
    blocks: 16,
    inodes: 64,
};

/// An inode of this kind and size whose numbers all differ.
fn numbered(kind: u8, size: u64) -> Inode
    ensures { result.kind ≡ kind }
{
    let mut direct = [0; 24];
    for p in 0..24 {
        direct[p] = 1000 + p as u32;
    }
    Inode {
        kind,
        size,
        direct,
        indirect: u32::MAX,
        double: 7,
    }
}

/// A volume of zeros: no inode is used.
fn zeros(alloc: Global, stop_after: Option<u64>) -> Result<ListVolume, Fail>
    ensures sound { IfOk result ListSound }
    ensures count { IfOk result (λ v. (list_seen v).count ≡ 16) }
    ensures idle { IfOk result (λ v. (list_kept v).updating ≡ false) }
{
    Ok(ListVolume::new(alloc, SHAPE.blocks, stop_after)?)
}

/// Stores inode `i` by an update of its own.
#[tactic(auto, using(inode_table::proofs::InodeRules::stored_kind))]
fn store<V: Volume>(v: &mut V, i: Ino, inode: &Inode) -> Result<(), VolFail>
    requires sound { V.sound v.old }
    requires shape { HasShape SHAPE (V.seen v.old) }
    requires idle { (V.kept v.old).updating ≡ false }
    requires ino { IsIno SHAPE i.0 }
    ensures kind { OnOk result (inode_kind (V.seen v.new).words i.0 ≡ inode.now.kind) }
    ensures others { OnOk result (StayUsed SHAPE i.0 (V.seen v.old).words (V.seen v.new).words) }
    ensures shape { OnOk result (HasShape SHAPE (V.seen v.new)) }
    ensures count { (V.seen v.new).count ≡ (V.seen v.old).count }
    ensures idle { OnOk result ((V.kept v.new).updating ≡ false) }
    ensures sound { V.sound v.new }
{
    v.begin()?;
    v.touch(inode_block(&SHAPE, i))?;
    edit_inode(v, &SHAPE, i, inode)?;
    v.commit()?;
    Ok(())
}

#[test]
fn inodes_read_as_they_were_stored(rt: HostRuntime) -> Result<(), Fail> {
    for i in 1..65 {
        for kind in 0..4 {
            let inode = numbered(kind, u64::MAX - i as u64);
            let mut v = zeros(rt.alloc(), None)?;
            store(&mut v, Ino(i), &inode)?;
            let found = read_inode(&mut v, &SHAPE, Ino(i))?;
            same(&rt, "inode", i as usize, &found, &inode);
        }
    }
    Ok(())
}

/// Words 15 to 32 of a block in which inode 34 is stored: the last word of inode 33, those of inode 34, and the first of
/// inode 35. A word has two numbers, the lower half first.
const INODE_34: [u64; 18] = [
    0,
    2,
    98_305,
    1000 + (1001 << 32),
    1002 + (1003 << 32),
    1004 + (1005 << 32),
    1006 + (1007 << 32),
    1008 + (1009 << 32),
    1010 + (1011 << 32),
    1012 + (1013 << 32),
    1014 + (1015 << 32),
    1016 + (1017 << 32),
    1018 + (1019 << 32),
    1020 + (1021 << 32),
    1022 + (1023 << 32),
    0xffff_ffff,
    7,
    0,
];

#[test]
fn inode_34_is_in_words_16_to_31_of_block_3(rt: HostRuntime) -> Result<(), Fail> {
    let mut v = zeros(rt.alloc(), None)?;
    store(&mut v, Ino(34), &numbered(2, 98_305))?;
    let mut words = [0; 18];
    v.read_run(Block(3), None, 15, &mut words)?;
    same(&rt, "words of inode", 34, &words, &INODE_34);
    Ok(())
}

/// Stores these words as inode 1.
#[tactic(auto, using(inode_table::proofs::Stored::kind_of_run))]
fn store_words<V: Volume>(v: &mut V, words: &[u64; 16]) -> Result<(), RunFail>
    requires sound { V.sound v.old }
    requires shape { HasShape SHAPE (V.seen v.old) }
    requires idle { (V.kept v.old).updating ≡ false }
    requires kind { slice_index words.now 0 ≤ 3 }
    ensures kind { OnOk result (inode_kind (V.seen v.new).words 1 ≤ 3) }
    ensures count { (V.seen v.new).count ≡ (V.seen v.old).count }
    ensures sound { V.sound v.new }
{
    v.store_run(Block(2), None, 0, words)?;
    Ok(())
}

/// A volume whose inode 1 has these words.
fn with_words(alloc: Global, words: &[u64; 16]) -> Result<ListVolume, Fail>
    requires kind { slice_index words.now 0 ≤ 3 }
    ensures sound { IfOk result ListSound }
    ensures count { IfOk result (λ v. (list_seen v).count ≡ 16) }
    ensures kind { IfOk result (λ v. inode_kind (list_seen v).words 1 ≤ 3) }
{
    let mut v = zeros(alloc, None)?;
    store_words(&mut v, words)?;
    Ok(v)
}

#[test]
fn high_halves_of_words_14_and_15_are_not_looked_at(rt: HostRuntime) -> Result<(), Fail> {
    let mut words = [0; 16];
    words[0] = 3;
    words[14] = (9 << 32) + 5;
    words[15] = (9 << 32) + 6;
    let mut v = with_words(rt.alloc(), &words)?;
    let inode = read_inode(&mut v, &SHAPE, Ino(1))?;
    let due = Inode {
        kind: 3,
        size: 0,
        direct: [0; 24],
        indirect: 5,
        double: 6,
    };
    same(&rt, "high halves", 0, &inode, &due);
    Ok(())
}

/// A volume whose first inodes are used, `used` of them.
fn with_used(alloc: Global, used: u32) -> Result<ListVolume, Fail>
    requires { used ≤ 64 }
    ensures sound { IfOk result ListSound }
    ensures count { IfOk result (λ v. (list_seen v).count ≡ 16) }
    ensures idle { IfOk result (λ v. (list_kept v).updating ≡ false) }
{
    let mut v = zeros(alloc, None)?;
    for i in 0..used {
        store(&mut v, Ino(1 + i), &numbered(1, 0))?;
    }
    Ok(v)
}

#[test]
fn the_first_free_inode_is_found(rt: HostRuntime) -> Result<(), Fail> {
    for used in 0..65 {
        let mut v = with_used(rt.alloc(), used)?;
        let due = if used < 64 { Some(Ino(used + 1)) } else { None };
        let least = least_free(&mut v, &SHAPE)?;
        let known = least_free_past_full(&mut v, &SHAPE, &mut FullBlocks::new())?;
        let mut asked = FaultyVolume::new(v, 0);
        let word_by_word = least_free(&mut asked, &SHAPE)?;
        same(
            &rt,
            "used inodes",
            used as usize,
            &(least, known, word_by_word),
            &(due, due, due),
        );
    }
    Ok(())
}

/// The least free inode, by what is known of full blocks.
fn least_known<V: Volume>(v: &mut V, full: &mut FullBlocks) -> Result<Option<Ino>, VolFail>
    requires sound { V.sound v.old }
    requires shape { HasShape SHAPE (V.seen v.old) }
    requires known { KnowsFull SHAPE full.old (V.seen v.old).words }
    ensures known { KnowsFull SHAPE full.new (V.seen v.new).words }
    ensures shape { HasShape SHAPE (V.seen v.new) }
    ensures count { (V.seen v.new).count ≡ (V.seen v.old).count }
    ensures idle { (V.kept v.new).updating ≡ (V.kept v.old).updating }
    ensures sound { V.sound v.new }
{
    least_free_past_full(v, &SHAPE, full)
}

#[test]
fn blocks_that_are_known_to_be_full_are_not_read(rt: HostRuntime) -> Result<(), Fail> {
    for used in 32..65 {
        let mut v = with_used(rt.alloc(), used)?;
        let mut full = FullBlocks::new();
        let first = least_known(&mut v, &mut full)?;
        // the second block is asked for by one word, and then looked at up to the free inode
        let reads = if used < 64 { used as u64 - 30 } else { 0 };
        let mut asked = FaultyVolume::new(v, reads + 1);
        let again = least_known(&mut asked, &mut full)?;
        let unknown = least_known(&mut asked, &mut FullBlocks::new());
        let due = if used < 64 { Some(Ino(used + 1)) } else { None };
        same(
            &rt,
            "known blocks",
            used as usize,
            &(first, again, unknown),
            &(due, due, Err(VolFail::Fault)),
        );
    }
    Ok(())
}

#[test]
fn an_inode_that_is_free_again_is_the_least(rt: HostRuntime) -> Result<(), Fail> {
    for freed in 1..65 {
        let mut v = with_used(rt.alloc(), 64)?;
        let mut full = FullBlocks::new();
        let none = least_known(&mut v, &mut full)?;
        store(&mut v, Ino(freed), &numbered(0, 0))?;
        full.freed(Ino(freed));
        let known = least_known(&mut v, &mut full)?;
        let least = least_free(&mut v, &SHAPE)?;
        let due = Some(Ino(freed));
        same(
            &rt,
            "freed inode",
            freed as usize,
            &(none, known, least),
            &(None, due, due),
        );
    }
    Ok(())
}

#[test]
fn each_word_that_is_read_may_fail(rt: HostRuntime) -> Result<(), Fail> {
    for n in 1..18 {
        let mut words = [0; 16];
        words[0] = 2;
        let mut v = FaultyVolume::new(with_words(rt.alloc(), &words)?, n);
        let failed = read_inode(&mut v, &SHAPE, Ino(1)) == Err(VolFail::Fault);
        same(&rt, "fault at word", n as usize, &failed, &(n <= 16));
    }
    // the block is asked for by one word, and then looked at word by word
    for n in 1..6 {
        let mut v = FaultyVolume::new(with_used(rt.alloc(), 2)?, n);
        let failed = least_free(&mut v, &SHAPE) == Err(VolFail::Fault);
        same(&rt, "fault at inode", n as usize, &failed, &(n <= 4));
    }
    Ok(())
}

#[test]
fn an_inode_is_stored_without_the_disk(rt: HostRuntime) -> Result<(), Fail> {
    let mut v = FaultyVolume::new(zeros(rt.alloc(), None)?, 2);
    store(&mut v, Ino(5), &numbered(2, 1))?;
    let next = least_free(&mut v, &SHAPE);
    same(&rt, "the next call fails", 0, &next, &Err(VolFail::Fault));
    let mut v = FaultyVolume::new(zeros(rt.alloc(), None)?, 1);
    let stored = store(&mut v, Ino(5), &numbered(2, 1));
    same(&rt, "the touch fails", 0, &stored, &Err(VolFail::Fault));
    Ok(())
}

#[test]
fn a_stopped_update_leaves_no_word_of_an_inode(rt: HostRuntime) -> Result<(), Fail> {
    // begin, touch, 16 words and commit are 19 steps
    for steps in 0..20 {
        let mut v = zeros(rt.alloc(), Some(steps as u64))?;
        let ended = store(&mut v, Ino(3), &numbered(2, 10));
        let stands = [v.standing(Block(2), 32), v.standing(Block(2), 47)];
        let due = if steps < 19 {
            (Err(VolFail::Stopped), [0, 0])
        } else {
            (Ok(()), [2, 7])
        };
        same(&rt, "steps", steps, &(ended, stands), &due);
    }
    let mut v = zeros(rt.alloc(), Some(0))?;
    let begun = v.begin();
    let least = least_free(&mut v, &SHAPE);
    same(
        &rt,
        "stopped",
        0,
        &(begun, least),
        &(Err(Stopped), Err(VolFail::Stopped)),
    );
    Ok(())
}
