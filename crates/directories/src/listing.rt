//! The names of a directory.

ghost use Rattle.std.specs.Prelude.{◌≡◌, ◌-◌, ◌*◌, ◌/◌, ◌%◌, ◌^◌, ◌<◌, ◌≤◌, [], ◌∷◌, ◌++◌, ℕ, None, length, map, min, slice_index, IfOk, OnOk};
ghost use Rattle.std.specs.List.{range_with_len};
ghost use Rattle.rio_base.specs.Frames.{CanRead, FilledBy};
ghost use Rattle.rio_base.specs.Blocks.{CanName, Caches, Looks};
ghost use Rattle.rio_model.specs.Held.{entry_name, held_of};
ghost use Rattle.rio_model.specs.VolumeReady.{LooksNamed};
ghost use Rattle.inode_table.specs.Inodes.{IsInode};
ghost use Rattle.node_pages.specs.LookingUp.{LooksUp};
ghost use Rattle.rio_base.specs.Bytes.{bytes_of};
ghost use Rattle.rio_base.specs.NodeKinds.{dir_kind};
ghost use Rattle.directories.specs.Entries.{name_in};
ghost use Rattle.directories.specs.Reading.{CanReadDir, CanReadRows};
ghost use Rattle.directories.specs.Rows.{ListsNames};

use crate::entries::{ENTRY_BYTES, ENTRY_WORDS, name_length};
use crate::pages::{dir_inode, entries_in_page, page_block};
use byteorder::{ByteOrder, LittleEndian};
use inode_table::Inode;
use name_list::{LINE_BYTES, NameList};
use rio_base::{Block, Blocks, Ino, ReadFail, VolumeShape};
use std::alloc::{AllocError, Global};

/// Makes the bytes of words.
pub fn write_bytes(words: &[u64], line: &mut [u8])
    requires { length line.old ≡ 8 * length words.now }
    ensures { line.new ≡ bytes_of words.now }
{
    LittleEndian::write_u64_into(words, line);
}

/// Adds the name of entry `k` of a page.
fn push_name(words: &[u64], k: usize, names: &mut NameList) -> Result<(), AllocError>
    requires len { length words.now ≡ 512 }
    requires entry { k < 64 }
    requires few { slice_index words.now (8 * k) / 2 ^ 32 % 2 ^ 8 ≤ 56 }
    ensures { OnOk result (names.new ≡ names.old ++ name_in (slice_index words.now) k ∷ []) }
{
    let at = ENTRY_WORDS * k;
    let len = name_length(words[at]);
    let mut line = [0; LINE_BYTES];
    write_bytes(&words[at + 1..at + ENTRY_WORDS], &mut line);
    names.push_line(&line, len)
}

/// Adds the names of the first `count` entries of a page.
fn push_names(words: &[u64], count: usize, names: &mut NameList) -> Result<(), AllocError>
    requires len { length words.now ≡ 512 }
    requires few { count ≤ 64 }
    requires short { (k : ℕ) → k < count → slice_index words.now (8 * k) / 2 ^ 32 % 2 ^ 8 ≤ 56 }
    ensures { OnOk result (names.new ≡ names.old ++ map (name_in (slice_index words.now)) (range_with_len 0 count)) }
{
    for k in 0..count {
        push_name(words, k, names)?;
    }
    Ok(())
}

/// Adds the names of the first `count` entries of a block. The block is not lent, so its words are copied.
fn push_copied_names<V: Blocks>(
    v: &mut V,
    b: Block,
    count: usize,
    names: &mut NameList,
) -> Result<(), ReadFail>
    requires sound { V.sound v.old }
    requires block { b.0 < (V.seen v.old).count }
    requires can_name { CanName (V.seen v.old) b.0 None }
    requires few { count ≤ 64 }
    requires short { (k : ℕ) → k < count → (V.seen v.old).words b.0 (8 * k) / 2 ^ 32 % 2 ^ 8 ≤ 56 }
    ensures value { OnOk result (names.new ≡ names.old ++ map (name_in ((V.seen v.old).words b.0)) (range_with_len 0 count)) }
    ensures read { FilledBy V.seen V.health V.sound V.passes Looks v.old v.new result }
    ensures caches { Caches (V.seen v.old) (V.seen v.new) b.0 None }
{
    let mut words = [0; 512];
    v.read_run(b, None, 0, &mut words)?;
    push_names(&words, count, names)?;
    Ok(())
}

/// Adds the names of the first `count` entries of a block. The block is asked for first, so that it is fetched where it is not
/// cached, and counts as used.
fn push_block_names<V: Blocks>(
    v: &mut V,
    b: Block,
    count: usize,
    names: &mut NameList,
) -> Result<(), ReadFail>
    requires sound { V.sound v.old }
    requires block { b.0 < (V.seen v.old).count }
    requires can_name { CanName (V.seen v.old) b.0 None }
    requires few { count ≤ 64 }
    requires short { (k : ℕ) → k < count → (V.seen v.old).words b.0 (8 * k) / 2 ^ 32 % 2 ^ 8 ≤ 56 }
    ensures value { OnOk result (names.new ≡ names.old ++ map (name_in ((V.seen v.old).words b.0)) (range_with_len 0 count)) }
    ensures read { FilledBy V.seen V.health V.sound V.passes Looks v.old v.new result }
    ensures caches { Caches (V.seen v.old) (V.seen v.new) b.0 None }
{
    v.word(b, None, 0)?;
    if let Some(words) = v.page(b) {
        push_names(words, count, names)?;
        return Ok(());
    }
    push_copied_names(v, b, count, names)
}

/// Adds the names of page `p` of a directory, which has this inode.
fn push_page_names<V: Blocks>(
    v: &mut V,
    shape: &VolumeShape,
    dir: Ino,
    inode: &Inode,
    p: u32,
    names: &mut NameList,
) -> Result<(), ReadFail>
    requires can { CanRead V.seen V.sound (λ x. CanReadDir shape.now x dir.0) v.old }
    requires inode { IsInode (V.seen v.old).words dir.0 inode.now }
    requires page { 4096 * p < inode.now.size }
    ensures value { OnOk result (names.new ≡ names.old ++ map (entry_name (held_of shape.now (V.seen v.old).words dir.0)) (range_with_len (64 * p) (min (inode.now.size / 64 - 64 * p) 64))) }
    ensures read { FilledBy V.seen V.health V.sound V.passes (LooksUp shape.now) v.old v.new result }
    ensures can { CanReadDir shape.now (V.seen v.new) dir.0 }
{
    let b = page_block(v, shape, dir, inode, p)?;
    let count = entries_in_page(inode.size, p);
    push_block_names(v, b, count, names)
}

/// The names of all slots of a directory, which has this inode, in the order of the slots.
fn slot_names<V: Blocks>(
    alloc: Global,
    v: &mut V,
    shape: &VolumeShape,
    dir: Ino,
    inode: &Inode,
) -> Result<NameList, ReadFail>
    requires can { CanRead V.seen V.sound (λ x. CanReadDir shape.now x dir.0) v.old }
    requires inode { IsInode (V.seen v.old).words dir.0 inode.now }
    ensures value { IfOk result (λ names. names ≡ map (entry_name (held_of shape.now (V.seen v.old).words dir.0)) (range_with_len 0 (inode.now.size / 64))) }
    ensures read { FilledBy V.seen V.health V.sound V.passes (LooksUp shape.now) v.old v.new result }
{
    let mut names = NameList::with_capacity(alloc, (inode.size / ENTRY_BYTES) as usize)?;
    let pages = inode.size.div_ceil(4096) as u32;
    for p in 0..pages {
        push_page_names(v, shape, dir, inode, p, &mut names)?;
    }
    Ok(names)
}

/// All names of a directory, in byte order.
pub fn names<V: Blocks>(
    alloc: Global,
    v: &mut V,
    shape: &VolumeShape,
    dir: Ino,
) -> Result<NameList, ReadFail>
    requires can { CanRead V.seen V.sound (CanReadRows shape.now) v.old }
    requires dir { (held_of shape.now (V.seen v.old).words dir.0).kind ≡ dir_kind }
    ensures value { IfOk result (ListsNames (held_of shape.now (V.seen v.old).words dir.0)) }
    ensures read { FilledBy V.seen V.health V.sound V.passes (LooksNamed shape.now) v.old v.new result }
{
    let inode = dir_inode(v, shape, dir)?;
    let mut names = slot_names(alloc, v, shape, dir, &inode)?;
    names.sort();
    Ok(names)
}
