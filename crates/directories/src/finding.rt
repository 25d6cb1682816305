//! A name of a directory, looked up.

ghost use Rattle.std.specs.Prelude.{◌≡◌, ◌≢◌, ◌*◌, ◌<◌, ◌≤◌, ℕ, None, length, slice_index, IfOk, IfSome};
ghost use Rattle.rio_base.specs.Frames.{CanRead, ReadBy};
ghost use Rattle.rio_base.specs.Blocks.{CanName, Caches, Looks};
ghost use Rattle.rio_base.specs.NodeKinds.{dir_kind};
ghost use Rattle.rio_model.specs.Held.{held_of};
ghost use Rattle.rio_model.specs.VolumeReady.{LooksNamed};
ghost use Rattle.inode_table.specs.Inodes.{IsInode};
ghost use Rattle.node_pages.specs.LookingUp.{LooksUp};
ghost use Rattle.directories.specs.Reading.{CanReadDir, FindsIn, FindsInPage, CanReadRows};
ghost use Rattle.directories.specs.Entries.{IsKey, name_in};
ghost use Rattle.directories.specs.Rows.{Finds, IsEntry};

use crate::entries::{
    ENTRY_BYTES, ENTRY_WORDS, NAME_BYTES, NameKey, PAGE_ENTRIES, entry_ino, has_name,
    may_have_name, passes_four,
};
use crate::pages::{dir_inode, entries_in_page, page_block, read_entry};
use inode_table::Inode;
use rio_base::{Block, Blocks, Ino, VolFail, VolumeShape};

/// The entry up to which those from `from` on are passed over by fours, none of which has the name. There are `count` in these words.
fn past_fours(words: &[u64], from: usize, count: usize, name: &[u8], key: &NameKey) -> usize
    requires len { length words.now ≡ 512 }
    requires few { count ≤ 64 }
    requires from { from ≤ count }
    requires key { IsKey name.now key.now }
    ensures low { from ≤ result }
    ensures high { result ≤ count }
    ensures none { (j : ℕ) → from ≤ j → j < result → name_in (slice_index words.now) j ≢ name.now }
{
    let mut k = from;
    while 4 <= count - k {
        if !passes_four(words, k, name, key) {
            return k;
        }
        k += 4;
    }
    k
}

/// The first of the `count` entries in these words that has the name.
fn find_in(words: &[u64], count: usize, name: &[u8], key: &NameKey) -> Option<(Ino, u32)>
    requires len { length words.now ≡ 512 }
    requires few { count ≤ 64 }
    requires key { IsKey name.now key.now }
    ensures { FindsIn (slice_index words.now) count name.now result }
{
    let mut from = 0;
    while from < count {
        let k = past_fours(words, from, count, name, key);
        if k == count {
            return None;
        }
        if may_have_name(words, k, name, key) {
            if has_name(words, k, name, key) {
                return Some((entry_ino(words[ENTRY_WORDS * k]), k as u32));
            }
        }
        from = k + 1;
    }
    None
}

/// The first of the `count` entries in a block that has the name. The block is not lent, so its words are copied.
fn find_in_copy<V: Blocks>(
    v: &mut V,
    b: Block,
    count: usize,
    name: &[u8],
    key: &NameKey,
) -> Result<Option<(Ino, u32)>, VolFail>
    requires sound { V.sound v.old }
    requires block { b.0 < (V.seen v.old).count }
    requires can_name { CanName (V.seen v.old) b.0 None }
    requires few { count ≤ 64 }
    requires key { IsKey name.now key.now }
    ensures value { IfOk result (FindsIn ((V.seen v.old).words b.0) count name.now) }
    ensures read { ReadBy V.seen V.health V.sound V.passes Looks v.old v.new result }
    ensures caches { Caches (V.seen v.old) (V.seen v.new) b.0 None }
{
    let mut words = [0; 512];
    v.read_run(b, None, 0, &mut words)?;
    Ok(find_in(&words, count, name, key))
}

/// The first of the `count` entries in a block that has the name. The block is asked for first, so that it is fetched where it is
/// not cached, and counts as used.
fn find_in_block<V: Blocks>(
    v: &mut V,
    b: Block,
    count: usize,
    name: &[u8],
    key: &NameKey,
) -> Result<Option<(Ino, u32)>, VolFail>
    requires sound { V.sound v.old }
    requires block { b.0 < (V.seen v.old).count }
    requires can_name { CanName (V.seen v.old) b.0 None }
    requires few { count ≤ 64 }
    requires key { IsKey name.now key.now }
    ensures value { IfOk result (FindsIn ((V.seen v.old).words b.0) count name.now) }
    ensures read { ReadBy V.seen V.health V.sound V.passes Looks v.old v.new result }
    ensures caches { Caches (V.seen v.old) (V.seen v.new) b.0 None }
{
    v.word(b, None, 0)?;
    if let Some(words) = v.page(b) {
        return Ok(find_in(words, count, name, key));
    }
    find_in_copy(v, b, count, name, key)
}

/// The first entry of page `p` of a directory that has the name.
fn find_in_page<V: Blocks>(
    v: &mut V,
    shape: &VolumeShape,
    dir: Ino,
    inode: &Inode,
    p: u32,
    name: &[u8],
    key: &NameKey,
) -> Result<Option<(Ino, u32)>, VolFail>
    requires can { CanRead V.seen V.sound (λ x. CanReadDir shape.now x dir.0) v.old }
    requires inode { IsInode (V.seen v.old).words dir.0 inode.now }
    requires page { 4096 * p < inode.now.size }
    requires key { IsKey name.now key.now }
    ensures value { IfOk result (FindsInPage (held_of shape.now (V.seen v.old).words dir.0) p name.now) }
    ensures read { ReadBy V.seen V.health V.sound V.passes (LooksUp shape.now) v.old v.new result }
    ensures can { CanReadDir shape.now (V.seen v.new) dir.0 }
{
    let b = page_block(v, shape, dir, inode, p)?;
    let count = entries_in_page(inode.size, p);
    find_in_block(v, b, count, name, key)
}

/// The first entry of a directory that has the name, with its slot in the directory. Its pages are looked through in order.
fn find_in_pages<V: Blocks>(
    v: &mut V,
    shape: &VolumeShape,
    dir: Ino,
    inode: &Inode,
    name: &[u8],
    key: &NameKey,
) -> Result<Option<(Ino, u32)>, VolFail>
    requires can { CanRead V.seen V.sound (λ x. CanReadDir shape.now x dir.0) v.old }
    requires inode { IsInode (V.seen v.old).words dir.0 inode.now }
    requires key { IsKey name.now key.now }
    ensures value { IfOk result (Finds (held_of shape.now (V.seen v.old).words dir.0) name.now) }
    ensures read { ReadBy V.seen V.health V.sound V.passes (LooksUp shape.now) v.old v.new result }
{
    let pages = inode.size.div_ceil(4096) as u32;
    for p in 0..pages {
        if let Some((i, k)) = find_in_page(v, shape, dir, inode, p, name, key)? {
            return Ok(Some((i, PAGE_ENTRIES * p + k)));
        }
    }
    Ok(None)
}

/// What a name of a directory, which has this inode, names, and the slot of its entry; `None` exactly where the directory has
/// no such name. Any bytes may be asked for. `Fault` and `Stopped` are those of reading the directory.
pub fn find_at_inode<V: Blocks>(
    v: &mut V,
    shape: &VolumeShape,
    dir: Ino,
    inode: &Inode,
    name: &[u8],
) -> Result<Option<(Ino, u32)>, VolFail>
    requires can { CanRead V.seen V.sound (CanReadRows shape.now) v.old }
    requires dir { (held_of shape.now (V.seen v.old).words dir.0).kind ≡ dir_kind }
    requires inode { IsInode (V.seen v.old).words dir.0 inode.now }
    ensures value { IfOk result (Finds (held_of shape.now (V.seen v.old).words dir.0) name.now) }
    ensures read { ReadBy V.seen V.health V.sound V.passes (LooksNamed shape.now) v.old v.new result }
{
    if name.is_empty() {
        return Ok(None);
    }
    if name.len() > NAME_BYTES {
        return Ok(None);
    }
    let key = NameKey::new(name);
    find_in_pages(v, shape, dir, inode, name, &key)
}

/// What a name of a directory names, and the slot of its entry; `None` exactly where the directory has no such name. Its inode is
/// read first. Any bytes may be asked for. `Fault` and `Stopped` are those of reading the directory.
pub fn find<V: Blocks>(
    v: &mut V,
    shape: &VolumeShape,
    dir: Ino,
    name: &[u8],
) -> Result<Option<(Ino, u32)>, VolFail>
    requires can { CanRead V.seen V.sound (CanReadRows shape.now) v.old }
    requires dir { (held_of shape.now (V.seen v.old).words dir.0).kind ≡ dir_kind }
    ensures value { IfOk result (Finds (held_of shape.now (V.seen v.old).words dir.0) name.now) }
    ensures read { ReadBy V.seen V.health V.sound V.passes (LooksNamed shape.now) v.old v.new result }
{
    let inode = dir_inode(v, shape, dir)?;
    find_at_inode(v, shape, dir, &inode, name)
}

/// What the entry in slot `slot` of a directory, which has this inode, names, where it has this name; `None` where it has another
/// one, and where the directory has no such slot. It reads that entry alone. `Fault` and `Stopped` are those of reading it.
pub fn row_at<V: Blocks>(
    v: &mut V,
    shape: &VolumeShape,
    dir: Ino,
    inode: &Inode,
    slot: u32,
    name: &[u8],
) -> Result<Option<Ino>, VolFail>
    requires can { CanRead V.seen V.sound (CanReadRows shape.now) v.old }
    requires dir { (held_of shape.now (V.seen v.old).words dir.0).kind ≡ dir_kind }
    requires inode { IsInode (V.seen v.old).words dir.0 inode.now }
    ensures value { IfOk result (λ found. IfSome found (λ i. IsEntry (held_of shape.now (V.seen v.old).words dir.0) slot name.now i.0)) }
    ensures none { IfOk result (λ found. found ≡ None → (i : ℕ) → IsEntry (held_of shape.now (V.seen v.old).words dir.0) slot name.now i → ⊥) }
    ensures read { ReadBy V.seen V.health V.sound V.passes (LooksNamed shape.now) v.old v.new result }
{
    if name.is_empty() {
        return Ok(None);
    }
    if name.len() > NAME_BYTES {
        return Ok(None);
    }
    if slot as u64 >= inode.size / ENTRY_BYTES {
        return Ok(None);
    }
    let entry = read_entry(v, shape, dir, inode, slot)?;
    if !has_name(&entry, 0, name, &NameKey::new(name)) {
        return Ok(None);
    }
    Ok(Some(entry_ino(entry[0])))
}
