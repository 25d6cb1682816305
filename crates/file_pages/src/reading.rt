//! Bytes of a file, read.

ghost use Rattle.std.specs.Prelude.{◌≡◌, ◌+◌, ◌-◌, ◌*◌, ◌/◌, ◌%◌, ◌<◌, ◌≤◌, ◌++◌, length, map, slice_index, take, drop, IfOk, OnOk, IsErrOf};
ghost use Rattle.std.specs.List.{range_with_len};
ghost use Rattle.rio_base.specs.Blocks.{CanName, Caches, EndsBy, Looks};
ghost use Rattle.rio_base.specs.Layout.{IsIno};
ghost use Rattle.rio_base.specs.Shapes.{HasShape};
ghost use Rattle.rio_model.specs.Held.{byte_of, bytes_in, held, held_of};
ghost use Rattle.rio_model.specs.Placed.{AtPage, Owns, placed_at, volume_layout};
ghost use Rattle.rio_model.specs.Sizes.{largest_size};
ghost use Rattle.rio_model.specs.VolumeReady.{AllNamed};
ghost use Rattle.rio_model.specs.VolumeRules.{IsMapped};
ghost use Rattle.block_alloc.specs.Bitmap.{numbers};
ghost use Rattle.inode_table.specs.Inodes.{IsInode};
ghost use Rattle.node_pages.specs.LookingUp.{LooksUp, page_blocks};
ghost use Rattle.rio_base.specs.Bytes.{bytes_of};
ghost use Rattle.rio_base.specs.NodeKinds.{file_kind};
ghost use Rattle.file_pages.specs.Files.{file_bytes};
ghost use Rattle.file_pages.specs.PageBytes.{block_byte};

use byteorder::{ByteOrder, LittleEndian};
use inode_table::Inode;
use node_pages::{bytes_in_page, look_inode, only_direct, page_blocks};
use rio_base::{Block, Blocks, Ino, Octets, PAGE_BYTES, PageName, ReadFail, VolumeShape};
use std::alloc::{AllocError, Global};

/// Bytes that are made of words at once.
const LINE_BYTES: usize = 1024;

/// The words that they are made of.
const LINE_WORDS: usize = 128;

/// Makes the bytes of words.
fn whole_bytes(words: &[u64], out: &mut [u8])
    requires { length out.old ≡ 8 * length words.now }
    ensures { out.new ≡ bytes_of words.now }
{
    LittleEndian::write_u64_into(words, out);
}

/// Adds bytes `from` to `to` of the words of a line.
fn push_line(out: &mut Vec<u8>, words: &[u64], from: usize, to: usize) -> Result<(), AllocError>
    requires few { length words.now ≤ 128 }
    requires order { from ≤ to }
    requires within { to ≤ 8 * length words.now }
    ensures { OnOk result (out.new.items ≡ out.old.items ++ map (λ y. byte_of (slice_index words.now (y / 8)) (y % 8)) (range_with_len from (to - from))) }
{
    let mut line = [0; LINE_BYTES];
    let bytes = &mut line[..8 * words.len()];
    whole_bytes(words, bytes);
    out.extend_from_slice(&bytes[from..to])?;
    Ok(())
}

/// Adds bytes `from` to `to` of words.
fn push_bytes(out: &mut Vec<u8>, words: &[u64], from: usize, to: usize) -> Result<(), AllocError>
    requires order { from ≤ to }
    requires within { to ≤ 8 * length words.now }
    ensures { OnOk result (out.new.items ≡ out.old.items ++ map (λ y. byte_of (slice_index words.now (y / 8)) (y % 8)) (range_with_len from (to - from))) }
{
    let mut at = from;
    while at < to {
        let first = at / 8;
        let last = to.div_ceil(8).min(first + LINE_WORDS);
        let end = to.min(8 * last);
        push_line(out, &words[first..last], at - 8 * first, end - 8 * first)?;
        at = end;
    }
    Ok(())
}

/// Adds bytes `from` to `to` of a page that is not lent.
fn push_copy<V: Blocks>(
    v: &mut V,
    b: Block,
    name: Option<PageName>,
    from: usize,
    to: usize,
    out: &mut Vec<u8>,
) -> Result<(), ReadFail>
    requires sound { V.sound v.old }
    requires block { b.0 < (V.seen v.old).count }
    requires name { CanName (V.seen v.old) b.0 name }
    requires order { from ≤ to }
    requires within { to ≤ 4096 }
    ensures bytes { OnOk result (out.new.items ≡ out.old.items ++ map (block_byte (V.seen v.old).words b.0) (range_with_len from (to - from))) }
    ensures looks { Looks (V.seen v.old) (V.seen v.new) }
    ensures caches { Caches (V.seen v.old) (V.seen v.new) b.0 name }
    ensures passes { V.passes v.old v.new }
    ensures ends { EndsBy (V.health v.old) (V.health v.new) (IsErrOf result ReadFail.Fault) (IsErrOf result ReadFail.Stopped) }
    ensures sound { V.sound v.new }
{
    let mut words = [0; 512];
    v.read_run(b, name, 0, &mut words)?;
    push_bytes(out, &words, from, to)?;
    Ok(())
}

/// Adds bytes `from` to `to` of a page. It is asked for by its name first, so that it is fetched where it is not cached, and
/// counts as used.
fn push_piece<V: Blocks>(
    v: &mut V,
    b: Block,
    name: Option<PageName>,
    from: usize,
    to: usize,
    out: &mut Vec<u8>,
) -> Result<(), ReadFail>
    requires sound { V.sound v.old }
    requires block { b.0 < (V.seen v.old).count }
    requires name { CanName (V.seen v.old) b.0 name }
    requires order { from ≤ to }
    requires within { to ≤ 4096 }
    ensures bytes { OnOk result (out.new.items ≡ out.old.items ++ map (block_byte (V.seen v.old).words b.0) (range_with_len from (to - from))) }
    ensures looks { Looks (V.seen v.old) (V.seen v.new) }
    ensures caches { Caches (V.seen v.old) (V.seen v.new) b.0 name }
    ensures passes { V.passes v.old v.new }
    ensures ends { EndsBy (V.health v.old) (V.health v.new) (IsErrOf result ReadFail.Fault) (IsErrOf result ReadFail.Stopped) }
    ensures sound { V.sound v.new }
{
    v.word(b, name, 0)?;
    if let Some(words) = v.page(b) {
        push_bytes(out, words, from, to)?;
        return Ok(());
    }
    push_copy(v, b, name, from, to, out)
}

/// Adds bytes `from` to `to` of page `p` of file `i`, which is block `b`.
fn push_page<V: Blocks>(
    v: &mut V,
    shape: &VolumeShape,
    i: Ino,
    size: u64,
    p: u32,
    b: Block,
    from: usize,
    to: usize,
    out: &mut Vec<u8>,
) -> Result<(), ReadFail>
    requires sound { V.sound v.old }
    requires shape { HasShape shape.now (V.seen v.old) }
    requires mapped { IsMapped shape.now (V.seen v.old).words }
    requires named { AllNamed (volume_layout shape.now (V.seen v.old).words) (V.seen v.old) }
    requires owns { Owns (volume_layout shape.now (V.seen v.old).words) i.0 (AtPage p) }
    requires block { b.0 ≡ (placed_at (V.seen v.old).words i.0).block (AtPage p) }
    requires file { (placed_at (V.seen v.old).words i.0).kind ≡ file_kind }
    requires size { (placed_at (V.seen v.old).words i.0).size ≡ size }
    requires order { from ≤ to }
    requires page { to ≤ 4096 }
    requires within { 4096 * p + to ≤ size }
    ensures value { OnOk result (out.new.items ≡ out.old.items ++ bytes_in (held (V.seen v.old).words (placed_at (V.seen v.old).words i.0)).word (4096 * p + from) (to - from)) }
    ensures looks { LooksUp shape.now (V.seen v.old) (V.seen v.new) }
    ensures passes { V.passes v.old v.new }
    ensures ends { EndsBy (V.health v.old) (V.health v.new) (IsErrOf result ReadFail.Fault) (IsErrOf result ReadFail.Stopped) }
    ensures sound { V.sound v.new }
{
    let size = bytes_in_page(size, p);
    let name = Some(PageName {
        file: i,
        index: p,
        size,
    });
    push_piece(v, b, name, from, to, out)
}

/// Adds bytes `off` to `end` of file `i`. These blocks are its pages from the one with byte `off` on.
#[tactic(auto, using(node_pages::proofs::LookingUpRules::can_look_up, node_pages::proofs::LookingUpRules::look_refl))]
fn push_pages<V: Blocks>(
    v: &mut V,
    shape: &VolumeShape,
    i: Ino,
    size: u64,
    blocks: &[Block],
    off: u64,
    end: u64,
    out: &mut Vec<u8>,
) -> Result<(), ReadFail>
    requires sound { V.sound v.old }
    requires shape { HasShape shape.now (V.seen v.old) }
    requires mapped { IsMapped shape.now (V.seen v.old).words }
    requires named { AllNamed (volume_layout shape.now (V.seen v.old).words) (V.seen v.old) }
    requires ino { IsIno shape.now i.0 }
    requires file { (placed_at (V.seen v.old).words i.0).kind ≡ file_kind }
    requires size { (placed_at (V.seen v.old).words i.0).size ≡ size }
    requires most { size ≤ largest_size }
    requires order { off ≤ end }
    requires within { end ≤ size }
    requires blocks { numbers blocks.now ≡ page_blocks (placed_at (V.seen v.old).words i.0) (off / 4096) (length blocks.now) }
    requires all { end ≤ 4096 * (off / 4096 + length blocks.now) }
    ensures value { OnOk result (out.new.items ≡ out.old.items ++ bytes_in (held (V.seen v.old).words (placed_at (V.seen v.old).words i.0)).word off (end - off)) }
    ensures looks { LooksUp shape.now (V.seen v.old) (V.seen v.new) }
    ensures passes { V.passes v.old v.new }
    ensures ends { EndsBy (V.health v.old) (V.health v.new) (IsErrOf result ReadFail.Fault) (IsErrOf result ReadFail.Stopped) }
    ensures sound { V.sound v.new }
{
    let first = (off / PAGE_BYTES) as u32;
    let mut at = off;
    while at < end {
        let p = (at / PAGE_BYTES) as u32;
        let start = PAGE_BYTES * p as u64;
        let to = end.min(start + PAGE_BYTES);
        let b = blocks[(p - first) as usize];
        let from = (at - start) as usize;
        push_page(v, shape, i, size, p, b, from, (to - start) as usize, out)?;
        at = to;
    }
    Ok(())
}

/// Bytes `off` to `end` of file `i`, which has `size` bytes. They lie within page `p` of it, which is block `b`.
fn read_in_page<V: Blocks>(
    alloc: Global,
    v: &mut V,
    shape: &VolumeShape,
    i: Ino,
    size: u64,
    p: u32,
    b: Block,
    off: u64,
    end: u64,
) -> Result<Octets, ReadFail>
    requires sound { V.sound v.old }
    requires shape { HasShape shape.now (V.seen v.old) }
    requires mapped { IsMapped shape.now (V.seen v.old).words }
    requires named { AllNamed (volume_layout shape.now (V.seen v.old).words) (V.seen v.old) }
    requires owns { Owns (volume_layout shape.now (V.seen v.old).words) i.0 (AtPage p) }
    requires block { b.0 ≡ (placed_at (V.seen v.old).words i.0).block (AtPage p) }
    requires file { (placed_at (V.seen v.old).words i.0).kind ≡ file_kind }
    requires size { (placed_at (V.seen v.old).words i.0).size ≡ size }
    requires order { off ≤ end }
    requires from { 4096 * p ≤ off }
    requires to { end ≤ 4096 * p + 4096 }
    requires within { end ≤ size }
    ensures value { IfOk result (λ bytes. bytes ≡ bytes_in (held (V.seen v.old).words (placed_at (V.seen v.old).words i.0)).word off (end - off)) }
    ensures looks { LooksUp shape.now (V.seen v.old) (V.seen v.new) }
    ensures passes { V.passes v.old v.new }
    ensures ends { EndsBy (V.health v.old) (V.health v.new) (IsErrOf result ReadFail.Fault) (IsErrOf result ReadFail.Stopped) }
    ensures sound { V.sound v.new }
{
    let mut out = Vec::with_capacity(alloc, (end - off) as usize)?;
    let start = PAGE_BYTES * p as u64;
    push_page(
        v,
        shape,
        i,
        size,
        p,
        b,
        (off - start) as usize,
        (end - start) as usize,
        &mut out,
    )?;
    Ok(Octets::from(out))
}

/// Bytes `off` to `end` of file `i`, which has this inode.
fn read_bytes<V: Blocks>(
    alloc: Global,
    v: &mut V,
    shape: &VolumeShape,
    i: Ino,
    inode: &Inode,
    off: u64,
    end: u64,
) -> Result<Octets, ReadFail>
    requires sound { V.sound v.old }
    requires shape { HasShape shape.now (V.seen v.old) }
    requires mapped { IsMapped shape.now (V.seen v.old).words }
    requires named { AllNamed (volume_layout shape.now (V.seen v.old).words) (V.seen v.old) }
    requires ino { IsIno shape.now i.0 }
    requires inode { IsInode (V.seen v.old).words i.0 inode.now }
    requires file { (placed_at (V.seen v.old).words i.0).kind ≡ file_kind }
    requires within { end ≤ inode.now.size }
    requires most { inode.now.size ≤ largest_size }
    ensures value { IfOk result (λ bytes. bytes ≡ bytes_in (held (V.seen v.old).words (placed_at (V.seen v.old).words i.0)).word off (end - off)) }
    ensures looks { LooksUp shape.now (V.seen v.old) (V.seen v.new) }
    ensures passes { V.passes v.old v.new }
    ensures ends { EndsBy (V.health v.old) (V.health v.new) (IsErrOf result ReadFail.Fault) (IsErrOf result ReadFail.Stopped) }
    ensures sound { V.sound v.new }
{
    if off >= end {
        return Ok(Octets::from(Vec::new(alloc)));
    }
    let first = (off / PAGE_BYTES) as u32;
    let last = end.div_ceil(PAGE_BYTES) as u32;
    if let Some(b) = only_direct(inode, first, last) {
        return read_in_page(alloc, v, shape, i, inode.size, first, b, off, end);
    }
    let mut out = Vec::with_capacity(alloc, (end - off) as usize)?;
    let blocks = page_blocks(alloc, v, shape, i, inode, first, last)?;
    push_pages(v, shape, i, inode.size, &blocks, off, end, &mut out)?;
    Ok(Octets::from(out))
}

/// Bytes of file `i`, which has this inode, from `off` on: `len` of them, or as many as it has.
pub fn read_at_inode<V: Blocks>(
    alloc: Global,
    v: &mut V,
    shape: &VolumeShape,
    i: Ino,
    inode: &Inode,
    off: u64,
    len: u64,
) -> Result<Octets, ReadFail>
    requires sound { V.sound v.old }
    requires shape { HasShape shape.now (V.seen v.old) }
    requires mapped { IsMapped shape.now (V.seen v.old).words }
    requires named { AllNamed (volume_layout shape.now (V.seen v.old).words) (V.seen v.old) }
    requires file { (held_of shape.now (V.seen v.old).words i.0).kind ≡ file_kind }
    requires inode { IsInode (V.seen v.old).words i.0 inode.now }
    ensures value { IfOk result (λ bytes. bytes ≡ take len (drop off (file_bytes shape.now (V.seen v.old).words i.0))) }
    ensures looks { Looks (V.seen v.old) (V.seen v.new) }
    ensures shape { HasShape shape.now (V.seen v.new) }
    ensures named { AllNamed (volume_layout shape.now (V.seen v.old).words) (V.seen v.new) }
    ensures passes { V.passes v.old v.new }
    ensures ends { EndsBy (V.health v.old) (V.health v.new) (IsErrOf result ReadFail.Fault) (IsErrOf result ReadFail.Stopped) }
    ensures sound { V.sound v.new }
{
    let end = off.saturating_add(len).min(inode.size);
    read_bytes(alloc, v, shape, i, inode, off, end)
}

/// Bytes of file `i`, whose inode is read first, from `off` on: `len` of them, or as many as it has.
pub fn read<V: Blocks>(
    alloc: Global,
    v: &mut V,
    shape: &VolumeShape,
    i: Ino,
    off: u64,
    len: u64,
) -> Result<Octets, ReadFail>
    requires sound { V.sound v.old }
    requires shape { HasShape shape.now (V.seen v.old) }
    requires mapped { IsMapped shape.now (V.seen v.old).words }
    requires named { AllNamed (volume_layout shape.now (V.seen v.old).words) (V.seen v.old) }
    requires file { (held_of shape.now (V.seen v.old).words i.0).kind ≡ file_kind }
    ensures value { IfOk result (λ bytes. bytes ≡ take len (drop off (file_bytes shape.now (V.seen v.old).words i.0))) }
    ensures looks { Looks (V.seen v.old) (V.seen v.new) }
    ensures shape { HasShape shape.now (V.seen v.new) }
    ensures named { AllNamed (volume_layout shape.now (V.seen v.old).words) (V.seen v.new) }
    ensures passes { V.passes v.old v.new }
    ensures ends { EndsBy (V.health v.old) (V.health v.new) (IsErrOf result ReadFail.Fault) (IsErrOf result ReadFail.Stopped) }
    ensures sound { V.sound v.new }
{
    let inode = look_inode(v, shape, i)?;
    read_at_inode(alloc, v, shape, i, &inode, off, len)
}
