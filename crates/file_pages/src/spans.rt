//! Bytes stored over a run of pages of a file, in rising order.

ghost use Rattle.std.specs.Prelude.{◌≡◌, ◌+◌, ◌-◌, ◌*◌, ◌/◌, ◌<◌, ◌≤◌, ℕ, min, false, length, slice_index, IfOk, OnOk, IsErrOf};
ghost use Rattle.std.specs.List.{Contains};
ghost use Rattle.rio_base.specs.Blocks.{EndsBy};
ghost use Rattle.rio_base.specs.Volume.{Firm, Goes};
ghost use Rattle.block_alloc.specs.Bitmap.{numbers};
ghost use Rattle.rio_model.specs.Sizes.{largest_size};
ghost use Rattle.node_pages.specs.Changes.{Apart};
ghost use Rattle.node_pages.specs.Staging.{Beside};
ghost use Rattle.file_pages.specs.Spans.{PutsLead, PutsSpan, SpanNamed};

use crate::failures::BytesFail;
use crate::pieces::store_piece;
use node_pages::bytes_in_page;
use rio_base::{Block, Ino, PAGE_BYTES, PageName, Volume};

/// Stores those of `bytes` that lie in one page with the first of them, which is byte `off` of the file. Says how many.
fn store_page<V: Volume>(
    v: &mut V,
    i: Ino,
    len: u64,
    blocks: &[Block],
    first: u32,
    off: u64,
    bytes: &[u8],
) -> Result<usize, BytesFail>
    requires sound { V.sound v.old }
    requires idle { (V.kept v.old).updating ≡ false }
    requires places { (t : ℕ) → t < length blocks.now → slice_index (numbers blocks.now) t < (V.seen v.old).count }
    requires apart { Apart (numbers blocks.now) }
    requires file { 1 ≤ i.0 }
    requires file_to { i.0 ≤ 32768 }
    requires few { first + length blocks.now ≤ 1048 }
    requires from { 4096 * first ≤ off }
    requires some { 0 < length bytes.now }
    requires to { off + length bytes.now ≤ 4096 * (first + length blocks.now) }
    requires named { SpanNamed (numbers blocks.now) first i.0 len (V.seen v.old) }
    ensures ok { IfOk result (λ n. (0 < n) × (n ≤ length bytes.now) × PutsSpan (V.seen v.old).words (V.seen v.new).words (numbers blocks.now) first off bytes.now n) }
    ensures fault { (k : ℕ) → IsErrOf result (BytesFail.Fault k) → (k ≤ length bytes.now) × PutsSpan (V.seen v.old).words (V.seen v.new).words (numbers blocks.now) first off bytes.now k }
    ensures front { (k : ℕ) × (k ≤ length bytes.now) × PutsSpan (V.seen v.old).words (V.seen v.new).words (numbers blocks.now) first off bytes.now k }
    ensures beside { Beside (Contains (numbers blocks.now)) (V.seen v.old) (V.kept v.old) (V.seen v.new) (V.kept v.new) }
    ensures firm { Firm (V.kept v.old) (V.kept v.new) }
    ensures named { SpanNamed (numbers blocks.now) first i.0 len (V.seen v.new) }
    ensures idle { (V.kept v.new).updating ≡ false }
    ensures goes { Goes (V.health v.old) (V.below v.old) (V.health v.new) (V.below v.new) }
    ensures ends { EndsBy (V.health v.old) (V.health v.new) ((k : ℕ) × IsErrOf result (BytesFail.Fault k)) (IsErrOf result BytesFail.Stopped) }
    ensures sound { V.sound v.new }
{
    let index = (off / PAGE_BYTES) as u32;
    let at = (off % PAGE_BYTES) as usize;
    let count = (PAGE_BYTES as usize - at).min(bytes.len());
    let name = PageName {
        file: i,
        index,
        size: bytes_in_page(len, index),
    };
    let b = blocks[(index - first) as usize];
    store_piece(v, b, name, at, &bytes[..count])?;
    Ok(count)
}

/// Stores bytes of file `i` from byte `off` on, in rising order. These blocks are its pages from page `first` on, and are
/// named as those of a file of `len` bytes. A page is fetched only after all bytes of the pages before it are stored.
pub fn store_span<V: Volume>(
    v: &mut V,
    i: Ino,
    len: u64,
    blocks: &[Block],
    first: u32,
    off: u64,
    bytes: &[u8],
) -> Result<(), BytesFail>
    requires sound { V.sound v.old }
    requires idle { (V.kept v.old).updating ≡ false }
    requires places { (t : ℕ) → t < length blocks.now → slice_index (numbers blocks.now) t < (V.seen v.old).count }
    requires apart { Apart (numbers blocks.now) }
    requires file { 1 ≤ i.0 }
    requires file_to { i.0 ≤ 32768 }
    requires few { first + length blocks.now ≤ 1048 }
    requires from { 4096 * first ≤ off }
    requires to { off + length bytes.now ≤ 4096 * (first + length blocks.now) }
    requires named { SpanNamed (numbers blocks.now) first i.0 len (V.seen v.old) }
    ensures ok { OnOk result (PutsSpan (V.seen v.old).words (V.seen v.new).words (numbers blocks.now) first off bytes.now (length bytes.now)) }
    ensures fault { (k : ℕ) → IsErrOf result (BytesFail.Fault k) → (k ≤ length bytes.now) × PutsSpan (V.seen v.old).words (V.seen v.new).words (numbers blocks.now) first off bytes.now k }
    ensures front { (k : ℕ) × (k ≤ length bytes.now) × PutsSpan (V.seen v.old).words (V.seen v.new).words (numbers blocks.now) first off bytes.now k }
    ensures beside { Beside (Contains (numbers blocks.now)) (V.seen v.old) (V.kept v.old) (V.seen v.new) (V.kept v.new) }
    ensures firm { Firm (V.kept v.old) (V.kept v.new) }
    ensures named { SpanNamed (numbers blocks.now) first i.0 len (V.seen v.new) }
    ensures idle { (V.kept v.new).updating ≡ false }
    ensures goes { Goes (V.health v.old) (V.below v.old) (V.health v.new) (V.below v.new) }
    ensures ends { EndsBy (V.health v.old) (V.health v.new) ((k : ℕ) × IsErrOf result (BytesFail.Fault k)) (IsErrOf result BytesFail.Stopped) }
    ensures sound { V.sound v.new }
{
    let mut done = 0;
    while done < bytes.len() {
        match store_page(v, i, len, blocks, first, off + done as u64, &bytes[done..]) {
            Ok(count) => done += count,
            Err(BytesFail::Fault(k)) => return Err(BytesFail::Fault(done as u64 + k)),
            Err(BytesFail::Stopped) => return Err(BytesFail::Stopped),
        }
    }
    Ok(())
}

/// How many of `len` bytes from `off` on lie in words that hold bytes of a file of `size` bytes.
fn live_bytes(size: u64, off: u64, len: usize) -> usize
    requires { size ≤ largest_size }
    ensures { result ≡ min len (8 * ((size + 7) / 8) - off) }
{
    (8 * size.div_ceil(8)).saturating_sub(off).min(len as u64) as usize
}

/// Stores bytes of file `i`, which has `size` bytes and grows to `len`: first those behind its size, which do not count
/// yet, and then those within it, in rising order. A word with bytes of both is stored with the second.
pub fn store_parts<V: Volume>(
    v: &mut V,
    i: Ino,
    size: u64,
    len: u64,
    blocks: &[Block],
    first: u32,
    off: u64,
    bytes: &[u8],
) -> Result<(), BytesFail>
    requires sound { V.sound v.old }
    requires idle { (V.kept v.old).updating ≡ false }
    requires places { (t : ℕ) → t < length blocks.now → slice_index (numbers blocks.now) t < (V.seen v.old).count }
    requires apart { Apart (numbers blocks.now) }
    requires file { 1 ≤ i.0 }
    requires file_to { i.0 ≤ 32768 }
    requires few { first + length blocks.now ≤ 1048 }
    requires from { 4096 * first ≤ off }
    requires to { off + length bytes.now ≤ 4096 * (first + length blocks.now) }
    requires named { SpanNamed (numbers blocks.now) first i.0 len (V.seen v.old) }
    requires small { size ≤ len }
    requires most { len ≤ 4292608 }
    ensures ok { OnOk result (PutsSpan (V.seen v.old).words (V.seen v.new).words (numbers blocks.now) first off bytes.now (length bytes.now)) }
    ensures fault { (k : ℕ) → IsErrOf result (BytesFail.Fault k) → PutsLead (V.seen v.old).words (V.seen v.new).words (numbers blocks.now) first size off bytes.now k }
    ensures front { (k : ℕ) × PutsLead (V.seen v.old).words (V.seen v.new).words (numbers blocks.now) first size off bytes.now k }
    ensures beside { Beside (Contains (numbers blocks.now)) (V.seen v.old) (V.kept v.old) (V.seen v.new) (V.kept v.new) }
    ensures firm { Firm (V.kept v.old) (V.kept v.new) }
    ensures named { SpanNamed (numbers blocks.now) first i.0 len (V.seen v.new) }
    ensures idle { (V.kept v.new).updating ≡ false }
    ensures goes { Goes (V.health v.old) (V.below v.old) (V.health v.new) (V.below v.new) }
    ensures ends { EndsBy (V.health v.old) (V.health v.new) ((k : ℕ) × IsErrOf result (BytesFail.Fault k)) (IsErrOf result BytesFail.Stopped) }
    ensures sound { V.sound v.new }
{
    let live = live_bytes(size, off, bytes.len());
    match store_span(v, i, len, blocks, first, off + live as u64, &bytes[live..]) {
        Ok(()) => {}
        Err(BytesFail::Fault(_)) => return Err(BytesFail::Fault(0)),
        Err(BytesFail::Stopped) => return Err(BytesFail::Stopped),
    }
    match store_span(v, i, len, blocks, first, off, &bytes[..live]) {
        Ok(()) => Ok(()),
        Err(BytesFail::Fault(k)) => Err(BytesFail::Fault(k.min(size.saturating_sub(off)))),
        Err(BytesFail::Stopped) => Err(BytesFail::Stopped),
    }
}
