//! Blocks made zero and named before a node takes them.

ghost use Rattle.std.specs.Prelude.{◌≡◌, ◌+◌, ◌-◌, ◌*◌, ◌<◌, ◌≤◌, ℕ, min, false, true, length, slice_index, OnOk};
ghost use Rattle.std.specs.List.{Contains};
ghost use Rattle.rio_base.specs.Blocks.{Ends, InRange};
ghost use Rattle.rio_base.specs.Volume.{Goes};
ghost use Rattle.block_alloc.specs.Bitmap.{numbers};
ghost use Rattle.node_pages.specs.Changes.{Apart};
ghost use Rattle.node_pages.specs.Staging.{Beside, Zeroed, taken_name};

use rio_base::{Block, DIRECTORY, Ino, PAGE_BYTES, PageName, VolFail, Volume};

/// Bytes of page `index` that a node of `len` bytes uses.
pub fn bytes_in_page(len: u64, index: u32) -> u32
    requires { index ≤ 1048 }
    ensures size { result ≡ min 4096 (len - 4096 * index) }
{
    let start = PAGE_BYTES * index as u64;
    len.saturating_sub(start).min(PAGE_BYTES) as u32
}

/// The name of the `t`-th block that a node takes: page `first + t` of it, or none for a directory's, and for a table behind
/// the pages.
fn name_of(file: Ino, kind: u8, first: u32, count: u32, len: u64, t: u32) -> Option<PageName>
    requires file { 1 ≤ file.0 }
    requires file_to { file.0 ≤ 32768 }
    requires few { first + count ≤ 1048 }
    ensures name { result ≡ taken_name file.0 kind first count len t }
    ensures range { InRange result }
{
    if kind == DIRECTORY || t >= count {
        return None;
    }
    let index = first + t;
    let size = bytes_in_page(len, index);
    Some(PageName { file, index, size })
}

/// Makes the `t`-th block that a node takes zero under its name, whether it is cached or not. It must not be in use.
fn stage_taken<V: Volume>(
    v: &mut V,
    b: Block,
    file: Ino,
    kind: u8,
    first: u32,
    count: u32,
    len: u64,
    t: u32,
) -> Result<(), VolFail>
    requires sound { V.sound v.old }
    requires place { b.0 < (V.seen v.old).count }
    requires file { 1 ≤ file.0 }
    requires file_to { file.0 ≤ 32768 }
    requires few { first + count ≤ 1048 }
    requires idle { (V.kept v.old).updating ≡ false }
    ensures zeros { OnOk result ((w : ℕ) → (V.seen v.new).words b.0 w ≡ 0) }
    ensures firm { OnOk result ((V.kept v.new).loose b.0 ≡ false) }
    ensures named { OnOk result ((V.seen v.new).cached b.0 ≡ true → (V.seen v.new).names b.0 ≡ taken_name file.0 kind first count len t) }
    ensures beside { Beside (λ c. c ≡ b.0) (V.seen v.old) (V.kept v.old) (V.seen v.new) (V.kept v.new) }
    ensures idle { (V.kept v.new).updating ≡ false }
    ensures goes { Goes (V.health v.old) (V.below v.old) (V.health v.new) (V.below v.new) }
    ensures ends { Ends (V.health v.old) (V.health v.new) result }
    ensures sound { V.sound v.new }
{
    let name = name_of(file, kind, first, count, len, t);
    v.forget(b)?;
    v.fresh(b, name)
}

/// Makes blocks zero that are not in use: pages of a node from `first` on, and perhaps a table behind them.
pub fn stage_blocks<V: Volume>(
    v: &mut V,
    taken: &[Block],
    file: Ino,
    kind: u8,
    first: u32,
    count: u32,
    len: u64,
) -> Result<(), VolFail>
    requires sound { V.sound v.old }
    requires places { (t : ℕ) → t < length taken.now → slice_index (numbers taken.now) t < (V.seen v.old).count }
    requires apart { Apart (numbers taken.now) }
    requires file { 1 ≤ file.0 }
    requires file_to { file.0 ≤ 32768 }
    requires few { first + count ≤ 1048 }
    requires most { length taken.now ≤ 4096 }
    requires idle { (V.kept v.old).updating ≡ false }
    ensures zeroed { OnOk result (Zeroed (numbers taken.now) (taken_name file.0 kind first count len) (length taken.now) (V.seen v.new) (V.kept v.new)) }
    ensures beside { Beside (Contains (numbers taken.now)) (V.seen v.old) (V.kept v.old) (V.seen v.new) (V.kept v.new) }
    ensures idle { (V.kept v.new).updating ≡ false }
    ensures goes { Goes (V.health v.old) (V.below v.old) (V.health v.new) (V.below v.new) }
    ensures ends { Ends (V.health v.old) (V.health v.new) result }
    ensures sound { V.sound v.new }
{
    for t in 0..taken.len() {
        stage_taken(v, taken[t], file, kind, first, count, len, t as u32)?;
    }
    Ok(())
}
