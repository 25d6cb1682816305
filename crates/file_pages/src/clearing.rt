//! The bytes of a file's last page that lie past its size, made zero before the file grows over them.

ghost use Rattle.std.specs.Prelude.{◌≡◌, ◌≢◌, ℕ, length, slice_index, ◌/◌, ◌%◌, ◌*◌, ◌+◌, ◌^◌, ◌<◌, ◌≤◌, true, OnOk};
ghost use Rattle.rio_base.specs.Blocks.{Ends};
ghost use Rattle.rio_base.specs.Layout.{IsIno};
ghost use Rattle.rio_base.specs.Volume.{Goes};
ghost use Rattle.rio_base.specs.NodeKinds.{file_kind};
ghost use Rattle.rio_model.specs.Held.{held, held_bytes};
ghost use Rattle.rio_model.specs.Placed.{AtPage, Owns, placed_at, volume_layout};
ghost use Rattle.rio_model.specs.Sizes.{largest_size};
ghost use Rattle.rio_model.specs.VolumeReady.{Ready};
ghost use Rattle.file_pages.specs.Storing.{KeepsFront, NamedAs, StoresPages, TailCleared, ZerosFrom};

use node_pages::{block_of, bytes_in_page};
use rio_base::{Block, Ino, PAGE_BYTES, PageName, RunFail, VolFail, Volume, VolumeShape};

/// The first `k` bytes of a word, and zeros.
fn low_bytes(word: u64, k: u32) -> u64
    requires { k < 8 }
    ensures { result ≡ word % 256 ^ k }
{
    match k {
        0 => 0,
        1 => word % 0x100,
        2 => word % 0x1_0000,
        3 => word % 0x100_0000,
        4 => word % 0x1_0000_0000,
        5 => word % 0x100_0000_0000,
        6 => word % 0x1_0000_0000_0000,
        _ => word % 0x100_0000_0000_0000,
    }
}

/// The words of a page that become zero from byte `at` on. The first of them has old bytes below that.
fn cleared_words(word: u64, at: u32) -> [u64; 512]
    requires { at < 4096 }
    ensures len { length result ≡ 512 }
    ensures first { slice_index result (at / 8) ≡ word % 256 ^ (at % 8) }
    ensures rest { (t : ℕ) → t ≢ at / 8 → slice_index result t ≡ 0 }
{
    let mut run = [0; 512];
    run[(at / 8) as usize] = low_bytes(word, at % 8);
    run
}

/// Makes zero what a page of file `i` has from byte `at` on, where the file ends. The page may be named afterwards as that
/// of a file of `len` bytes.
fn clear_page<V: Volume>(
    v: &mut V,
    shape: &VolumeShape,
    i: Ino,
    page: u32,
    b: Block,
    at: u32,
    len: u64,
) -> Result<(), VolFail>
    requires sound { V.sound v.old }
    requires ready { Ready shape.now (V.seen v.old) (V.kept v.old) }
    requires owns { Owns (volume_layout shape.now (V.seen v.old).words) i.0 (AtPage page) }
    requires block { b.0 ≡ (placed_at (V.seen v.old).words i.0).block (AtPage page) }
    requires file { (placed_at (V.seen v.old).words i.0).kind ≡ file_kind }
    requires grows { (placed_at (V.seen v.old).words i.0).size ≤ len }
    requires place { at < 4096 }
    ensures cleared { OnOk result (ZerosFrom (V.seen v.new).words b.0 at) }
    ensures named { OnOk result ((V.seen v.new).cached b.0 ≡ true → NamedAs i.0 len page ((V.seen v.new).names b.0)) }
    ensures front { KeepsFront (V.seen v.old).words (V.seen v.new).words b.0 at }
    ensures stores { StoresPages shape.now (V.seen v.old) (V.kept v.old) (V.seen v.new) (V.kept v.new) i.0 }
    ensures goes { Goes (V.health v.old) (V.below v.old) (V.health v.new) (V.below v.new) }
    ensures ends { Ends (V.health v.old) (V.health v.new) result }
    ensures sound { V.sound v.new }
{
    let size = bytes_in_page(len, page);
    let name = Some(PageName {
        file: i,
        index: page,
        size,
    });
    let first = at / 8;
    let word = v.word(b, name, first as u16)?;
    let run = cleared_words(word, at);
    match v.store_run(b, name, first as u16, &run[first as usize..]) {
        Ok(()) => Ok(()),
        Err(RunFail::Fault(_)) => Err(VolFail::Fault),
        Err(RunFail::Stopped) => Err(VolFail::Stopped),
    }
}

/// Makes zero what lies past the end of file `i` in its last page, so that the file may grow to `len` bytes. Its bytes stay.
pub fn clear_tail<V: Volume>(
    v: &mut V,
    shape: &VolumeShape,
    i: Ino,
    size: u64,
    len: u64,
) -> Result<(), VolFail>
    requires sound { V.sound v.old }
    requires ready { Ready shape.now (V.seen v.old) (V.kept v.old) }
    requires ino { IsIno shape.now i.0 }
    requires file { (placed_at (V.seen v.old).words i.0).kind ≡ file_kind }
    requires size { (placed_at (V.seen v.old).words i.0).size ≡ size }
    requires grows { size ≤ len }
    ensures cleared { OnOk result (TailCleared (V.seen v.old).words (V.seen v.new) i.0 size len) }
    ensures bytes { held_bytes (held (V.seen v.new).words (placed_at (V.seen v.old).words i.0)) ≡ held_bytes (held (V.seen v.old).words (placed_at (V.seen v.old).words i.0)) }
    ensures stores { StoresPages shape.now (V.seen v.old) (V.kept v.old) (V.seen v.new) (V.kept v.new) i.0 }
    ensures goes { Goes (V.health v.old) (V.below v.old) (V.health v.new) (V.below v.new) }
    ensures ends { Ends (V.health v.old) (V.health v.new) result }
    ensures sound { V.sound v.new }
{
    let at = (size % PAGE_BYTES) as u32;
    if at == 0 {
        return Ok(());
    }
    let page = (size / PAGE_BYTES) as u32;
    let b = block_of(v, shape, i, page)?;
    clear_page(v, shape, i, page, b, at, len)
}
