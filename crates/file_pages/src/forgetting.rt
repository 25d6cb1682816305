//! Blocks that a node has lost, dropped from the cache.

ghost use Rattle.std.specs.Prelude.{◌≡◌, ◌<◌, ℕ, false, length, slice_index, IsErr, IsErrOf, OnOk};
ghost use Rattle.std.specs.List.{Contains};
ghost use Rattle.rio_base.specs.Blocks.{Halts};
ghost use Rattle.rio_base.specs.Volume.{Goes};
ghost use Rattle.block_alloc.specs.Bitmap.{numbers};
ghost use Rattle.node_pages.specs.Staging.{Beside, Uncached};

use node_pages::SizeFail;
use rio_base::{Block, Volume};

/// Drops blocks from the cache that are not in use: what they held no longer counts.
pub fn forget_all<V: Volume>(v: &mut V, blocks: &[Block]) -> Result<(), SizeFail>
    requires sound { V.sound v.old }
    requires places { (t : ℕ) → t < length blocks.now → slice_index (numbers blocks.now) t < (V.seen v.old).count }
    requires idle { (V.kept v.old).updating ≡ false }
    ensures forgotten { OnOk result (Uncached (Contains (numbers blocks.now)) (V.seen v.new)) }
    ensures beside { Beside (Contains (numbers blocks.now)) (V.seen v.old) (V.kept v.old) (V.seen v.new) (V.kept v.new) }
    ensures idle { (V.kept v.new).updating ≡ false }
    ensures goes { Goes (V.health v.old) (V.below v.old) (V.health v.new) (V.below v.new) }
    ensures stops { IsErr result → IsErrOf result SizeFail.Stopped }
    ensures ends { Halts (V.health v.old) (V.health v.new) result }
    ensures sound { V.sound v.new }
{
    for t in 0..blocks.len() {
        v.forget(blocks[t])?;
    }
    Ok(())
}
