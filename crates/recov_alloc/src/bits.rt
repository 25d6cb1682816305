//! Runs of equal bits of one word of the heap map.

ghost use Rattle.std.specs.Prelude.{◌<◌};
ghost use Rattle.recov_alloc.specs.Extents.{GoesOn};

use undo_list::zeros_from;

/// How many units from `bit` on go on a block, by the used bits and the starts of their page.
pub(crate) fn units_on(used: u64, starts: u64, bit: u32) -> u32
    requires { bit < 64 }
    ensures { GoesOn used starts bit result }
{
    zeros_from(!used | starts, bit)
}
