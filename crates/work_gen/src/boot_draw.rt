//! How a boot of a drill ends.

ghost use Rattle.std.specs.Prelude.{◌≡◌};
ghost use Rattle.work_gen.specs.Draws.{boot, choice_of};

use crate::generator::Gen;
use block_disk::DiskChoice;

/// The words of a drill's memory: 280 pages of 512.
const DRILL_WORDS: u32 = 143_360;

/// What is drawn for a boot that another one follows.
#[derive(Clone, Copy, Debug, PartialEq, Eq)]
pub struct BootDraw {
    /// The machine stops before its next step once it has made this many.
    pub stop_after: u64,
    /// The step before which the wild store falls.
    pub arm_step: u64,
    /// The word of memory that the wild store falls on, below 143,360.
    pub arm_at: u32,
    /// What pending blocks hold after the stop.
    pub choice: DiskChoice,
}

/// Draws the end of a boot.
pub fn drawn_boot(draws: &mut Gen) -> BootDraw
    ensures { boot draws.old ≡ (draws.new, result) }
{
    let stop_high = draws.draw();
    let stop_low = draws.draw();
    let step = draws.draw();
    let at_high = draws.draw();
    let at_low = draws.draw();
    let choice = draws.draw();
    BootDraw {
        stop_after: u64::from(16 * stop_high + stop_low % 16),
        arm_step: u64::from(16 * step),
        arm_at: (32_768 * at_high + at_low) % DRILL_WORDS,
        choice: disk_choice(choice % 3),
    }
}

/// The content of pending blocks that a draw stands for.
fn disk_choice(drawn: u32) -> DiskChoice
    ensures { result ≡ choice_of drawn }
{
    match drawn {
        0 => DiskChoice::AsRead,
        1 => DiskChoice::AsSynced,
        _ => DiskChoice::Filled(0xa5),
    }
}
