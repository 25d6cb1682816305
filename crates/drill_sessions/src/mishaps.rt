//! What befalls the boots of a plan.

ghost use Rattle.std.specs.Prelude.{◌≡◌, ◌*◌, ◌<◌, ℕ, Some};
ghost use Rattle.rio_base.specs.Image.{image_pages};

use crate::words::Plan;
use block_disk::DiskChoice;

/// How many calls of a disk fail in a boot of which some do.
pub const FAILING: u64 = 2;

/// How many words the memory of a drill has: 280 pages of 512.
const WORDS: u32 = 143_360;

/// What a wild store stores.
const WILD_VALUE: u64 = u64::MAX;

/// What befalls a boot.
pub enum Mishap {
    Nothing,
    /// Its machine stops once it has made as many steps as the line says, and pending blocks then hold what is chosen.
    Stop(DiskChoice),
    /// Calls of its disk fail, from the one on that the line says.
    Faults,
    /// The first calls of its disk fail.
    FirstFaults,
    /// A stop that it does not reach.
    FarStop,
    /// A failing call of its disk that it does not reach.
    FarFault,
    /// A wild store, before the step that follows so many as the line says.
    Armed,
}

impl Mishap {
    /// After how many steps its machine stops, if ever.
    pub fn stop_after(&self, number: u64) -> Option<u64> {
        match self {
            Mishap::Stop(_) => Some(number),
            Mishap::FarStop => Some(u64::MAX),
            _ => None,
        }
    }

    /// The first of the calls of its disk that fail, and how many do, from that one on.
    pub fn failing(&self, number: u64) -> (u64, u64) {
        match self {
            Mishap::Faults => (number, FAILING),
            Mishap::FirstFaults => (1, FAILING),
            Mishap::FarFault => (u64::MAX, 1),
            _ => (1, 0),
        }
    }

    /// Its wild store on this word of memory: how many steps come before it, the word, and what it stores. None where it has
    /// none, or memory has no such word.
    pub fn arm(&self, number: u64, at: u32) -> Option<(u64, u32, u64)>
        ensures { (step at value : ℕ) → result ≡ Some (step, at, value) → at < 512 * image_pages 256 4 }
    {
        match self {
            Mishap::Armed if at < WORDS => Some((number, at, WILD_VALUE)),
            _ => None,
        }
    }

    /// What pending blocks hold after a stop.
    pub fn choice(&self) -> DiskChoice {
        match self {
            Mishap::Stop(choice) => *choice,
            Mishap::FarStop => DiskChoice::Filled(0xa5),
            _ => DiskChoice::AsRead,
        }
    }
}

/// What befalls each of some boots.
pub type Mishaps = &'static [Mishap];

static ONE: [Mishap; 1] = [Mishap::Nothing];

static TWO: [Mishap; 2] = [Mishap::Nothing, Mishap::Nothing];

static STOPPED_FIRST: [Mishap; 2] = [Mishap::Stop(DiskChoice::AsRead), Mishap::Nothing];

static STOPPED_SECOND: [Mishap; 3] = [
    Mishap::Nothing,
    Mishap::Stop(DiskChoice::AsRead),
    Mishap::Nothing,
];

static ARMED: [Mishap; 2] = [Mishap::Armed, Mishap::Nothing];

static FAULTS: [Mishap; 3] = [Mishap::Faults, Mishap::Nothing, Mishap::FirstFaults];

/// What befalls the boots of a plan that are told, or others are compared with.
pub fn mishaps_of(plan: Plan) -> Mishaps {
    match plan {
        Plan::Same => &ONE,
        Plan::Unreached => &TWO,
        Plan::Boots => &STOPPED_FIRST,
        Plan::Choices => &STOPPED_SECOND,
        Plan::Faults => &FAULTS,
        Plan::Armed => &ARMED,
    }
}

/// What else may befall the boots of a plan, each behind what is told of it.
pub type Others = &'static [(&'static str, Mishaps)];

/// A stop and a failing call that are never reached.
pub static UNREACHED: [(&str, Mishaps); 2] = [
    ("the stop differs", &[Mishap::FarStop, Mishap::FarStop]),
    (
        "the failing call differs",
        &[Mishap::FarFault, Mishap::FarFault],
    ),
];

/// Pending blocks that hold something else after the stop.
pub static OTHER_CHOICES: [(&str, Mishaps); 2] = [
    (
        "as synced differs",
        &[
            Mishap::Nothing,
            Mishap::Stop(DiskChoice::AsSynced),
            Mishap::Nothing,
        ],
    ),
    (
        "filled differs",
        &[
            Mishap::Nothing,
            Mishap::Stop(DiskChoice::Filled(0xa5)),
            Mishap::Nothing,
        ],
    ),
];

/// What an armed wild store may come to: as if there was none, or as a stop in its place.
pub static AS_ARMED: [(&str, Mishaps); 2] = [
    ("as with none", &[Mishap::Nothing, Mishap::Nothing]),
    (
        "as with a stop there",
        &[Mishap::Stop(DiskChoice::AsRead), Mishap::Nothing],
    ),
];
