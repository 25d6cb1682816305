//! Plans: what a run of many boots is told.

use block_disk::DiskChoice;
use rio_base::Items;
use rio_requests::Request;

/// The requests of a boot, in the order in which they are served.
pub type RequestList = Items<Request>;

/// Calls of a disk within one boot, by their numbers: its first call is 1.
pub type CallList = Items<u64>;

/// Boots, one after the other.
pub type BootPlans = Items<BootPlan>;

/// A fresh volume with its machine, and the boots on them, each on what the one before it left.
#[derive(Drop)]
pub struct LivePlan {
    /// How many frames the cache has.
    pub frames: u32,
    /// How many blocks the volume has.
    pub blocks: u32,
    /// How many inodes.
    pub inodes: u32,
    /// How many scratch pages.
    pub scratch: u32,
    /// The boots.
    pub boots: BootPlans,
}

/// One boot: what it serves, and what befalls it.
#[derive(Drop)]
pub struct BootPlan {
    /// The requests that it serves.
    pub requests: RequestList,
    /// The machine stops before its next step once it has made this many. None: it does not stop by itself.
    pub stop_after: Option<u64>,
    /// A wild store: the step before which it falls, the word of memory that it falls on, and the word that it stores.
    pub arm: Option<(u64, u32, u64)>,
    /// The calls of the disk that fail, each at least 1. Those that the boot does not reach are dropped when it ends.
    pub fail: CallList,
    /// What the blocks that are pending after a stop hold from then on.
    pub choice: DiskChoice,
}
