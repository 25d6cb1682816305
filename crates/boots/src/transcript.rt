//! Transcripts: what a run of many boots tells.

use rio_base::Items;
use rio_model::Census;
use rio_requests::{Reply, Request};

/// Requests that were answered, in order, each with its reply.
pub type AnsweredList = Items<(Request, Reply)>;

/// Boots that were run, one after the other.
pub type BootRuns = Items<BootRun>;

/// What the boots of a plan did, and what the last one left.
#[derive(Debug, Drop)]
pub struct Transcript {
    /// What each boot of the plan did.
    pub boots: BootRuns,
    /// The counts of the volume after the last boot.
    pub last: Census,
    /// The sum of its files' sizes, in bytes.
    pub bytes: u64,
}

/// What one boot did.
#[derive(Debug, Drop)]
pub struct BootRun {
    /// The requests that it answered.
    pub answered: AnsweredList,
    /// The request that it was at when the machine stopped. None where it was at none: it did not stop, or before any
    /// request.
    pub stopped_on: Option<Request>,
    /// How it ended.
    pub end: BootEnd,
}

/// How a boot ends.
#[derive(Clone, Copy, Debug, PartialEq, Eq)]
pub enum BootEnd {
    /// It answered all its requests.
    Served,
    /// The machine stopped, in the boot or at a request.
    Stopped,
    /// A device fault kept it from serving any request.
    BootFault,
}
