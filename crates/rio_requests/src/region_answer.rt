//! What a request on a region comes to.

use crate::reply::Reply;
use rio_model::{RegionNode, Txn};

/// A region after a request that was not refused, with the transaction that is open on it then, and the reply.
#[derive(Debug, Drop)]
pub struct RegionAnswer {
    /// The region.
    pub region: RegionNode,
    /// Its transaction, where one is open.
    pub txn: Option<Txn>,
    /// The reply.
    pub reply: Reply,
}
