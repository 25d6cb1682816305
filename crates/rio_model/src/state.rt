//! The state that requests change.

ghost use Rattle.std.specs.Prelude.{◌≡◌};

use crate::rows::{NameRows, NodeRows};
use crate::txn::TxnList;
use rio_base::VolumeShape;
use std::alloc::AllocError;

/// All that a file server holds, without blocks, frames or pages.
#[derive(Debug, Drop)]
pub struct State {
    /// What each directory's names name.
    pub names: NameRows,
    /// What each inode stands for. Inode 1 is the root directory.
    pub nodes: NodeRows,
    /// The open transactions.
    pub txns: TxnList,
    /// The sizes of the volume.
    pub shape: VolumeShape,
    /// How many pages the memory has.
    pub pages: u32,
    /// How many of them, the last ones, are scratch.
    pub scratch: u32,
}

impl Clone for State {
    ghost is_clone = { λ old new. new ≡ old };

    fn clone(&self) -> Result<State, AllocError> {
        let names = self.names.clone()?;
        let nodes = self.nodes.clone()?;
        let txns = self.txns.clone()?;
        Ok(State {
            names,
            nodes,
            txns,
            shape: self.shape,
            pages: self.pages,
            scratch: self.scratch,
        })
    }
}
