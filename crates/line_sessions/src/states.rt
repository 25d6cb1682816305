//! States that sessions begin with.

use rio_base::{HeapList, Ino, RangeList, VolumeShape, Words};
use rio_model::{NameRows, Node, NodeRow, NodeRows, State, Txn, TxnList};
use std::alloc::{AllocError, Global};

/// The words of a region of one page.
const PAGE_WORDS: usize = 512;

/// The state with the root directory alone, on a volume of so many blocks and 64 inodes, in a memory of 83 pages.
pub(crate) fn root_alone(alloc: Global, blocks: u32) -> Result<State, AllocError> {
    let root = NodeRow {
        ino: Ino(1),
        node: Node::Dir,
    };
    let nodes = NodeRows::from(vec![in alloc; root]?);
    Ok(State {
        names: NameRows::from(Vec::new(alloc)),
        nodes,
        txns: TxnList::from(Vec::new(alloc)),
        shape: VolumeShape {
            version: 1,
            blocks,
            inodes: 64,
        },
        pages: 83,
        scratch: 1,
    })
}

/// A transaction alone that may only be aborted, on a region of a page, each word of which was 7 when it began.
pub(crate) fn doomed(alloc: Global, ino: u32) -> Result<TxnList, AllocError> {
    let txn = Txn {
        ino: Ino(ino),
        before: Words::from(vec![in alloc; 7u64; PAGE_WORDS]?),
        before_blocks: HeapList::from(Vec::new(alloc)),
        ranges: RangeList::from(Vec::new(alloc)),
        used: 0,
        doomed: true,
    };
    Ok(TxnList::from(vec![in alloc; txn]?))
}
