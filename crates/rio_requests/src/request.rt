//! What a line may ask for.

use rio_base::Octets;

/// A request. A path is `/`, or names with a slash before each.
#[derive(Debug, Drop)]
pub enum Request {
    /// Makes a directory.
    Mkdir {
        path: Octets,
    },
    /// Makes an empty file.
    Create {
        path: Octets,
    },
    /// Makes a region of so many data pages and undo pages.
    Region {
        path: Octets,
        data_pages: u64,
        undo_pages: u64,
    },
    /// Writes bytes into a file from a byte offset on.
    Write {
        path: Octets,
        off: u64,
        bytes: Octets,
    },
    /// Reads up to `len` bytes of a file from a byte offset on.
    Read {
        path: Octets,
        off: u64,
        len: u64,
    },
    /// Shrinks a file to `len` bytes, or grows it with zeros.
    Truncate {
        path: Octets,
        len: u64,
    },
    /// Removes a file or a region.
    Unlink {
        path: Octets,
    },
    /// Removes an empty directory.
    Rmdir {
        path: Octets,
    },
    /// Moves a name.
    Rename {
        path: Octets,
        to: Octets,
    },
    /// Asks for inode, kind and size.
    Stat {
        path: Octets,
    },
    /// Asks for the names of a directory.
    List {
        path: Octets,
    },
    /// Asks that all answered requests be permanent, which they are.
    Sync,
    /// Opens a transaction on a region.
    Begin {
        path: Octets,
    },
    /// Lets the transaction change a range of bytes.
    Range {
        path: Octets,
        off: u64,
        len: u64,
    },
    /// Changes bytes in ranges of the transaction.
    Put {
        path: Octets,
        off: u64,
        bytes: Octets,
    },
    /// Reads bytes of a region as they are now.
    Get {
        path: Octets,
        off: u64,
        len: u64,
    },
    /// Takes a block of so many units from a region's heap.
    Alloc {
        path: Octets,
        units: u64,
    },
    /// Gives back the heap block that starts at a byte offset.
    Free {
        path: Octets,
        at: u64,
    },
    /// Ends a transaction and keeps its changes.
    Commit {
        path: Octets,
    },
    /// Ends a transaction and undoes its changes.
    Abort {
        path: Octets,
    },
    /// Asks for the open transactions.
    Txns,
    /// Cleans the first `count` dirty frames.
    Flush {
        count: u64,
    },
    /// Stores a word wherever it lies, as a program gone wild would.
    Wild {
        at: u64,
        value: u64,
    },
    /// Makes such a store after so many further steps.
    Arm {
        step: u64,
        at: u64,
        value: u64,
    },
}
