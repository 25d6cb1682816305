//! Why a request is refused.

ghost use Rattle.std.specs.Prelude.{◌≡◌};
ghost use Rattle.rio_model.specs.Refusals.{refusal_number};

/// Why a request is refused. A device fault, whose number is 30, is none: a request that met one may be done in part.
#[derive(Clone, Copy, Debug, PartialEq, Eq)]
pub enum Refusal {
    /// The line is no request.
    BadRequest = 1,
    /// There is no such name.
    NotFound = 2,
    /// The name is there already.
    Exists = 3,
    /// What should be a directory is none.
    NotADirectory = 4,
    /// What should be a file is a directory.
    IsADirectory = 5,
    /// The directory has names.
    NotEmpty = 6,
    /// What should be a file is a region.
    IsARegion = 7,
    /// What should be a region is none.
    NotARegion = 8,
    /// The root directory can not go, move, or be moved to.
    IsRoot = 9,
    /// No file can be so large.
    TooLarge = 10,
    /// No block is free for it.
    NoSpace = 11,
    /// No inode is free.
    NoInode = 12,
    /// The region has an open transaction.
    Busy = 13,
    /// The region has no open transaction.
    NoTransaction = 14,
    /// Some of these bytes are in no range of the transaction.
    NotCovered = 15,
    /// The undo pages have no room for it.
    UndoFull = 16,
    /// No gap of the heap is large enough.
    HeapFull = 17,
    /// No block of the heap starts there.
    NotBlock = 18,
    /// The region's data, or memory, ends before.
    OutOfRange = 19,
    /// The bytes are not whole words of 8.
    NotAligned = 20,
    /// A directory can not move below itself.
    InsideItself = 21,
    /// After a device fault the transaction may only be aborted.
    Doomed = 22,
    /// There was no memory, and nothing changed.
    NoMemory = 31,
}

impl Refusal {
    /// The number of the reply.
    pub fn number(self) -> u8
        ensures { result ≡ refusal_number self }
    {
        self as u8
    }
}
