//! What a request is answered.

use name_list::NameList;
use rio_base::{Ino, InoList, Octets};

/// The number in the reply to a device fault. No refusal has it.
pub const FAULT_NUMBER: u8 = 30;

/// The reply to a request.
#[derive(Debug, Drop)]
pub enum Reply {
    /// Done.
    Ok,
    /// Done, with an inode number, a count of bytes or a place.
    Number(u64),
    /// Bytes that were read.
    Bytes(Octets),
    /// What stands at a path.
    Stat {
        /// Its inode.
        ino: Ino,
        /// The number of its [`rio_base::Kind`].
        kind: u8,
        /// Its size in bytes.
        size: u64,
    },
    /// Names, in byte order.
    Names(NameList),
    /// Inode numbers.
    Inos(InoList),
    /// Refused, by the number of a [`rio_model::Refusal`].
    Err(u8),
    /// A device fault, after so many bytes.
    Fault(u64),
}
