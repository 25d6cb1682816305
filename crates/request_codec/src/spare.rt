//! Memory that requests leave for later ones.

ghost use Rattle.std.specs.Prelude.{◌≡◌, IfOk};

use rio_base::Octets;
use rio_requests::Request;
use std::alloc::{AllocError, Global};
use std::mem;

/// The most bytes that are kept of a path or of what else a request carries: a page of data, and any path.
const KEPT_BYTES: usize = 4096;

/// Memory for a path and for what else a request carries, which an answered request left. So a request that is like the last
/// one takes none from the allocator. What stands in it is never read.
#[derive(Drop)]
pub struct Spare {
    alloc: Global,
    path: Vec<u8>,
    rest: Vec<u8>,
}

impl Spare {
    /// No memory yet.
    pub fn new(alloc: Global) -> Spare {
        Spare {
            alloc,
            path: Vec::new(alloc),
            rest: Vec::new(alloc),
        }
    }

    /// A copy of a path.
    pub(crate) fn copy_path(&mut self, path: &[u8]) -> Result<Octets, AllocError>
        ensures { IfOk result (λ copy. copy ≡ path.now) }
    {
        let room = mem::replace(&mut self.path, Vec::new(self.alloc));
        copied(room, path)
    }

    /// A copy of a request's second path.
    pub(crate) fn copy_rest(&mut self, path: &[u8]) -> Result<Octets, AllocError>
        ensures { IfOk result (λ copy. copy ≡ path.now) }
    {
        copied(self.take_rest(), path)
    }

    /// Memory for what a request carries beside its path.
    pub(crate) fn take_rest(&mut self) -> Vec<u8> {
        mem::replace(&mut self.rest, Vec::new(self.alloc))
    }

    /// Takes the memory of a request that was answered.
    pub fn keep(&mut self, request: Request) {
        match request {
            Request::Mkdir { path }
            | Request::Create { path }
            | Request::Region { path, .. }
            | Request::Read { path, .. }
            | Request::Truncate { path, .. }
            | Request::Unlink { path }
            | Request::Rmdir { path }
            | Request::Stat { path }
            | Request::List { path }
            | Request::Begin { path }
            | Request::Range { path, .. }
            | Request::Get { path, .. }
            | Request::Alloc { path, .. }
            | Request::Free { path, .. }
            | Request::Commit { path }
            | Request::Abort { path } => self.keep_path(path),
            Request::Write { path, bytes, .. }
            | Request::Put { path, bytes, .. }
            | Request::Rename { path, to: bytes } => {
                self.keep_path(path);
                self.keep_rest(bytes);
            }
            Request::Sync
            | Request::Txns
            | Request::Flush { .. }
            | Request::Wild { .. }
            | Request::Arm { .. } => {}
        }
    }

    fn keep_path(&mut self, path: Octets) {
        let room = path.into_vec();
        if room.capacity() <= KEPT_BYTES {
            self.path = room;
        }
    }

    fn keep_rest(&mut self, bytes: Octets) {
        let room = bytes.into_vec();
        if room.capacity() <= KEPT_BYTES {
            self.rest = room;
        }
    }
}

/// A copy of bytes in this memory, or in more where it isn't enough.
fn copied(room: Vec<u8>, bytes: &[u8]) -> Result<Octets, AllocError>
    ensures { IfOk result (λ copy. copy ≡ bytes.now) }
{
    let mut copy = room;
    copy.clear();
    copy.extend_from_slice(bytes)?;
    Ok(Octets::from(copy))
}
