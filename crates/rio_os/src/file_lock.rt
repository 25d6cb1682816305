//! Locks of open files, by which two runs keep out of each other's way.

use std::fs::{File, OpenFile};
use std::io;
use std::os::unix::fs::FileExt;

/// The lock that a host takes of each file that it opens.
#[derive(Clone, Copy, Debug, PartialEq, Eq)]
pub enum FileLock {
    /// No other run has a lock of the file meanwhile.
    Exclusive,
    /// Other runs may have a shared lock too, and none an exclusive one.
    Shared,
}

/// An open file that is read and written at an offset, and can be locked.
pub trait HostFile: OpenFile + FileExt {
    /// Takes a lock without waiting. It is held until the file is closed. An error of the kind `WouldBlock` says that the file
    /// was opened elsewhere and has a lock there that does not go with this one.
    fn take_lock(&self, lock: FileLock) -> io::Result<()>;
}

impl HostFile for File {
    fn take_lock(&self, lock: FileLock) -> io::Result<()> {
        match lock {
            FileLock::Exclusive => self.try_lock()?,
            FileLock::Shared => self.try_lock_shared()?,
        }
        Ok(())
    }
}
