//! The files of the operating system.

ghost use Rattle.std.specs.Prelude.{◌≡◌, ◌≤◌, ℕ, None, Result, IfOk, length};
ghost use Rattle.rio_base.specs.Failures.{HasCause, Rose};

use crate::file_lock::{FileLock, HostFile};
use crate::open_files::OpenFiles;
use crate::opening::{FileId, looked_at, make_locked, open_locked};
use crate::pieces::read_from;
use crate::replacing::{NewFile, replace_file};
use rio_base::{Failed, Host};
use std::alloc::Global;
use std::fs::{Metadata, OpenFile};
use std::io::{self, ErrorKind};
use std::os::unix::fs::FileExt;
use std::rt::Files;

/// A host over real files. It tells neither their content nor what it was asked for, and counts each call that failed.
///
/// The first call on a file opens it, and takes its lock. It stays open and locked until the host is dropped, so that another run has
/// no call on it meanwhile, but for two whose locks are shared. A lock that is refused is a call that failed, and from then on
/// this host replaces no file.
///
/// A file that somebody else removed or replaced is no longer the one of its name. Then no call on that name is done any
/// more, also where another file has it. A file that was only moved is read and written where it is, and all other calls fail.
#[derive(Drop)]
pub struct OsHost<R: Files + Drop> {
    alloc: Global,
    files: R,
    /// The lock that is taken of each file, or `None` where another host of this run has the locks.
    lock: Option<FileLock>,
    faults: u64,
    kept: OpenFiles<R::File>,
    /// The name of the file whose lock was refused last.
    in_use: Option<String>,
}

impl<R: Files + Drop> OsHost<R>
where
    R::File: HostFile,
{
    /// A host over the files that `files` reaches, none of whose calls has failed yet. It takes exclusive locks.
    pub fn new(alloc: Global, files: R) -> OsHost<R>
        ensures { ⟦<OsHost<R> as Host>⟧.faults result ≡ 0 }
    {
        OsHost::with_lock(alloc, files, Some(FileLock::Exclusive))
    }

    /// A host that takes shared locks. It can write no file.
    pub fn sharing(alloc: Global, files: R) -> OsHost<R>
        ensures { ⟦<OsHost<R> as Host>⟧.faults result ≡ 0 }
    {
        OsHost::with_lock(alloc, files, Some(FileLock::Shared))
    }

    /// A host that takes no locks. This is for files of which another host of the same run has the locks, and for no others: two hosts
    /// of one run would refuse each other. A write goes to the file that was opened, also where that lost its name meanwhile; `size`
    /// fails then.
    pub fn beside_locked(alloc: Global, files: R) -> OsHost<R>
        ensures { ⟦<OsHost<R> as Host>⟧.faults result ≡ 0 }
    {
        OsHost::with_lock(alloc, files, None)
    }

    fn with_lock(alloc: Global, files: R, lock: Option<FileLock>) -> OsHost<R>
        ensures { ⟦<OsHost<R> as Host>⟧.faults result ≡ 0 }
    {
        OsHost {
            alloc,
            files,
            lock,
            faults: 0,
            kept: OpenFiles::new(alloc),
            in_use: None,
        }
    }

    /// The name of the file whose lock was refused last: another run has it.
    pub fn in_use(&self) -> Option<&String> {
        self.in_use.as_ref()
    }

    /// Takes the lock of a file now, if there is such a file. What replaces two files reserves both before.
    pub fn reserve(&mut self, name: &String) -> Result<(), Failed>
        ensures { HasCause result self.old.faults self.new.faults }
    {
        let outcome = self.hold(name);
        self.counted(outcome)
    }

    /// Opens the file of a name, unless it is open or not there.
    fn hold(&mut self, name: &String) -> io::Result<()>
        ensures { self.new.faults ≡ self.old.faults }
    {
        if self.kept.has(name) {
            return Ok(());
        }
        match looked_at(&self.files, name)? {
            Some(found) => self.open_found(name, &found),
            None => Ok(()),
        }
    }

    /// Opens what was found under a name, which has to be a file. One that is open under another name is the same file.
    fn open_found(&mut self, name: &String, found: &Metadata) -> io::Result<()>
        ensures { self.new.faults ≡ self.old.faults }
    {
        if !found.is_file() {
            return Err(io::Error::from(ErrorKind::InvalidInput));
        }
        if self.kept.rename(FileId::of(found), name)? {
            return Ok(());
        }
        match open_locked(&self.files, name, self.lock) {
            Ok(opened) => Ok(self.kept.keep(name.clone()?, opened)?),
            Err(error) => Err(self.noted(name, error)),
        }
    }

    /// Takes note of a file that could not be opened, where that is for its lock.
    fn noted(&mut self, name: &String, error: io::Error) -> io::Error
        ensures { self.new.faults ≡ self.old.faults }
    {
        if error.kind() == ErrorKind::WouldBlock {
            // Without memory for its name the file is noted all the same.
            self.in_use = match name.clone() {
                Ok(name) => Some(name),
                Err(_) => Some(String::new(self.alloc)),
            };
        }
        error
    }

    /// The size of a file, or `None` where the file or its folder isn't there. A folder of that name is an error. What is neither is
    /// not opened, since that might wait.
    fn size_of(&mut self, name: &String) -> io::Result<Option<u64>>
        ensures { self.new.faults ≡ self.old.faults }
    {
        if !self.kept.has(name) {
            match looked_at(&self.files, name)? {
                None => return Ok(None),
                Some(found) if found.is_dir() => {
                    return Err(io::Error::from(ErrorKind::IsADirectory));
                }
                Some(found) if !found.is_file() => return Ok(Some(found.len())),
                Some(found) => self.open_found(name, &found)?,
            }
        }
        let file = self.kept.named(&self.files, name)?;
        Ok(Some(file.metadata()?.len()))
    }

    /// Reads bytes from byte `off` on. None before the end is an error. A file that isn't there has none.
    fn read_piece(&mut self, name: &String, off: u64, into: &mut [u8]) -> io::Result<usize>
        ensures bound { IfOk result (λ n. n ≤ length into.new) }
        ensures faults { self.new.faults ≡ self.old.faults }
    {
        self.hold(name)?;
        if !self.kept.has(name) {
            return Ok(0);
        }
        read_from(self.kept.current(&self.files, name)?, off, into)
    }

    /// Writes all of `from` from byte `off` on. A file that isn't there is made.
    fn write_piece(&mut self, name: &String, off: u64, from: &[u8]) -> io::Result<()>
        ensures { self.new.faults ≡ self.old.faults }
    {
        self.hold(name)?;
        if !self.kept.has(name) {
            self.make(name)?;
        }
        let file = match self.lock {
            Some(_) => self.kept.current(&self.files, name)?,
            // To ask for the name costs a call of the system. Beside another host `size` alone asks.
            None => self.kept.open(name)?,
        };
        file.write_all_at(from, off)
    }

    /// Makes an empty file where there is none, and keeps it open. That is for a host that has exclusive locks, and none is made
    /// once a lock was refused.
    fn make(&mut self, name: &String) -> io::Result<()>
        ensures { self.new.faults ≡ self.old.faults }
    {
        if self.in_use.is_some() {
            return Err(io::Error::from(ErrorKind::WouldBlock));
        }
        if self.lock != Some(FileLock::Exclusive) {
            return Err(io::Error::from(ErrorKind::PermissionDenied));
        }
        // All memory is taken before the file is there.
        let name_kept = name.clone()?;
        self.kept.make_room()?;
        match make_locked(&self.files, name, self.lock) {
            Ok(opened) => Ok(self.kept.keep(name_kept, opened)?),
            Err(error) => Err(self.noted(name, error)),
        }
    }

    /// Brings a file's bytes to the device.
    fn sync_file(&mut self, name: &String) -> io::Result<()>
        ensures { self.new.faults ≡ self.old.faults }
    {
        self.hold(name)?;
        self.kept.named(&self.files, name)?.sync_all()
    }

    /// Replaces a file, if there is one, and keeps the new one open. Answers the folder, opened.
    fn replace_whole(&mut self, name: &String, from: &[u8]) -> io::Result<R::File>
        ensures { self.new.faults ≡ self.old.faults }
    {
        self.hold_replaced(name)?;
        // All memory is taken before the old file goes.
        let name_kept = name.clone()?;
        self.kept.make_room()?;
        let NewFile { opened, folder } = replace_file(
            self.alloc,
            &self.files,
            name,
            from,
            self.lock,
        )?;
        let _ = self.kept.keep(name_kept, opened);
        Ok(folder)
    }

    /// Opens the file that is to be replaced, if there is one. Nothing is replaced once a lock was refused.
    fn hold_replaced(&mut self, name: &String) -> io::Result<()>
        ensures { self.new.faults ≡ self.old.faults }
    {
        if self.in_use.is_some() {
            return Err(io::Error::from(ErrorKind::WouldBlock));
        }
        self.hold(name)?;
        if self.kept.has(name) {
            self.kept.named(&self.files, name)?;
        }
        Ok(())
    }

    /// Counts an outcome that is an error.
    fn counted<T: Drop>(&mut self, outcome: io::Result<T>) -> Result<T, Failed>
        ensures value { IfOk result (λ value. outcome ≡ Ok value) }
        ensures cause { HasCause result self.old.faults self.new.faults }
    {
        match outcome {
            Ok(value) => Ok(value),
            Err(_) => {
                self.faults = self.faults.saturating_add(1);
                Err(Failed)
            }
        }
    }
}

impl<R: Files + Drop> Host for OsHost<R>
where
    R::File: HostFile,
{
    ghost use Rattle.std.specs.FinMap.{empty};

    ghost files = { λ _. None };

    ghost asked = { λ _. empty };

    ghost faults = { λ host. host.faults };

    fn size(&mut self, name: &String) -> Result<Option<u64>, Failed> {
        let outcome = self.size_of(name);
        self.counted(outcome)
    }

    fn read_at(&mut self, name: &String, off: u64, into: &mut [u8]) -> Result<usize, Failed> {
        let outcome = self.read_piece(name, off, into);
        self.counted(outcome)
    }

    fn write_at(&mut self, name: &String, off: u64, from: &[u8]) -> Result<(), Failed> {
        let outcome = self.write_piece(name, off, from);
        self.counted(outcome)
    }

    fn sync(&mut self, name: &String) -> Result<(), Failed> {
        let outcome = self.sync_file(name);
        self.counted(outcome)
    }

    fn replace(&mut self, name: &String, from: &[u8]) -> Result<(), Failed> {
        let outcome = self.replace_whole(name, from);
        let folder = self.counted(outcome)?;
        // The new file is there. That its folder cannot be synced is counted, and doesn't bring the old one back.
        let synced = folder.sync_all();
        let _ = self.counted(synced);
        Ok(())
    }

    fn faults(&self) -> u64 {
        self.faults
    }
}
