//! Files of the system looked at and opened.

use crate::file_lock::{FileLock, HostFile};
use std::fs::{self, Metadata, OpenFile, OpenOptions};
use std::io::{self, ErrorKind};
use std::os::unix::fs::MetadataExt;
use std::rt::Files;

/// How often a file is opened whose name goes to another one meanwhile.
const OPENINGS: u32 = 100;

/// What tells a file from all others, whatever its names are.
#[derive(Clone, Copy, PartialEq, Eq)]
pub(crate) struct FileId {
    device: u64,
    inode: u64,
}

impl FileId {
    /// The file that was looked at.
    pub(crate) fn of(metadata: &Metadata) -> FileId {
        FileId {
            device: metadata.dev(),
            inode: metadata.ino(),
        }
    }
}

/// A file that is open, with its lock where it has one.
#[derive(Drop)]
pub(crate) struct OpenedFile<F: Drop> {
    pub(crate) file: F,
    pub(crate) id: FileId,
}

impl<F: HostFile + Drop> OpenedFile<F> {
    /// Takes the lock of a file that was opened.
    pub(crate) fn locked(file: F, lock: Option<FileLock>) -> io::Result<OpenedFile<F>> {
        if let Some(lock) = lock {
            file.take_lock(lock)?;
        }
        let id = FileId::of(&file.metadata()?);
        Ok(OpenedFile { file, id })
    }
}

/// What stands under a name, or `None` where there is nothing or no folder for it.
pub(crate) fn looked_at<R: Files>(files: &R, name: &String) -> io::Result<Option<Metadata>> {
    match files.metadata(name.as_str()) {
        Ok(metadata) => Ok(Some(metadata)),
        Err(error) if is_absence(error.kind()) => Ok(None),
        Err(error) => Err(error),
    }
}

/// Whether an error says that a file or its folder isn't there.
fn is_absence(kind: ErrorKind) -> bool {
    matches!(kind, ErrorKind::NotFound | ErrorKind::NotADirectory)
}

/// Whether a name is that of this file.
pub(crate) fn is_named<R: Files>(files: &R, name: &String, id: FileId) -> io::Result<bool> {
    match looked_at(files, name)? {
        Some(metadata) => Ok(FileId::of(&metadata) == id),
        None => Ok(false),
    }
}

/// Opens a file and takes its lock. The name can go to a new file between the two, whose lock another run has: then the old file
/// is let go of and the new one is opened.
pub(crate) fn open_locked<R: Files>(
    files: &R,
    name: &String,
    lock: Option<FileLock>,
) -> io::Result<OpenedFile<R::File>>
where
    R::File: HostFile,
{
    for _ in 0..OPENINGS {
        let opened = OpenedFile::locked(open_for(files, name, lock)?, lock)?;
        if is_named(files, name, opened.id)? {
            return Ok(opened);
        }
    }
    Err(io::Error::from(ErrorKind::ResourceBusy))
}

/// Makes an empty file and takes its lock. One that is there meanwhile is an error.
pub(crate) fn make_locked<R: Files>(
    files: &R,
    name: &String,
    lock: Option<FileLock>,
) -> io::Result<OpenedFile<R::File>>
where
    R::File: HostFile,
{
    let file = OpenOptions::new()
        .read(true)
        .write(true)
        .create_new(true)
        .open(files, name.as_str())?;
    OpenedFile::locked(file, lock)
}

/// Opens a file for what its lock is for: with a shared one to be read, and else to be written too. One that is protected
/// against that can be read all the same, and each write of it fails.
fn open_for<R: Files>(files: &R, name: &String, lock: Option<FileLock>) -> io::Result<R::File> {
    if lock == Some(FileLock::Shared) {
        return fs::open(files, name.as_str());
    }
    match OpenOptions::new()
        .read(true)
        .write(true)
        .open(files, name.as_str())
    {
        Err(error) if is_protection(error.kind()) => fs::open(files, name.as_str()),
        outcome => outcome,
    }
}

/// Whether an error says that a file may not be written.
fn is_protection(kind: ErrorKind) -> bool {
    matches!(
        kind,
        ErrorKind::PermissionDenied | ErrorKind::ReadOnlyFilesystem
    )
}
