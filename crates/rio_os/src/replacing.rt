//! Files of the system replaced whole.

use crate::file_lock::{FileLock, HostFile};
use crate::opening::OpenedFile;
use std::alloc::Global;
use std::fs::{self, OpenFile, OpenOptions};
use std::io::{self, ErrorKind, Write};
use std::rt::Files;

/// How many names are tried for a new file beside an old one. A run that is killed leaves one of them behind.
const TRIES: u32 = 1_000_000;

/// A file that was written anew and has its name.
#[derive(Drop)]
pub(crate) struct NewFile<F: Drop> {
    /// The file, open and locked.
    pub(crate) opened: OpenedFile<F>,
    /// Its folder, open.
    pub(crate) folder: F,
}

/// Writes a new file beside the old one, brings it to the device, takes its lock, and gives it the old one's name. So no other
/// run finds it without its lock. Where this fails the old file is as it was, and the new one is gone.
pub(crate) fn replace_file<R: Files>(
    alloc: Global,
    files: &R,
    name: &String,
    from: &[u8],
    lock: Option<FileLock>,
) -> io::Result<NewFile<R::File>>
where
    R::File: HostFile,
{
    let folder = folder_of(name);
    let open_folder = fs::open(files, folder)?;
    let (beside, file) = new_file(alloc, files, folder)?;
    let moved = match written_and_locked(file, from, lock) {
        Ok(opened) => match files.rename(beside.as_str(), name.as_str()) {
            Ok(()) => Ok(opened),
            Err(error) => Err(error),
        },
        Err(error) => Err(error),
    };
    match moved {
        Ok(opened) => Ok(NewFile {
            opened,
            folder: open_folder,
        }),
        Err(error) => {
            let _ = files.remove_file(beside.as_str());
            Err(error)
        }
    }
}

/// The folder of a file, as a path.
pub fn folder_of(name: &String) -> &str {
    match name.as_str().rsplit_once('/') {
        None => ".",
        Some(("", _)) => "/",
        Some((folder, _)) => folder,
    }
}

/// A file that was made in a folder where none of its name was, and its path.
fn new_file<R: Files>(alloc: Global, files: &R, folder: &str) -> io::Result<(String, R::File)> {
    for number in 0..TRIES {
        let path = format!(in alloc; "{folder}/.rio-new-{number}")?;
        match OpenOptions::new()
            .read(true)
            .write(true)
            .create_new(true)
            .open(files, path.as_str())
        {
            Ok(file) => return Ok((path, file)),
            Err(error) if error.kind() == ErrorKind::AlreadyExists => {}
            Err(error) => return Err(error),
        }
    }
    Err(io::Error::from(ErrorKind::AlreadyExists))
}

/// Writes the bytes of a new file, brings them to the device, and takes its lock.
fn written_and_locked<F: Write + HostFile + Drop>(
    mut file: F,
    from: &[u8],
    lock: Option<FileLock>,
) -> io::Result<OpenedFile<F>> {
    file.write_all(from)?;
    file.sync_all()?;
    OpenedFile::locked(file, lock)
}
