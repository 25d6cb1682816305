//! What a program of this host does before and after its run.

use crate::file_lock::{FileLock, HostFile};
use crate::os_host::OsHost;
use rio_words::{RioCommand, WordsFail, read_words};
use std::alloc::{AllocError, Global};
use std::env;
use std::fs::OpenOptions;
use std::io::{self, Write};
use std::rt::{Env, Files};

/// The words after the program's name. An error of the kind `OutOfMemory` is want of memory, and any other one a word that is
/// no text, or none at all, not even the name.
pub fn command_words(rt: &(impl Env + AllocGlobal), alloc: Global) -> io::Result<Vec<String>> {
    let mut words = Vec::new(alloc);
    for word in env::args(rt)?.skip(1) {
        words.push(word)?;
    }
    Ok(words)
}

/// The host for the command of these words. A command that changes no file shares the files with others like it. What makes a pair
/// anew has both files reserved, so that none of the two is replaced while the other one is in use.
pub fn host_for<R: Files + Drop>(
    alloc: Global,
    files: R,
    words: &Vec<String>,
) -> Result<OsHost<R>, AllocError>
where
    R::File: HostFile,
{
    match read_words(alloc, words) {
        Ok(command) => Ok(host_of(alloc, files, &command)),
        // Words that are no command ask nothing of the host.
        Err(WordsFail::Usage) => Ok(OsHost::new(alloc, files)),
        Err(WordsFail::Memory) => Err(AllocError),
    }
}

/// The host for a command.
fn host_of<R: Files + Drop>(alloc: Global, files: R, command: &RioCommand) -> OsHost<R>
where
    R::File: HostFile,
{
    match command {
        RioCommand::Registry { .. } | RioCommand::Check { .. } => OsHost::sharing(alloc, files),
        RioCommand::Serve { .. } | RioCommand::Drill { .. } => OsHost::new(alloc, files),
        RioCommand::Format { image, disk, .. } => {
            let mut host = OsHost::new(alloc, files);
            // IMAGE first, as `serve` looks at them: so of two runs one has both. What comes of it the host keeps: where a lock was
            // refused, it replaces nothing.
            if host.reserve(image.text()).is_ok() {
                let _ = host.reserve(disk.text());
            }
            host
        }
    }
}

/// Whether a file may be written. One that is not there may, and so may what is no file: a run on such a name ends otherwise.
pub fn can_write<R: Files>(files: &R, name: &String) -> bool {
    match files.metadata(name.as_str()) {
        Ok(found) if found.is_file() => OpenOptions::new()
            .write(true)
            .open(files, name.as_str())
            .is_ok(),
        _ => true,
    }
}

/// Says which file another run had in use, if that is why a run failed. That it cannot be said changes nothing.
pub fn tell_in_use<R: Files + Drop, W: Write>(host: &OsHost<R>, errors: &mut W)
where
    R::File: HostFile,
{
    if let Some(name) = host.in_use() {
        let _ = writeln!(errors, "rio: {name} is in use by another run");
    }
}
