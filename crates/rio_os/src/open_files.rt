//! The files that a host keeps open.

use crate::file_lock::HostFile;
use crate::opening::{FileId, OpenedFile, is_named};
use std::alloc::{AllocError, Global};
use std::io::{self, ErrorKind};
use std::os::unix::fs::MetadataExt;
use std::rt::Files;

/// A file that is kept open, and the name under which it was asked for last.
#[derive(Drop)]
struct Kept<F: Drop> {
    name: String,
    opened: OpenedFile<F>,
}

/// Files that are kept open, each once.
#[derive(Drop)]
pub(crate) struct OpenFiles<F: Drop> {
    kept: Vec<Kept<F>>,
}

impl<F: HostFile + Drop> OpenFiles<F> {
    /// No file is open yet.
    pub(crate) fn new(alloc: Global) -> OpenFiles<F> {
        OpenFiles {
            kept: Vec::new(alloc),
        }
    }

    /// The open file of this name.
    fn find(&self, name: &String) -> Option<&OpenedFile<F>> {
        for kept in self.kept.iter() {
            if kept.name == *name {
                return Some(&kept.opened);
            }
        }
        None
    }

    /// Whether a file of this name is open.
    pub(crate) fn has(&self, name: &String) -> bool {
        self.find(name).is_some()
    }

    /// The open file of this name, whether or not that still is its name.
    pub(crate) fn open(&self, name: &String) -> io::Result<&F> {
        match self.find(name) {
            Some(opened) => Ok(&opened.file),
            None => Err(io::Error::from(ErrorKind::NotFound)),
        }
    }

    /// The open file of this name, if that still is its name.
    pub(crate) fn named<R: Files>(&self, files: &R, name: &String) -> io::Result<&F> {
        let Some(opened) = self.find(name) else {
            return Err(io::Error::from(ErrorKind::NotFound));
        };
        if !is_named(files, name, opened.id)? {
            return Err(io::Error::from(ErrorKind::StaleNetworkFileHandle));
        }
        Ok(&opened.file)
    }

    /// The open file of this name, unless it was removed or replaced since. That takes one call of the system: a file without any name is
    /// told by itself. So a file that was only moved is still found here, as it was.
    pub(crate) fn current<R: Files>(&self, files: &R, name: &String) -> io::Result<&F> {
        match self.find(name) {
            Some(opened) if opened.file.metadata()?.nlink() > 0 => Ok(&opened.file),
            _ => self.named(files, name),
        }
    }

    /// Gives an open file another name. Answers whether this one is open.
    pub(crate) fn rename(&mut self, id: FileId, name: &String) -> Result<bool, AllocError> {
        for kept in self.kept.iter_mut() {
            if kept.opened.id == id {
                kept.name = name.clone()?;
                return Ok(true);
            }
        }
        Ok(false)
    }

    /// Takes the memory for one more file, so that the next one can be kept.
    pub(crate) fn make_room(&mut self) -> Result<(), AllocError> {
        self.kept.reserve(1)
    }

    /// Keeps a file under a name, in place of the one that has it.
    pub(crate) fn keep(&mut self, name: String, opened: OpenedFile<F>) -> Result<(), AllocError> {
        for kept in self.kept.iter_mut() {
            if kept.name == name {
                kept.opened = opened;
                return Ok(());
            }
        }
        Ok(self.kept.push(Kept { name, opened })?)
    }
}
