//! Command lines, and what each is read as.

use rio_words::{RioCommand, WordsFail, read_words};
use std::alloc::{AllocError, Global};

/// What a line of the script says of words of a command line: what they are read as, or `usage`. None where it is no such line.
pub(crate) fn command_of(alloc: Global, line: &str) -> Result<Option<String>, AllocError> {
    match words_of(alloc, line)? {
        Some(words) => Ok(Some(said(alloc, read_words(alloc, &words))?)),
        None => Ok(None),
    }
}

/// The words of a line of the script that has some to be read.
fn words_of(alloc: Global, line: &str) -> Result<Option<Vec<String>>, AllocError> {
    let mut words = Vec::new(alloc);
    if line == "$" {
        return Ok(Some(words));
    }
    let Some(text) = line.strip_prefix("$ ") else {
        return Ok(None);
    };
    for word in text.split(' ') {
        words.push(String::from_str(alloc, word)?)?;
    }
    Ok(Some(words))
}

/// What came of words, as text.
fn said(alloc: Global, read: Result<RioCommand, WordsFail>) -> Result<String, AllocError> {
    match read {
        Ok(command) => command_text(alloc, &command),
        Err(WordsFail::Usage) => String::from_str(alloc, "usage"),
        Err(WordsFail::Memory) => Err(AllocError),
    }
}

/// A command as text: its files, and its numbers by name.
fn command_text(alloc: Global, command: &RioCommand) -> Result<String, AllocError> {
    match command {
        RioCommand::Format {
            image,
            disk,
            frames,
            blocks,
            inodes,
            scratch,
        } => {
            let files = format!(in alloc; "format {} {}", image.text(), disk.text())?;
            format!(in alloc;
                "{files} frames {frames} blocks {blocks} inodes {inodes} scratch {scratch}"
            )
        }
        RioCommand::Serve { image, disk, stop } => {
            format!(in alloc; "serve {} {} stop {stop:?}", image.text(), disk.text())
        }
        RioCommand::Registry { image } => format!(in alloc; "registry {}", image.text()),
        RioCommand::Check { image, disk } => {
            format!(in alloc; "check {} {}", image.text(), disk.text())
        }
        RioCommand::Drill {
            seed,
            boots,
            requests,
        } => { format!(in alloc; "drill seed {seed} boots {boots} requests {requests}") }
    }
}
