//! A session with a disk that is a file: lines of a script make the file, open it, call the disk, and ask what came.

use crate::disk_calls::call;
use block_disk::{HostDisk, HostDiskFail};
use rio_base::{DiskBlocks, Host};
use rio_os::{HostFile, OsHost};
use std::alloc::{AllocError, Global};
use std::fs;
use std::io::{self, Read};
use std::rt::Files;
use test_scripts::{first_word, number, tell_line, tell_shown};

/// The one file of a session.
const FILE: &str = "disk";

/// Tells what the lines of a script come to. There is no file and no disk at first. An empty line and one that begins with `#` say
/// nothing.
pub fn tell_script<F: Files + Copy + Drop>(
    files: F,
    script: &str,
    out: &mut Vec<u8>,
) -> Result<(), AllocError>
where
    F::File: HostFile,
{
    let mut disk = None;
    remove(&files);
    tell_lines(files, &mut disk, script, out)
}

fn tell_lines<F: Files + Copy + Drop>(
    files: F,
    disk: &mut Option<HostDisk<OsHost<F>>>,
    script: &str,
    out: &mut Vec<u8>,
) -> Result<(), AllocError>
where
    F::File: HostFile,
{
    for line in script.lines() {
        if !line.is_empty() && !line.starts_with('#') {
            step(files, disk, line, out)?;
        }
    }
    Ok(())
}

/// Does what a line of the script says. Tells the line, and behind it what it came to.
fn step<F: Files + Copy + Drop>(
    files: F,
    disk: &mut Option<HostDisk<OsHost<F>>>,
    line: &str,
    out: &mut Vec<u8>,
) -> Result<(), AllocError>
where
    F::File: HostFile,
{
    out.extend_from_slice(line.as_bytes())?;
    out.push(b'\n')?;
    let (word, rest) = first_word(line);
    match word {
        "open" => open(files, disk, out),
        _ => act(&files, disk, word, rest, out),
    }
}

/// Opens the file as a disk. Tells how many blocks it has, or why it is none.
fn open<F: Files + Drop>(
    files: F,
    disk: &mut Option<HostDisk<OsHost<F>>>,
    out: &mut Vec<u8>,
) -> Result<(), AllocError>
where
    F::File: HostFile,
{
    let alloc = *out.allocator();
    let name = String::from_str(alloc, FILE)?;
    open_over(OsHost::new(alloc, files), name, disk, out)
}

/// Opens the file of a host as a disk. Where it is none, the one that is open stays.
fn open_over<H: Host + Drop>(
    host: H,
    name: String,
    disk: &mut Option<HostDisk<H>>,
    out: &mut Vec<u8>,
) -> Result<(), AllocError> {
    match opened(*out.allocator(), host, name) {
        Ok(opened) => {
            let count = opened.count();
            *disk = Some(opened);
            tell_shown(out, &count)
        }
        Err(fail) => tell_shown(out, &fail),
    }
}

/// The file of a host as a disk, or why it is none.
fn opened<H: Host + Drop>(
    alloc: Global,
    host: H,
    name: String,
) -> Result<HostDisk<H>, HostDiskFail> {
    match HostDisk::new(alloc, host, name) {
        Ok(disk) => Ok(disk),
        Err(back) => {
            let (_host, fail) = back;
            Err(fail)
        }
    }
}

/// Does what a word says of the file, or tells what it has. Another word is that of a call of the disk.
fn act<F: Files, H: Host + Drop>(
    files: &F,
    disk: &mut Option<HostDisk<H>>,
    word: &str,
    rest: &str,
    out: &mut Vec<u8>,
) -> Result<(), AllocError> {
    match word {
        "==" => {
            remove(files);
            *disk = None;
            Ok(())
        }
        "file" => make_file(files, *out.allocator(), rest),
        "folder" => make_folder(files),
        "link" => done(files.symlink(rest, FILE)),
        "gone" => {
            remove(files);
            Ok(())
        }
        "bytes" => tell_bytes(files, out),
        _ => call(disk, word, rest, out),
    }
}

/// That a call of the system fails that makes what a session needs is an error in the script, and ends the program as want of
/// memory does.
fn done(outcome: io::Result<()>) -> Result<(), AllocError> {
    match outcome {
        Ok(()) => Ok(()),
        Err(_) => Err(AllocError),
    }
}

/// Makes the file anew, with so many bytes, each an `a`. One that is there becomes this.
fn make_file<F: Files>(files: &F, alloc: Global, size: &str) -> Result<(), AllocError> {
    let bytes = vec![in alloc; b'a'; number(size)? as usize]?;
    done(fs::write(files, FILE, bytes.as_slice()))
}

/// Makes a folder in place of the file.
fn make_folder<F: Files>(files: &F) -> Result<(), AllocError> {
    remove(files);
    done(files.create_dir(FILE))
}

/// Tells what the file has.
fn tell_bytes<F: Files>(files: &F, out: &mut Vec<u8>) -> Result<(), AllocError> {
    match fs::open(files, FILE) {
        Ok(mut file) => tell_all_of(&mut file, out),
        Err(_) => tell_line(out, b"no file"),
    }
}

/// Tells what is read to the end.
fn tell_all_of<R: Read>(file: &mut R, out: &mut Vec<u8>) -> Result<(), AllocError> {
    let mut bytes = Vec::new(*out.allocator());
    match file.read_to_end(&mut bytes) {
        Ok(_) => tell_line(out, bytes.as_slice()),
        Err(_) => tell_line(out, b"no file"),
    }
}

/// Takes away what stands under the name of the file.
fn remove<F: Files>(files: &F) {
    let _ = files.remove_file(FILE);
    let _ = files.remove_dir(FILE);
}
