//! What a session with a host has beside that: what stands in its folder, what came of it, and what needs neither.

use crate::folder::tell_names;
use crate::host_calls::tell_both;
use crate::other_hosts::OtherHosts;
use crate::streams::{Input, read_as_said, write_as_said};
use crate::watch::{Call, Trouble, Watch};
use rio_os::folder_of;
use std::alloc::{AllocError, Global};
use std::fs::{self, File};
use std::io::{self, Read};
use std::rt::Files;
use std::str::from_utf8;
use test_scripts::{first_word, tell_line};

/// The folder of a session.
#[derive(Drop)]
pub struct Place<'a> {
    rt: HostRuntime,
    /// The descriptor of a pipe.
    pipe: i32,
    folder: &'a str,
    /// The watch over the files of the host.
    watch: &'a Watch,
    /// The file that is held open.
    held: Option<File>,
    /// The hosts of other runs.
    others: OtherHosts,
}

impl<'a> Place<'a> {
    /// No file is held open.
    pub fn new(rt: HostRuntime, pipe: i32, folder: &'a str, watch: &'a Watch) -> Place<'a> {
        Place {
            rt,
            pipe,
            folder,
            watch,
            held: None,
            others: OtherHosts::new(rt),
        }
    }

    /// The path of a name: in the folder, and of one that begins with two slashes from the root on. One that begins with
    /// one slash is a path itself.
    pub fn path_of(&self, name: &str) -> Result<String, AllocError> {
        if let Some(name) = name.strip_prefix("//") {
            return self.path_behind("/proc/self/cwd/", name);
        }
        if name.starts_with('/') {
            return String::from_str(self.rt.alloc(), name);
        }
        self.path_behind("", name)
    }

    /// The path of a name in the folder, behind another text.
    fn path_behind(&self, front: &str, name: &str) -> Result<String, AllocError> {
        format!(in self.rt.alloc(); "{front}{}/{name}", self.folder)
    }

    /// Does what a word says, or tells what it asks.
    pub fn act(&mut self, word: &str, rest: &str, out: &mut Vec<u8>) -> Result<(), AllocError> {
        match word {
            "==" => Ok(()),
            "source" => read_as_said(self.rt.alloc(), Input::Bare, rest, out),
            "typed" => read_as_said(self.rt.alloc(), Input::Terminal, rest, out),
            "piped" => read_as_said(self.rt.alloc(), Input::Pipe, rest, out),
            "sink" => write_as_said(self.rt.alloc(), rest, out),
            "folder-of" => tell_folder(self.rt.alloc(), rest, out),
            "watch" => {
                self.watch.begin();
                Ok(())
            }
            "overtake" => {
                self.watch.plan_overtaking();
                Ok(())
            }
            "begin" => self.others.begin(rest, out),
            "end" => {
                self.others.end(rest);
                Ok(())
            }
            "launch" => self.launch(rest),
            "complaint" => self.tell_complaint(rest, out),
            "by" => self.call_other(rest, out),
            "trouble" => add_trouble(self.watch, rest, out),
            "calls" => self.watch.tell_calls(out),
            "names" => tell_names(self.rt, self.folder, out),
            "held" => self.tell_held(out),
            _ => self.act_on(word, rest, out),
        }
    }

    /// Begins the host for a command: the host's name, and the words of the command. A word behind `@` names a file.
    fn launch(&mut self, rest: &str) -> Result<(), AllocError> {
        let (host, rest) = first_word(rest);
        let mut words = Vec::new(self.rt.alloc());
        for word in rest.split(' ') {
            words.push(match word.strip_prefix('@') {
                Some(name) => self.path_of(name)?,
                None => String::from_str(self.rt.alloc(), word)?,
            })?;
        }
        self.others.launch(host, &words)
    }

    /// Tells what a run over another host would say of a file in use, with the folder left out.
    fn tell_complaint(&mut self, host: &str, out: &mut Vec<u8>) -> Result<(), AllocError> {
        let text = self.others.complaint(host);
        let Ok(text) = from_utf8(text.as_slice()) else {
            return tell_line(out, b"no text");
        };
        match text.trim_end().split_once(self.folder) {
            Some((before, behind)) => tell_both(before.as_bytes(), behind.as_bytes(), out),
            None => tell_line(out, text.as_bytes()),
        }
    }

    /// Makes the call of another host that a line says: the host, the call, and the rest as in a call of the first host.
    fn call_other(&mut self, rest: &str, out: &mut Vec<u8>) -> Result<(), AllocError> {
        let (host, rest) = first_word(rest);
        let (word, rest) = first_word(rest);
        let (name, rest) = first_word(rest);
        let path = self.path_of(name)?;
        self.others.call(host, word, &path, rest, out)
    }

    /// Does what a word says of the file that is named behind it.
    fn act_on(&mut self, word: &str, rest: &str, out: &mut Vec<u8>) -> Result<(), AllocError> {
        let (name, rest) = first_word(rest);
        let path = self.path_of(name)?;
        self.act_at(word, path.as_str(), rest, out)
    }

    /// Does what a word says of the file at a path.
    fn act_at(
        &mut self,
        word: &str,
        path: &str,
        rest: &str,
        out: &mut Vec<u8>,
    ) -> Result<(), AllocError> {
        match word {
            "file" => tell_failure(fs::write(&self.rt, path, rest), out),
            "folder" => tell_failure(self.rt.create_dir(path), out),
            "link" => tell_failure(self.rt.symlink(rest, path), out),
            "pipe" => self.link_pipe(path, out),
            "hold" => self.hold(path, out),
            "gone" => tell_failure(self.rt.remove_file(path), out),
            "move" => self.give_name(path, rest, out),
            "bytes" => tell_bytes(self.rt, path, out),
            "is-file" => tell_whether_file(self.rt, path, out),
            _ => tell_line(out, b"no such word"),
        }
    }

    /// Makes a link to the pipe, which a wrong body would take away.
    fn link_pipe(&self, path: &str, out: &mut Vec<u8>) -> Result<(), AllocError> {
        let target = format!(in self.rt.alloc(); "/proc/self/fd/{}", self.pipe)?;
        tell_failure(self.rt.symlink(target.as_str(), path), out)
    }

    /// Gives a file another name.
    fn give_name(&self, path: &str, name: &str, out: &mut Vec<u8>) -> Result<(), AllocError> {
        let to = self.path_of(name)?;
        tell_failure(self.rt.rename(path, to.as_str()), out)
    }

    /// Opens a file, and holds it open.
    fn hold(&mut self, path: &str, out: &mut Vec<u8>) -> Result<(), AllocError> {
        match fs::open(&self.rt, path) {
            Ok(file) => {
                self.held = Some(file);
                Ok(())
            }
            Err(_) => tell_line(out, b"no file"),
        }
    }

    /// Tells what the file has that is held open, from its beginning.
    fn tell_held(&mut self, out: &mut Vec<u8>) -> Result<(), AllocError> {
        match &mut self.held {
            Some(file) => tell_all_of(file, out),
            None => tell_line(out, b"no file is held"),
        }
    }
}

/// Tells where something failed that a session needs.
fn tell_failure(outcome: io::Result<()>, out: &mut Vec<u8>) -> Result<(), AllocError> {
    match outcome {
        Ok(()) => Ok(()),
        Err(_) => tell_line(out, b"cannot be done"),
    }
}

/// The next call of the kind that is named meets a trouble, once those before it were met.
fn add_trouble(watch: &Watch, rest: &str, out: &mut Vec<u8>) -> Result<(), AllocError> {
    let (name, trouble) = first_word(rest);
    match Call::named(name) {
        Some(call) => watch.add_trouble(call, Trouble::said(trouble)?),
        None => tell_line(out, b"no such call"),
    }
}

/// Tells what a file has.
fn tell_bytes(rt: HostRuntime, path: &str, out: &mut Vec<u8>) -> Result<(), AllocError> {
    match fs::open(&rt, path) {
        Ok(mut file) => tell_all_of(&mut file, out),
        Err(_) => tell_line(out, b"no file"),
    }
}

/// Tells what is read to the end.
fn tell_all_of(file: &mut File, out: &mut Vec<u8>) -> Result<(), AllocError> {
    let mut bytes = Vec::new(*out.allocator());
    match file.read_to_end(&mut bytes) {
        Ok(_) => tell_line(out, bytes.as_slice()),
        Err(_) => tell_line(out, b"cannot be read"),
    }
}

/// Tells whether there is a file under a name, and no link or folder.
fn tell_whether_file(rt: HostRuntime, path: &str, out: &mut Vec<u8>) -> Result<(), AllocError> {
    match rt.symlink_metadata(path) {
        Ok(metadata) if metadata.is_file() => tell_line(out, b"yes"),
        Ok(_) => tell_line(out, b"no"),
        Err(_) => tell_line(out, b"nothing is there"),
    }
}

/// Tells the folder of a name.
fn tell_folder(alloc: Global, name: &str, out: &mut Vec<u8>) -> Result<(), AllocError> {
    let name = String::from_str(alloc, name)?;
    tell_line(out, folder_of(&name).as_bytes())
}
