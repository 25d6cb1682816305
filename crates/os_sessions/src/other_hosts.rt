//! Hosts beside the one of a session, as those of other runs are.

use crate::host_calls::make_call;
use rio_os::{OsHost, host_for, tell_in_use};
use std::alloc::AllocError;
use test_scripts::{first_word, tell_line, tell_shown};

/// A host, and how a script names it.
#[derive(Drop)]
struct OtherHost {
    name: String,
    host: OsHost<HostRuntime>,
}

/// The hosts that a session has begun and not ended.
#[derive(Drop)]
pub struct OtherHosts {
    rt: HostRuntime,
    hosts: Vec<OtherHost>,
}

impl OtherHosts {
    /// None has begun.
    pub fn new(rt: HostRuntime) -> OtherHosts {
        OtherHosts {
            rt,
            hosts: Vec::new(rt.alloc()),
        }
    }

    /// Begins a host: its name, and which locks it takes.
    pub fn begin(&mut self, rest: &str, out: &mut Vec<u8>) -> Result<(), AllocError> {
        let (name, locks) = first_word(rest);
        let host = match locks {
            "exclusive" => OsHost::new(self.rt.alloc(), self.rt),
            "shared" => OsHost::sharing(self.rt.alloc(), self.rt),
            "beside" => OsHost::beside_locked(self.rt.alloc(), self.rt),
            _ => return tell_line(out, b"no such locks"),
        };
        self.add(name, host)
    }

    /// Begins the host for the command of these words.
    pub fn launch(&mut self, name: &str, words: &Vec<String>) -> Result<(), AllocError> {
        let host = host_for(self.rt.alloc(), self.rt, words)?;
        self.add(name, host)
    }

    fn add(&mut self, name: &str, host: OsHost<HostRuntime>) -> Result<(), AllocError> {
        let name = String::from_str(self.rt.alloc(), name)?;
        Ok(self.hosts.push(OtherHost { name, host })?)
    }

    /// Ends a host, with all that it holds.
    pub fn end(&mut self, name: &str) {
        self.hosts.retain(|other| other.name.as_str() != name);
    }

    /// The host of this name.
    fn named(&mut self, name: &str) -> Option<&mut OsHost<HostRuntime>> {
        for other in self.hosts.iter_mut() {
            if other.name.as_str() == name {
                return Some(&mut other.host);
            }
        }
        None
    }

    /// Makes a call of a host, and tells what it answered.
    pub fn call(
        &mut self,
        host: &str,
        word: &str,
        path: &String,
        rest: &str,
        out: &mut Vec<u8>,
    ) -> Result<(), AllocError> {
        match (self.named(host), word) {
            (None, _) => tell_line(out, b"no such host"),
            (Some(host), "reserve") => tell_shown(out, &host.reserve(path)),
            (Some(host), _) => make_call(host, word, path, rest, out),
        }
    }

    /// What a run over a host would say of a file in use.
    pub fn complaint(&mut self, host: &str) -> Vec<u8> {
        let mut text = Vec::new(self.rt.alloc());
        if let Some(host) = self.named(host) {
            tell_in_use(host, &mut text);
        }
        text
    }
}
