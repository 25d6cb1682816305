//! The file of words that is a file of a host.

ghost use Rattle.std.specs.Prelude.{◌≡◌, ◌<◌, ◌≤◌, ◌+◌, ◌*◌, ◌^◌, None, IfOk, OnOk, OnErr, length};
ghost use Rattle.std.specs.String.{string_bytes};
ghost use Rattle.rio_base.specs.Bytes.{bytes_of};
ghost use Rattle.rio_base.specs.Failures.{HasCause};
ghost use Rattle.rio_base.specs.Hosts.{Overwrites, TearsWithin};
ghost use Rattle.held_memory.specs.WordFiles.{file_in};

use crate::word_file::WordFile;
use byteorder::{ByteOrder, LittleEndian};
use rio_base::{Failed, Host};
use std::alloc::{AllocError, Global};

/// Bytes of a page.
const PAGE_BYTES: usize = 4096;

/// A file of a host, to which each run of words is written by one call. It takes no memory after it is made, and tells nothing
/// of the moments within a call.
#[derive(Drop)]
pub struct HostFile<H: Host> {
    host: H,
    name: String,
    /// Room for the bytes of a run.
    room: Vec<u8>,
    ghost room_bytes: { length room.items ≡ 4096 },
}

impl<H: Host + Drop> HostFile<H> {
    /// The file of this name. The error means that there was no room for the bytes of a page.
    pub fn new(alloc: Global, host: H, name: String) -> Result<HostFile<H>, AllocError>
        ensures content { IfOk result (λ f. ⟦<HostFile<H> as WordFile>⟧.content f ≡ file_in (H.files host) (string_bytes name)) }
        ensures faults { IfOk result (λ f. ⟦<HostFile<H> as WordFile>⟧.faults f ≡ H.faults host) }
    {
        let room = vec![in alloc; 0u8; PAGE_BYTES]?;
        Ok(HostFile { host, name, room })
    }

    /// The file's name.
    pub fn name(&self) -> &String
        ensures { result.now ≡ self.now.name }
    {
        &self.name
    }

    /// The host.
    pub fn into_host(self) -> H
        ensures { result ≡ self.host }
    {
        let HostFile {
            host,
            name: _,
            room: _,
        } = self;
        host
    }
}

impl<H: Host> WordFile for HostFile<H> {
    ghost content = { λ f. file_in (H.files f.host) (string_bytes f.name) };

    ghost past = { λ f. None };

    ghost faults = { λ f. H.faults f.host };

    fn size(&mut self) -> Result<Option<u64>, Failed> {
        self.host.size(&self.name)
    }

    fn write_words(&mut self, at: u32, words: &[u64]) -> Result<(), Failed> {
        write_run(&self.name, at, words, &mut self.room, &mut self.host)
    }

    fn faults(&self) -> u64 {
        self.host.faults()
    }
}

/// Writes a run of words to its place in a file. The room is for the bytes of a page.
fn write_run<H: Host>(
    name: &String,
    at: u32,
    words: &[u64],
    room: &mut [u8],
    host: &mut H,
) -> Result<(), Failed>
    requires few { length words.now ≤ 512 }
    requires small { at + length words.now < 2 ^ 32 }
    requires room { length room.old ≡ 4096 }
    ensures room { length room.new ≡ 4096 }
    ensures ok { OnOk result (Overwrites (H.files host.old) (string_bytes name.now) (8 * at) (bytes_of words.now) (H.files host.new)) }
    ensures err { OnErr result (TearsWithin (H.files host.old) (string_bytes name.now) (8 * at) (8 * length words.now) (H.files host.new)) }
    ensures cause { HasCause result (H.faults host.old) (H.faults host.new) }
{
    write_exact(name, at, words, &mut room[..8 * words.len()], host)
}

/// Writes a run of words to its place in a file. The room is for their bytes alone.
fn write_exact<H: Host>(
    name: &String,
    at: u32,
    words: &[u64],
    room: &mut [u8],
    host: &mut H,
) -> Result<(), Failed>
    requires few { length words.now ≤ 512 }
    requires small { at + length words.now < 2 ^ 32 }
    requires room { length room.old ≡ 8 * length words.now }
    ensures room { length room.new ≡ length room.old }
    ensures ok { OnOk result (Overwrites (H.files host.old) (string_bytes name.now) (8 * at) (bytes_of words.now) (H.files host.new)) }
    ensures err { OnErr result (TearsWithin (H.files host.old) (string_bytes name.now) (8 * at) (8 * length words.now) (H.files host.new)) }
    ensures cause { HasCause result (H.faults host.old) (H.faults host.new) }
{
    LittleEndian::write_u64_into(words, room);
    host.write_at(name, 8 * u64::from(at), room)
}
