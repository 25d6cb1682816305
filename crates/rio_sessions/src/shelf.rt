//! Files in memory, and runs of the program over them.

use crate::bytes::{put_bytes, same};
use machine_bench::{BoardBench, KeepBench};
use rio_base::Host;
use rio_server::{end_without_memory, run};
use std::alloc::{AllocError, Global};
use std::mem;
use test_objects::{MemHost, MemSink, MemSource};
use test_scripts::{first_word, tell, tell_number};

/// The names of the files of a pair.
#[derive(Drop)]
pub struct PairNames {
    image: String,
    disk: String,
}

impl PairNames {
    /// The names `m` and `d`.
    pub fn new(alloc: Global) -> Result<PairNames, AllocError> {
        let image = String::from_str(alloc, "m")?;
        Ok(PairNames {
            image,
            disk: String::from_str(alloc, "d")?,
        })
    }
}

/// The bytes of an image and of a disk.
#[derive(Drop)]
pub struct PairBytes {
    pub image: Vec<u8>,
    pub disk: Vec<u8>,
}

impl PairBytes {
    /// No byte.
    pub fn new(alloc: Global) -> PairBytes {
        PairBytes {
            image: Vec::new(alloc),
            disk: Vec::new(alloc),
        }
    }
}

/// How the streams of a run are.
#[derive(Clone, Copy)]
pub struct Streams {
    /// How many bytes the source gives at most in one call.
    pub pieces: usize,
    /// The call of the source that fails, from 1, or 0.
    pub source_fails: u64,
    /// The call of the sink that fails, from 1, or 0.
    pub sink_fails: u64,
}

/// Pieces of 4,096 bytes, and no call that fails.
pub const WHOLE: Streams = Streams {
    pieces: 4096,
    source_fails: 0,
    sink_fails: 0,
};

/// Files in memory, what the program is to be run on, and what the last run over them came to.
#[derive(Drop)]
pub struct Shelf<'a> {
    pub alloc: Global,
    names: &'a PairNames,
    pub host: MemHost,
    /// The bytes that a file had when it was kept.
    pub kept: Vec<u8>,
    words: Vec<String>,
    source: MemSource,
    sink: MemSink,
    pub status: u8,
}

impl<'a> Shelf<'a> {
    /// No file, and no run so far.
    pub fn new(alloc: Global, names: &'a PairNames) -> Result<Shelf<'a>, AllocError> {
        let source = MemSource::new(alloc, b"", 1)?;
        Ok(Shelf {
            alloc,
            names,
            host: MemHost::new(alloc),
            kept: Vec::new(alloc),
            words: Vec::new(alloc),
            source,
            sink: MemSink::new(alloc),
            status: 0,
        })
    }

    /// Has no file, and none that was kept.
    pub fn clear(&mut self) {
        self.host = MemHost::new(self.alloc);
        self.kept = Vec::new(self.alloc);
    }

    /// Has the files of a pair, and no others.
    pub fn hold(&mut self, pair: &PairBytes) -> Result<(), AllocError> {
        self.host = MemHost::new(self.alloc);
        self.host.put(&self.names.image, pair.image.as_slice())?;
        self.host.put(&self.names.disk, pair.disk.as_slice())
    }

    /// The bytes of the image.
    pub fn image(&self) -> &[u8] {
        bytes_of(&self.host, &self.names.image)
    }

    /// The bytes of the disk.
    fn disk(&self) -> &[u8] {
        bytes_of(&self.host, &self.names.disk)
    }

    /// Copies the bytes of the pair.
    pub fn copy_pair(&self, pair: &mut PairBytes) -> Result<(), AllocError> {
        put_bytes(&mut pair.image, self.image())?;
        put_bytes(&mut pair.disk, self.disk())
    }

    /// Whether the image is that of a pair.
    pub fn has_image(&self, pair: &PairBytes) -> bool {
        same(self.image(), pair.image.as_slice())
    }

    /// Whether the disk is that of a pair.
    pub fn has_disk(&self, pair: &PairBytes) -> bool {
        same(self.disk(), pair.disk.as_slice())
    }

    /// Is to run the program on the words of a command and on this input.
    pub fn ask(&mut self, command: &str, input: &[u8], streams: Streams) -> Result<(), AllocError> {
        self.words = Vec::new(self.alloc);
        push_words(&mut self.words, command)?;
        self.source = MemSource::new(self.alloc, input, streams.pieces.max(1))?;
        if streams.source_fails > 0 {
            self.source.fail_call(streams.source_fails)?;
        }
        self.have_sink(streams)
    }

    /// Has a sink that has taken nothing.
    fn have_sink(&mut self, streams: Streams) -> Result<(), AllocError> {
        self.sink = MemSink::new(self.alloc);
        if streams.sink_fails > 0 {
            return self.sink.fail_call(streams.sink_fails);
        }
        Ok(())
    }

    /// Hands the files out, and has none.
    fn take(&mut self) -> MemHost {
        mem::replace(&mut self.host, MemHost::new(self.alloc))
    }

    /// Runs the program.
    pub fn run(&mut self) {
        let mut bench = BoardBench::new();
        let host = self.take();
        let (status, host) = run(
            self.alloc,
            &self.words,
            &mut self.source,
            &mut self.sink,
            host,
            &mut bench,
        );
        self.host = host;
        self.status = status;
    }

    /// Runs the program over a bench that keeps what its machine began with and how it was left.
    pub fn run_kept(&mut self) -> KeepBench {
        let mut bench = KeepBench::new();
        let host = self.take();
        let (status, host) = run(
            self.alloc,
            &self.words,
            &mut self.source,
            &mut self.sink,
            host,
            &mut bench,
        );
        self.host = host;
        self.status = status;
        bench
    }

    /// Runs the program on the words of a command and on this input.
    pub fn serve(&mut self, command: &str, input: &[u8]) -> Result<(), AllocError> {
        self.ask(command, input, WHOLE)?;
        self.run();
        Ok(())
    }

    /// Ends a run whose words found no memory.
    pub fn end_for_memory(&mut self, streams: Streams) -> Result<(), AllocError> {
        self.have_sink(streams)?;
        self.status = end_without_memory(&mut self.sink);
        Ok(())
    }

    /// What the last run wrote.
    pub fn text(&self) -> &[u8] {
        self.sink.bytes().as_slice()
    }

    /// Tells what the last run wrote, and its status.
    pub fn tell_run(&self, out: &mut Vec<u8>) -> Result<(), AllocError> {
        tell(out, self.text())?;
        self.tell_status(out)
    }

    /// Tells the status of the last run.
    pub fn tell_status(&self, out: &mut Vec<u8>) -> Result<(), AllocError> {
        tell_number(out, "status ", u64::from(self.status))
    }

    /// Tells how many calls of the host failed.
    pub fn tell_faults(&self, out: &mut Vec<u8>) -> Result<(), AllocError> {
        tell_number(out, "", self.host.faults())
    }
}

/// The bytes of a file, or none where there is no such file.
pub fn bytes_of<'a>(host: &'a MemHost, name: &String) -> &'a [u8] {
    match host.file(name) {
        Some(bytes) => bytes.as_slice(),
        None => &[],
    }
}

/// Puts the words of a command behind others. It has one space between them, and an empty one has none.
fn push_words(words: &mut Vec<String>, command: &str) -> Result<(), AllocError> {
    let mut rest = command;
    for _ in 0..command.len() {
        let (word, next) = first_word(rest);
        words.push(String::from_str(*words.allocator(), word)?)?;
        if word.len() == rest.len() {
            return Ok(());
        }
        rest = next;
    }
    Ok(())
}
