//! Runs of the program over a host.

use machine_bench::BoardBench;
use rio_base::Host;
use rio_server::run;
use std::alloc::AllocError;
use test_objects::{MemSink, MemSource};
use test_scripts::{first_word, tell, tell_number};

/// Runs the program over a host on these words and what a source has. Tells what it wrote and its status.
pub fn tell_run<H: Host + Drop>(
    host: H,
    words: &Vec<String>,
    source: &mut MemSource,
    out: &mut Vec<u8>,
) -> Result<(), AllocError> {
    let mut sink = MemSink::new(*out.allocator());
    let status = run_into(host, words, source, &mut sink);
    tell_end(sink.bytes().as_slice(), status, out)
}

/// Runs the program, which writes into a sink. Answers its status.
fn run_into<H: Host + Drop>(
    host: H,
    words: &Vec<String>,
    source: &mut MemSource,
    sink: &mut MemSink,
) -> u8 {
    let mut bench = BoardBench::new();
    let alloc = *words.allocator();
    let (status, _host) = run(alloc, words, source, sink, host, &mut bench);
    status
}

/// Tells what a run wrote and its status.
fn tell_end(text: &[u8], status: u8, out: &mut Vec<u8>) -> Result<(), AllocError> {
    tell(out, text)?;
    tell_number(out, "status ", u64::from(status))
}

/// Puts the words of a command behind others. It has one space between them, and an empty one has none.
pub fn push_words(words: &mut Vec<String>, command: &str) -> Result<(), AllocError> {
    let mut rest = command;
    for _ in 0..command.len() {
        let (word, next) = first_word(rest);
        words.push(String::from_str(*words.allocator(), word)?)?;
        if word.len() == rest.len() {
            return Ok(());
        }
        rest = next;
    }
    Ok(())
}
