//! `rio`, a file server whose files are served from request lines on standard input, with a reply line for each on
//! standard output.
#![tactic(auto)]

use machine_bench::BoardBench;
use rio_os::{InputSource, OutputSink, TerminalInput, command_words, host_for, tell_in_use};
use rio_server::{end_without_memory, run};
use std::io;
use std::process::ExitCode;

fn main(rt: HostRuntime) -> ExitCode {
    let mut sink = OutputSink::new(rt.stdout());
    let words = match command_words(&rt, rt.alloc()) {
        Ok(words) => words,
        Err(fail) if fail.kind() == io::ErrorKind::OutOfMemory => {
            return ExitCode::from(end_without_memory(&mut sink));
        }
        // A word that isn't UTF-8 stands in no command, and no words are none either.
        Err(_) => Vec::new(rt.alloc()),
    };
    let Ok(host) = host_for(rt.alloc(), &rt, &words) else {
        return ExitCode::from(end_without_memory(&mut sink));
    };
    let mut source = InputSource::new(TerminalInput::new(rt.stdin()));
    let mut bench = BoardBench::new();
    let (status, host) = run(rt.alloc(), &words, &mut source, &mut sink, host, &mut bench);
    tell_in_use(&host, &mut rt.stderr());
    ExitCode::from(status)
}
