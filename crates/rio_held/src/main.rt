//! `rio_held`, which is `rio` with a memory that is in the file IMAGE as soon as it is stored: what `./rio serve` starts.
#![tactic(auto)]

use held_memory::{HostFile, KeptFile};
use held_runs::{run_held, served_image};
use rio_base::Host;
use rio_os::{
    InputSource, OsHost, OutputSink, TerminalInput, can_write, command_words, host_for, tell_in_use,
};
use rio_server::end_without_memory;
use std::io::{self, Write};
use std::process::ExitCode;
use std::rt::Files;

fn main(rt: HostRuntime) -> ExitCode {
    let mut sink = OutputSink::new(rt.stdout());
    let words = match command_words(&rt, rt.alloc()) {
        Ok(words) => words,
        Err(fail) if fail.kind() == io::ErrorKind::OutOfMemory => {
            return ExitCode::from(end_without_memory(&mut sink));
        }
        // A word that isn't UTF-8 stands in no command, and no words are none either.
        Err(_) => Vec::new(rt.alloc()),
    };
    let Ok(host) = host_for(rt.alloc(), &rt, &words) else {
        return ExitCode::from(end_without_memory(&mut sink));
    };
    let mut errors = rt.stderr();
    if let Some(image) = served_image(rt.alloc(), &words) {
        tell_unwritable(&rt, &image, &mut errors);
    }
    let beside = OsHost::beside_locked(rt.alloc(), &rt);
    let mut source = InputSource::new(TerminalInput::new(rt.stdin()));
    let run = run_held(rt.alloc(), &words, &mut source, &mut sink, host, beside);
    tell_in_use(&run.host, &mut errors);
    if let Some(kept) = &run.kept {
        tell_unheld(kept, run.status, &mut errors);
    }
    ExitCode::from(run.status)
}

/// Says before the run that its memory cannot be held in the file, if that is so.
fn tell_unwritable<R: Files, W: Write>(files: &R, image: &String, errors: &mut W) {
    if !can_write(files, image) {
        let _ = writeln!(
            errors,
            "rio: {image} cannot be written: a kill would lose what is answered from here on"
        );
    }
}

/// The status of a run whose image could not be saved.
const UNSAVED: u8 = 7;

/// Says that the file did not follow memory, if that is so, and what it is now. That it cannot be said changes nothing.
fn tell_unheld<H: Host + Drop, W: Write>(kept: &KeptFile<HostFile<H>>, status: u8, errors: &mut W) {
    if kept.holds {
        return;
    }
    let now = match status {
        UNSAVED => "under its name it may not have all of memory",
        _ => "it was written whole at the end",
    };
    let name = kept.file.name();
    let failures = kept.failures;
    let _ = writeln!(
        errors,
        "rio: {name} could not be kept in step with memory ({failures} failed calls): {now}"
    );
}
