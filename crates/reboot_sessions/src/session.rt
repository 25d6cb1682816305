//! A session: lines of a script say what is at hand, boot it, and stop requests.

use crate::finder::Depth;
use crate::machines::Cut;
use crate::readings::push_line;
use crate::stops::{Stops, Way};
use crate::telling::{tell_end, tell_found};
use crate::words::Word;
use std::alloc::{AllocError, Global};
use std::time::{Duration, Instant};
use test_scripts::{
    Draws, drawn_line, expanded, first_word, number, numbers, tell, tell_line, tell_number,
};
use test_servers::Sizes;

/// How many drawn lines are made behind a reboot before the one that is stopped.
const WARM: u64 = 6;

/// How many of 16 drawn lines are on regions.
const REGIONS: u32 = 6;

/// The sizes of a fresh pair of which the script says nothing else.
const DEFAULT: Sizes = Sizes {
    frames: 32,
    blocks: 32,
    inodes: 32,
};

/// What is at hand.
#[derive(Drop)]
pub struct Session {
    rt: HostRuntime,
    /// What befalls the next machine.
    cut: Cut,
    stops: Stops,
}

impl Session {
    /// A fresh pair of 32 frames, 32 blocks and 32 inodes.
    pub fn new(rt: HostRuntime) -> Result<Session, AllocError> {
        let stops = Stops::new(rt.alloc(), DEFAULT)?;
        Ok(Session {
            rt,
            cut: Cut::Nothing,
            stops,
        })
    }

    /// Does what the lines of a script say, and tells each with what it came to.
    pub fn tell(&mut self, script: &str, out: &mut Vec<u8>) -> Result<(), AllocError> {
        for line in script.lines() {
            if !line.is_empty() && !line.starts_with('#') {
                self.step(line, out)?;
            }
        }
        Ok(())
    }

    /// Does what a line of the script says. Tells the line, and behind it what it came to.
    fn step(&mut self, line: &str, out: &mut Vec<u8>) -> Result<(), AllocError> {
        out.extend_from_slice(line.as_bytes())?;
        out.extend_from_slice(b"\n")?;
        let (word, rest) = first_word(line);
        self.act(Word::named(word), rest, out)
    }

    /// Does what a word says.
    fn act(&mut self, word: Word, rest: &str, out: &mut Vec<u8>) -> Result<(), AllocError> {
        match word {
            Word::Begin => self.begin(DEFAULT),
            Word::Line => self.take_line(rest),
            Word::Reading => push_line(&mut self.stops.finder.due.readings.lines, rest),
            Word::Undone => self.stops.finder.due.readings.undo(rest),
            Word::Boot => self.boot(out),
            Word::TimedBoot => self.boot_in_time(out),
            Word::Examine => self.examine(out),
            Word::Run => self.run(out),
            Word::Replies => self.run_alone(out),
            Word::Each => self.stop(Way::Each, rest, out),
            Word::Whole => self.stop(Way::Whole, rest, out),
            Word::Faults => self.stop(Way::Faults, rest, out),
            Word::Drawn => self.stop_drawn(rest, out),
            Word::MachinesOver => self.tell_machines(rest, out),
            Word::Other => tell_line(out, b"no such word"),
            _ => self.set(word, rest),
        }
    }

    /// Begins with a fresh pair of these sizes.
    fn begin(&mut self, sizes: Sizes) -> Result<(), AllocError> {
        self.cut = Cut::Nothing;
        self.stops.start(sizes)
    }

    /// Takes a line that is made next.
    fn take_line(&mut self, line: &str) -> Result<(), AllocError> {
        let line = line_of(self.rt.alloc(), line)?;
        push_line(&mut self.stops.lines, line.as_str())
    }

    /// Takes numbers: sizes, a word of memory or of the disk, how many reads of a block fail, or how deep stops go.
    fn set(&mut self, word: Word, rest: &str) -> Result<(), AllocError> {
        let [first, second, third] = numbers(rest)?;
        match word {
            Word::Sizes => return self.begin(Sizes::of(first, second, third)),
            Word::Memory => self.stops.pair.put_word(first, second),
            Word::Disk => self.stops.pair.put_block_word(first, second, third),
            Word::BadBlock => self.cut = reads_of(first, second),
            _ => {
                self.stops.finder.depth = Depth {
                    second: first,
                    third: second,
                }
            }
        }
        Ok(())
    }

    /// What befalls the next machine. It befalls none behind it.
    fn take_cut(&mut self) -> Cut {
        let cut = self.cut;
        self.cut = Cut::Nothing;
        cut
    }

    /// Boots the pair, and tells how that ended, and where it failed, whether it stored anything. The pair is then as this leaves
    /// it, where nothing is pending any more.
    fn boot(&mut self, out: &mut Vec<u8>) -> Result<(), AllocError> {
        let cut = self.take_cut();
        let is_kept = self.stops.boot(cut)?;
        let end = self.stops.finder.room.end;
        tell_end(out, &end)?;
        if end.is_err() && is_kept {
            return tell_line(out, b"nothing was stored");
        }
        Ok(())
    }

    /// Reboots the pair, which stays as it is, and tells how long that took.
    fn boot_in_time(&mut self, out: &mut Vec<u8>) -> Result<(), AllocError> {
        let taken = self.time_of_boot()?;
        let room = &self.stops.finder.room;
        tell_end(out, &room.end)?;
        let millis = taken.as_millis();
        let told = format!(in self.rt.alloc(); "{} steps, {millis} ms", room.steps)?;
        tell_line(out, told.as_bytes())
    }

    /// How long a reboot of the pair takes. That the clock fails ends the program as want of memory does.
    fn time_of_boot(&mut self) -> Result<Duration, AllocError> {
        let room = &mut self.stops.finder.room;
        let machine = room.machine(&self.stops.pair, Cut::Nothing, &[])?;
        let start = Instant::now(&self.rt);
        let _machine = room.serve(machine);
        match start {
            Ok(start) => elapsed(&self.rt, start),
            Err(_) => Err(AllocError),
        }
    }

    /// Looks at the pair, and tells what it finds.
    fn examine(&mut self, out: &mut Vec<u8>) -> Result<(), AllocError> {
        let looked = self.stops.finder.room.look(&self.stops.pair)?;
        tell_found(out, &looked.found)?;
        if looked.is_kept {
            return Ok(());
        }
        tell_line(out, b"something was stored")
    }

    /// Boots the pair, makes the lines, and tells the replies. The plain definition's server is not at hand any more: where the
    /// disk failed it has others.
    fn run_alone(&mut self, out: &mut Vec<u8>) -> Result<(), AllocError> {
        let cut = self.take_cut();
        self.stops.run(cut)?;
        self.stops.lines.clear();
        tell(out, self.stops.finder.room.replies())
    }

    /// Boots the pair, makes the lines, and tells the replies, and that the plain definition has others.
    fn run(&mut self, out: &mut Vec<u8>) -> Result<(), AllocError> {
        let cut = self.take_cut();
        let is_due = self.stops.run_as_defined(cut)?;
        tell(out, self.stops.finder.room.replies())?;
        tell_if_undue(out, is_due)
    }

    /// Boots the pair and makes the lines. Tells that the plain definition has other replies, and no reply.
    fn run_silently(&mut self, out: &mut Vec<u8>) -> Result<(), AllocError> {
        let cut = self.take_cut();
        let is_due = self.stops.run_as_defined(cut)?;
        tell_if_undue(out, is_due)
    }

    /// Stops a request, and tells how it is found. All is as it was afterwards, but there are no lines.
    fn stop(&mut self, way: Way, line: &str, out: &mut Vec<u8>) -> Result<(), AllocError> {
        self.stops.finder.due.request = line_of(self.rt.alloc(), line)?;
        self.stops.stop(way)?;
        self.stops.lines.clear();
        self.stops.finder.tally.tell(out)
    }

    /// Draws requests: the first numbers are a seed and how many are made before; of so many further ones each is stopped before
    /// its steps, behind some that are not.
    fn stop_drawn(&mut self, rest: &str, out: &mut Vec<u8>) -> Result<(), AllocError> {
        let [seed, from, count] = numbers(rest)?;
        let mut draws = Draws::new(seed);
        let alloc = self.rt.alloc();
        self.stops.finder.due.readings.take_drawn(alloc)?;
        self.draw(&mut draws, from)?;
        self.run_silently(out)?;
        if self.stop_each_drawn(&mut draws, count, out)? {
            return tell_line(out, b"as defined");
        }
        Ok(())
    }

    /// Draws so many requests to be stopped. Answers whether all were found in ways that are allowed alone. The others behind one that
    /// was not are not made.
    fn stop_each_drawn(
        &mut self,
        draws: &mut Draws,
        count: u64,
        out: &mut Vec<u8>,
    ) -> Result<bool, AllocError> {
        for _ in 0..count {
            if !self.stop_one_drawn(draws, out)? {
                return Ok(false);
            }
        }
        Ok(true)
    }

    /// Draws a request behind some that are not stopped, stops it before its steps and makes it. Answers whether it was found in
    /// ways that are allowed alone, and tells it otherwise.
    fn stop_one_drawn(&mut self, draws: &mut Draws, out: &mut Vec<u8>) -> Result<bool, AllocError> {
        self.draw(draws, WARM)?;
        self.stops.finder.due.request = drawn_line(self.rt.alloc(), draws, REGIONS)?;
        self.stops.stop(Way::Each)?;
        if self.stops.finder.tally.is_wrong() {
            self.tell_wrong(out)?;
            return Ok(false);
        }
        self.run_silently(out)?;
        Ok(true)
    }

    /// Tells the line of a request that was stopped, and how it was found.
    fn tell_wrong(&self, out: &mut Vec<u8>) -> Result<(), AllocError> {
        tell_line(out, self.stops.finder.due.request.as_bytes())?;
        self.stops.finder.tally.tell(out)
    }

    /// Draws so many lines, which are made next.
    fn draw(&mut self, draws: &mut Draws, count: u64) -> Result<(), AllocError> {
        for _ in 0..count {
            self.draw_one(draws)?;
        }
        Ok(())
    }

    /// Draws a line, which is made next.
    fn draw_one(&mut self, draws: &mut Draws) -> Result<(), AllocError> {
        let line = drawn_line(self.rt.alloc(), draws, REGIONS)?;
        push_line(&mut self.stops.lines, line.as_str())
    }

    /// Tells whether more than so many machines were booted that had been stopped, and else how many.
    fn tell_machines(&self, rest: &str, out: &mut Vec<u8>) -> Result<(), AllocError> {
        let machines = self.stops.finder.tally.machines;
        if machines > number(rest)? {
            return tell_line(out, b"yes");
        }
        tell_number(out, "", machines)
    }
}

/// How long ago a reading of the clock is.
fn elapsed(rt: &HostRuntime, start: Instant) -> Result<Duration, AllocError> {
    match start.elapsed(rt) {
        Ok(taken) => Ok(taken),
        Err(_) => Err(AllocError),
    }
}

/// So many reads of a block fail.
fn reads_of(block: u64, reads: u64) -> Cut {
    Cut::Reads(u32::try_from(block).unwrap_or(u32::MAX), reads)
}

/// Tells replies that the plain definition does not have.
fn tell_if_undue(out: &mut Vec<u8>, is_due: bool) -> Result<(), AllocError> {
    if is_due {
        return Ok(());
    }
    tell_line(out, b"not as defined")
}

/// The line that a script says in short.
fn line_of(alloc: Global, line: &str) -> Result<String, AllocError> {
    match String::from_utf8(expanded(alloc, line)?) {
        Ok(line) => Ok(line),
        Err(_) => Err(AllocError),
    }
}
