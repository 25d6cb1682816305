//! How a request is found after its stops.

use crate::due::Found;
use std::alloc::{AllocError, Global};
use test_scripts::{tell_line, tell_number};

/// What came of the machines that were stopped.
#[derive(Drop)]
pub struct Tally {
    /// How many stops there were.
    pub stops: u64,
    /// The number of steps before the last one.
    steps: u64,
    /// How many machines were booted after a stop or a fault, of this request and of those before.
    pub machines: u64,
    /// Whether the request was found as if it were not made, and as if it were.
    before: bool,
    after: bool,
    /// The numbers of first bytes of a write that were found, in rising order.
    parts: Vec<usize>,
    /// The number of steps before a stop after which it was found in no way that is allowed.
    wrong: Option<u64>,
}

impl Tally {
    /// None of this request yet, and so many machines of those before.
    pub fn new(alloc: Global, machines: u64) -> Tally {
        Tally {
            stops: 0,
            steps: 0,
            machines,
            before: false,
            after: false,
            parts: Vec::new(alloc),
            wrong: None,
        }
    }

    /// Counts a stop after so many steps.
    pub fn stop(&mut self, steps: u64) {
        self.stops = self.stops.saturating_add(1);
        self.steps = steps;
    }

    /// Counts a machine that the last stop led to.
    pub fn count(&mut self, found: Found) -> Result<(), AllocError> {
        self.machines = self.machines.saturating_add(1);
        match found {
            Found::Before => self.before = true,
            Found::Part(bytes) => return add_part(&mut self.parts, bytes),
            Found::After => self.after = true,
            Found::Otherwise => self.wrong = Some(self.steps),
        }
        Ok(())
    }

    /// Whether a machine was found in no way that is allowed.
    pub fn is_wrong(&self) -> bool {
        self.wrong.is_some()
    }

    /// Tells the ways in which the request was found, as one line.
    pub fn tell(&self, out: &mut Vec<u8>) -> Result<(), AllocError> {
        match self.wrong {
            Some(steps) => tell_number(out, "found otherwise after so many steps: ", steps),
            None => self.tell_ways(out),
        }
    }

    /// Tells the ways that are allowed.
    fn tell_ways(&self, out: &mut Vec<u8>) -> Result<(), AllocError> {
        let mut ways = Vec::new(*out.allocator());
        self.push_ways(&mut ways)?;
        tell_line(out, &ways)
    }

    /// Puts the ways one behind the other.
    fn push_ways(&self, ways: &mut Vec<u8>) -> Result<(), AllocError> {
        if self.before {
            push_way(ways, "as before")?;
        }
        for bytes in self.parts.iter() {
            push_part(ways, *bytes)?;
        }
        if self.after {
            push_way(ways, "as after")?;
        }
        Ok(())
    }
}

/// Keeps a number of bytes that were found.
fn add_part(parts: &mut Vec<usize>, bytes: usize) -> Result<(), AllocError> {
    if parts.contains(&bytes) {
        return Ok(());
    }
    parts.push(bytes)?;
    parts.sort_unstable();
    Ok(())
}

/// Puts the way of a part of so many bytes behind others.
fn push_part(ways: &mut Vec<u8>, bytes: usize) -> Result<(), AllocError> {
    let way = format!(in *ways.allocator(); "{bytes} bytes")?;
    push_way(ways, way.as_str())
}

/// Puts a way behind others, with a comma between.
fn push_way(ways: &mut Vec<u8>, way: &str) -> Result<(), AllocError> {
    if !ways.is_empty() {
        ways.extend_from_slice(b", ")?;
    }
    ways.extend_from_slice(way.as_bytes())
}
