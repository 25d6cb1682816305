//! Lines that are read after a stop, as one text with an end behind each.

use std::alloc::{AllocError, Global};

/// What is read of a directory that drawn lines name, of its files, and of a region: as many words of undo records are saved as
/// its undo pages take at most, a record of 509 words in each. They would not take all, if a record were there.
const READ: &str = "list /d#
read /d#/n0 0 1048576
read /d#/n1 0 1048576
read /d#/n2 0 1048576
read /d#/n3 0 1048576
read /d#/n4 0 1048576
read /d#/n5 0 1048576
read /d#/n6 0 1048576
read /d#/n7 0 1048576
read /d#/n8 0 1048576
read /d#/n9 0 1048576
get /r# 0 4096
begin /r#
range /r# 0 4072
range /r# 0 4072
range /r# 0 4072
";

/// What undoes the transactions on these.
const UNDONE: &str = "abort /d#
abort /d#/n0
abort /d#/n1
abort /d#/n2
abort /d#/n3
abort /d#/n4
abort /d#/n5
abort /d#/n6
abort /d#/n7
abort /d#/n8
abort /d#/n9
abort /r#
";

/// The digits that `#` stands for.
static DIGITS: [&str; 4] = ["0", "1", "2", "3"];

/// What is read after a stop.
#[derive(Drop)]
pub struct Readings {
    /// The lines of the requests that are made. They change no file: the last ones open a transaction and save words of it.
    pub lines: String,
    /// The lines that undo the transactions that a stop undoes. They are made of the plain definition alone.
    pub undoing: String,
}

impl Readings {
    /// None.
    pub fn new(alloc: Global) -> Readings {
        Readings {
            lines: String::new(alloc),
            undoing: String::new(alloc),
        }
    }

    /// None any more.
    pub fn clear(&mut self) {
        self.undoing.clear();
        self.lines.clear();
    }

    /// The transaction of the region at a path is one that a stop undoes.
    pub fn undo(&mut self, path: &str) -> Result<(), AllocError> {
        self.undoing.push_str("abort ")?;
        push_line(&mut self.undoing, path)
    }

    /// All that drawn lines name is read, and nothing else.
    pub fn take_drawn(&mut self, alloc: Global) -> Result<(), AllocError> {
        self.clear();
        push_line(&mut self.lines, "list /")?;
        for digit in DIGITS.iter() {
            push_with(alloc, &mut self.lines, READ, digit)?;
            push_with(alloc, &mut self.undoing, UNDONE, digit)?;
        }
        Ok(())
    }
}

/// Puts a line behind others.
pub fn push_line(lines: &mut String, line: &str) -> Result<(), AllocError> {
    lines.push_str(line)?;
    lines.push_str("\n")
}

/// Puts lines behind others, with a digit in place of each `#`.
fn push_with(alloc: Global, lines: &mut String, more: &str, digit: &str) -> Result<(), AllocError> {
    lines.push_str(more.replace(alloc, '#', digit)?.as_str())
}
