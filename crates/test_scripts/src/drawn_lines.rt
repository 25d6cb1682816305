//! Drawn request lines for walks: for the same seed the same. They name 40 files in 4 directories, the directories, and 4
//! regions; or else many files in 2 directories.

ghost use Rattle.std.specs.Prelude.{◌<◌};

use std::alloc::{AllocError, Global};

/// The largest size and offset that is drawn, in bytes.
const LARGEST: u32 = 200_000;

/// Draws by a linear congruential generator.
#[derive(Drop)]
pub struct Draws {
    state: u64,
}

impl Draws {
    /// Draws from this seed on.
    pub fn new(seed: u64) -> Draws {
        Draws { state: seed }
    }

    /// A number below `n`.
    pub fn below(&mut self, n: u32) -> u32
        requires { 0 < n }
        ensures { result < n }
    {
        self.state = self
            .state
            .wrapping_mul(6_364_136_223_846_793_005)
            .wrapping_add(1_442_695_040_888_963_407);
        let high = (self.state >> 32) as u32; // the low bits of such a generator have short periods
        high % n
    }

    /// One of some texts.
    fn one_of(&mut self, texts: &'static [&'static str]) -> &'static str {
        let count = u32::try_from(texts.len() as u64).unwrap_or(1);
        let n = self.below(count.max(1));
        texts.get(n as usize).copied().unwrap_or("")
    }
}

/// How many of all draws are a line of one of these forms, each of them as often. In a form `%` and a letter stand for a word
/// that is drawn, as `push_drawn` says.
type Group = (u32, &'static [&'static str]);

/// Lines on files and directories: 16 draws.
const ON_FILES: [Group; 5] = [
    (1, &["list /"]),
    (1, &["sync"]),
    (3, &["write %p %s %w"]),
    (2, &["read %p %s %l", "read %p 0 1048576", "truncate %p %s"]),
    (
        9,
        &[
            "create %p",
            "create %p",
            "create %p",
            "create %p",
            "unlink %p",
            "rename %p %p",
            "stat %p",
            "%m %d",
            "%m %d",
        ],
    ),
];

/// Lines on regions, their transactions, and all transactions: 32 draws.
const ON_REGIONS: [Group; 6] = [
    (1, &["txns"]),
    (3, &["region %r %n %u"]),
    (
        4,
        &[
            "rename %r %r",
            "rename %p %r",
            "read %r 0 64",
            "write %r 0 00",
            "truncate %r 64",
            "wild 0 0000000000000000",
            "arm 0 0 0000000000000000",
            "unlink %r",
            "stat %r",
            "create %r",
            "%f %r",
        ],
    ),
    (7, &["begin %r", "begin %r", "commit %r", "abort %r"]),
    (7, &["put %r %a %b"]),
    (
        10,
        &[
            "range %r %a %e",
            "range %r %a %e",
            "range %r %a %e",
            "get %r %a %g",
            "get %r %a %g",
            "alloc %r %k",
            "alloc %r %k",
            "free %r %a",
            "free %r %a",
        ],
    ),
];

/// Lines on many names of two directories: 16 draws. More names are made than go.
const ON_NAMES: [Group; 6] = [
    (1, &["list %t"]),
    (
        1,
        &["mkdir %t", "mkdir %t", "rmdir %t", "mkdir %q", "rmdir %q"],
    ),
    (2, &["rename %q %q"]),
    (2, &["unlink %q"]),
    (2, &["stat %q"]),
    (8, &["create %q"]),
];

/// The form of a line, drawn as its groups say.
fn drawn_form(draws: &mut Draws, groups: &[Group], all: u32) -> &'static str {
    let mut draw = draws.below(all.max(1));
    for &(count, forms) in groups {
        if draw < count {
            return draws.one_of(forms);
        }
        draw -= count;
    }
    "sync"
}

/// What is done to a directory.
const DIR_WORDS: &[&str] = &["mkdir", "rmdir", "list"];

/// What is done to the path of a region as if it were a file.
const FILE_WORDS: &[&str] = &["unlink", "stat", "create"];

/// The digits of a byte.
const DIGITS: &[&str] = &[
    "0", "1", "2", "3", "4", "5", "6", "7", "8", "9", "a", "b", "c", "d", "e", "f",
];

/// A line that reads all of a file.
pub fn reading_of_file(alloc: Global, dir: u32, file: u32) -> Result<String, AllocError> {
    format!(in alloc; "read /d{dir}/n{file} 0 1048576")
}

/// Puts a text and a number behind a line.
fn push_number(alloc: Global, line: &mut String, text: &str, n: u32) -> Result<(), AllocError> {
    line.push_str(format!(in alloc; "{text}{n}")?.as_str())
}

/// Puts so many drawn bytes behind a line.
fn push_bytes(line: &mut String, draws: &mut Draws, count: u32) -> Result<(), AllocError> {
    for _ in 0..count.saturating_mul(2) {
        line.push_str(draws.one_of(DIGITS))?;
    }
    Ok(())
}

/// Puts the path of a directory behind a line.
fn push_dir(alloc: Global, line: &mut String, draws: &mut Draws) -> Result<(), AllocError> {
    push_number(alloc, line, "/d", draws.below(4))
}

/// Puts the path of a file behind a line, and one time in six that of a directory.
fn push_path(alloc: Global, line: &mut String, draws: &mut Draws) -> Result<(), AllocError> {
    push_dir(alloc, line, draws)?;
    if draws.below(6) == 0 {
        return Ok(());
    }
    push_number(alloc, line, "/n", draws.below(10))
}

/// Puts the path of one of two directories behind a line.
fn push_one_of_two(alloc: Global, line: &mut String, draws: &mut Draws) -> Result<(), AllocError> {
    push_number(alloc, line, "/d", draws.below(2))
}

/// Puts a path behind a line that is one of 128 in each of two directories.
fn push_one_of_many(alloc: Global, line: &mut String, draws: &mut Draws) -> Result<(), AllocError> {
    push_one_of_two(alloc, line, draws)?;
    push_number(alloc, line, "/n", draws.below(128))
}

/// Puts the path of a region behind a line, and one time in 16 that of a file.
fn push_region(alloc: Global, line: &mut String, draws: &mut Draws) -> Result<(), AllocError> {
    if draws.below(16) == 0 {
        return push_path(alloc, line, draws);
    }
    push_number(alloc, line, "/r", draws.below(4))
}

/// A size or an offset. Most are small.
fn drawn_size(draws: &mut Draws) -> u32 {
    let size = draws.below(LARGEST);
    size >> draws.below(10)
}

/// A place in a region, most often where one of its first units starts.
fn drawn_place(draws: &mut Draws) -> u32 {
    if draws.below(12) == 0 {
        return draws.below(40_000);
    }
    let unit = draws.below(512) >> draws.below(10);
    unit.saturating_mul(64)
}

/// A number of bytes, most often that of some words.
fn drawn_extent(draws: &mut Draws, most_words: u32) -> u32 {
    if draws.below(12) == 0 {
        return draws.below(5000);
    }
    let words = draws.below(most_words.max(1)) >> draws.below(5);
    words.saturating_mul(8)
}

/// How many data pages a new region has. Most are small. Some have two pages of heap map, and some are larger than any file.
fn drawn_pages(draws: &mut Draws) -> u32 {
    let pages = match draws.below(16) {
        0 => draws.below(100).saturating_add(1000),
        1 => draws.below(300),
        _ => draws.below(8),
    };
    pages.saturating_add(1)
}

/// The number that a letter of a form stands for.
fn drawn_number(draws: &mut Draws, letter: &str) -> u32 {
    match letter {
        "s" => drawn_size(draws),
        "l" => draws.below(8000),
        "n" => drawn_pages(draws),
        "u" => draws.below(3).saturating_add(1),
        "a" => drawn_place(draws),
        "e" => drawn_extent(draws, 256),
        "g" => draws.below(9000) >> draws.below(10),
        "k" => (draws.below(129) >> draws.below(8)).max(1),
        _ => draws.below(41),
    }
}

/// Puts what a letter of a form stands for behind a line: a word, a path, bytes or else a number.
fn push_drawn(
    alloc: Global,
    line: &mut String,
    draws: &mut Draws,
    letter: &str,
) -> Result<(), AllocError> {
    match letter {
        "m" => line.push_str(draws.one_of(DIR_WORDS)),
        "f" => line.push_str(draws.one_of(FILE_WORDS)),
        "d" => push_dir(alloc, line, draws),
        "p" => push_path(alloc, line, draws),
        "r" => push_region(alloc, line, draws),
        "t" => push_one_of_two(alloc, line, draws),
        "q" => push_one_of_many(alloc, line, draws),
        "w" => {
            let count = draws.below(5000) >> draws.below(12);
            push_bytes(line, draws, count)
        }
        "b" => {
            let count = drawn_extent(draws, 32);
            push_bytes(line, draws, count)
        }
        _ => {
            let n = drawn_number(draws, letter);
            push_number(alloc, line, "", n)
        }
    }
}

/// A line of this form.
fn drawn_as(alloc: Global, draws: &mut Draws, form: &str) -> Result<String, AllocError> {
    let mut parts = form.split('%');
    let mut line = String::from_str(alloc, parts.next().unwrap_or(""))?;
    for part in parts {
        let (letter, rest) = part.split_at_checked(1).unwrap_or((part, ""));
        push_drawn(alloc, &mut line, draws, letter)?;
        line.push_str(rest)?;
    }
    Ok(line)
}

/// A line without its end. It is no flush. Of 16 lines `regions` are drawn on regions.
pub fn drawn_line(alloc: Global, draws: &mut Draws, regions: u32) -> Result<String, AllocError> {
    let form = if regions > 0 && draws.below(16) < regions {
        drawn_form(draws, &ON_REGIONS, 32)
    } else {
        drawn_form(draws, &ON_FILES, 16)
    };
    drawn_as(alloc, draws, form)
}

/// A line on many names of two directories. It is no flush.
pub fn drawn_name_line(alloc: Global, draws: &mut Draws) -> Result<String, AllocError> {
    let form = drawn_form(draws, &ON_NAMES, 16);
    drawn_as(alloc, draws, form)
}

/// A line that cleans up to 40 frames.
pub fn drawn_flush(alloc: Global, draws: &mut Draws) -> Result<String, AllocError> {
    drawn_as(alloc, draws, "flush %c")
}
