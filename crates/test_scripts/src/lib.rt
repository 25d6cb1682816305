//! The lines of the scripts that programs of sessions read, in which a few characters may stand for many; and drawn request
//! lines.
#![tactic(auto)]

mod drawn_lines;

pub use drawn_lines::{Draws, drawn_flush, drawn_line, drawn_name_line, reading_of_file};
use std::alloc::{AllocError, Global};
use std::fmt::Debug;

/// How many times two characters stand one behind the other before a text tells them by their number.
const MANY: usize = 32;

/// The first word of a line, and what stands behind the space after it.
pub fn first_word(line: &str) -> (&str, &str) {
    match line.split_once(' ') {
        Some((word, rest)) => (word, rest),
        None => (line, ""),
    }
}

/// The number that a word is. A word that is none is an error in the script, and ends the program as want of memory does.
pub fn number(word: &str) -> Result<u64, AllocError> {
    match word.parse::<u64>() {
        Ok(number) => Ok(number),
        Err(_) => Err(AllocError),
    }
}

/// The first three numbers of a line. Those that are not there are 0.
pub fn numbers(line: &str) -> Result<[u64; 3], AllocError> {
    let (first, rest) = first_word(line);
    let (second, rest) = first_word(rest);
    let (third, _) = first_word(rest);
    let first = number_if_any(first)?;
    let second = number_if_any(second)?;
    let third = number_if_any(third)?;
    Ok([first, second, third])
}

/// The number that a word is, or 0 where there is no word.
fn number_if_any(word: &str) -> Result<u64, AllocError> {
    if word.is_empty() {
        return Ok(0);
    }
    number(word)
}

/// The bytes that a line stands for: `{aa*5000}` for 5,000 times `aa`, `\x0d` for that byte, and all else for itself.
pub fn expanded(alloc: Global, line: &str) -> Result<Vec<u8>, AllocError> {
    let mut bytes = Vec::new(alloc);
    let (front, mut rest) = match line.split_once('{') {
        Some((front, rest)) => (front, rest),
        None => (line, ""),
    };
    push_text(&mut bytes, front)?;
    for _ in 0..line.len() {
        let Some((part, behind)) = rest.split_once('}') else {
            return Ok(bytes);
        };
        push_many(&mut bytes, part)?;
        let (front, next) = match behind.split_once('{') {
            Some((front, next)) => (front, next),
            None => (behind, ""),
        };
        push_text(&mut bytes, front)?;
        rest = next;
    }
    Ok(bytes)
}

/// Puts the bytes of `TEXT*N` behind others.
fn push_many(bytes: &mut Vec<u8>, part: &str) -> Result<(), AllocError> {
    let Some((text, count)) = part.rsplit_once('*') else {
        return push_text(bytes, part);
    };
    for _ in 0..number(count)? {
        push_text(bytes, text)?;
    }
    Ok(())
}

/// Puts the bytes of a text without `{` behind others.
fn push_text(bytes: &mut Vec<u8>, text: &str) -> Result<(), AllocError> {
    let Some((front, rest)) = text.split_once("\\x") else {
        return bytes.extend_from_slice(text.as_bytes());
    };
    bytes.extend_from_slice(front.as_bytes())?;
    for part in rest.split("\\x") {
        push_escaped(bytes, part)?;
    }
    Ok(())
}

/// Puts the byte of two hexadecimal digits behind others, and the text behind these digits.
fn push_escaped(bytes: &mut Vec<u8>, part: &str) -> Result<(), AllocError> {
    match part.split_at_checked(2) {
        Some((digits, rest)) => {
            bytes.push(u8::from_str_radix(digits, 16).unwrap_or(b'?'))?;
            bytes.extend_from_slice(rest.as_bytes())
        }
        None => bytes.extend_from_slice(part.as_bytes()),
    }
}

/// Puts the lines of a text behind others, each behind four spaces and as a script would have it. Of a last one without
/// its end that is said.
pub fn tell(out: &mut Vec<u8>, text: &[u8]) -> Result<(), AllocError> {
    for line in text.split_inclusive(|byte| *byte == b'\n') {
        match line.split_last() {
            Some((b'\n', front)) => tell_line(out, front)?,
            _ => {
                tell_line(out, line)?;
                tell_line(out, b"(no line end)")?;
            }
        }
    }
    Ok(())
}

/// Puts a text behind others as one line, behind four spaces and as a script would have it: `{5a*1024}` where the same two
/// characters stand 32 times or more one behind the other, `\x00` for a byte that is no character, and else as it stands.
pub fn tell_line(out: &mut Vec<u8>, text: &[u8]) -> Result<(), AllocError> {
    out.extend_from_slice(b"    ")?;
    let mut passed = 0usize;
    for _ in 0..text.len() {
        let rest = text.get(passed..).unwrap_or(&[]);
        let count = pairs_alike(rest);
        let [first, ..] = rest else {
            break;
        };
        if count < MANY {
            push_character(out, *first)?;
            passed = passed.saturating_add(1);
        } else {
            push_count(out, rest, count)?;
            passed = passed.saturating_add(count.saturating_mul(2));
        }
    }
    out.push(b'\n')?;
    Ok(())
}

/// Puts a text and the number behind it behind others, as one line.
pub fn tell_number(out: &mut Vec<u8>, text: &str, number: u64) -> Result<(), AllocError> {
    let alloc = *out.allocator();
    tell_line(out, format!(in alloc; "{text}{number}")?.as_bytes())
}

/// Puts a value behind others as it is shown, as one line.
pub fn tell_shown<T: Debug>(out: &mut Vec<u8>, value: &T) -> Result<(), AllocError> {
    let alloc = *out.allocator();
    tell_line(out, format!(in alloc; "{value:?}")?.as_bytes())
}

/// Puts the first two characters of a text behind others, and how many times they stand there.
fn push_count(out: &mut Vec<u8>, text: &[u8], count: usize) -> Result<(), AllocError> {
    let alloc = *out.allocator();
    let [first, second, ..] = text else {
        return Ok(());
    };
    out.push(b'{')?;
    push_character(out, *first)?;
    push_character(out, *second)?;
    out.extend_from_slice(format!(in alloc; "*{count}}}")?.as_bytes())
}

/// Puts a character behind others, or the two digits of a byte that is none.
fn push_character(out: &mut Vec<u8>, byte: u8) -> Result<(), AllocError> {
    if byte.is_ascii_graphic() || byte == b' ' {
        out.push(byte)?;
        return Ok(());
    }
    let alloc = *out.allocator();
    out.extend_from_slice(format!(in alloc; "\\x{byte:02x}")?.as_bytes())
}

/// How many times the first two characters of a text stand one behind the other at its front.
fn pairs_alike(text: &[u8]) -> usize {
    let [first, second, ..] = text else {
        return 0;
    };
    let mut count = 0usize;
    for pair in text.chunks_exact(2) {
        if pair[0] != *first || pair[1] != *second {
            return count;
        }
        count = count.saturating_add(1);
    }
    count
}
