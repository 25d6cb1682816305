//! Whether an answer is the one that must come.

ghost use Rattle.std.specs.Prelude.{◌≡◌, ◌↔◌, IsErr, IsErrOf};

use crate::asks::{Want, numbered};
use name_list::NameList;
use request_ends::FileFail;
use rio_base::{Ino, Octets, Stopped, VolFail};

/// Whether a number is the one that must come.
fn is_number(number: u64, want: Want) -> bool {
    match want {
        Want::Number(due) => number == due,
        _ => false,
    }
}

/// Whether bytes are these.
fn are_bytes(came: &[u8], due: &[u8]) -> bool {
    came == due
}

/// Whether names are these, in this order.
fn are_same(names: &NameList, due: &[&[u8]]) -> bool {
    if names.len() != due.len() {
        return false;
    }
    for t in 0..names.len() {
        if !are_bytes(names.get(t), due[t]) {
            return false;
        }
    }
    true
}

/// Whether names are so many numbered ones, from the second on.
fn are_numbered(names: &NameList, count: u8) -> bool {
    if names.len() != count as usize || count > 99 {
        return false;
    }
    for t in 0..names.len() {
        if !are_bytes(names.get(t), &numbered(t as u8 + 1)[1..]) {
            return false;
        }
    }
    true
}

/// Whether names are those that must come.
fn are_names(names: &NameList, want: Want) -> bool {
    match want {
        Want::Names(due) => are_same(names, due),
        Want::Numbered(count) => are_numbered(names, count),
        _ => false,
    }
}

/// Whether words are these, with zeros behind them.
fn begin_with(words: &[u64], due: &[u64]) -> bool {
    for t in 0..words.len() {
        let word = if t < due.len() { due[t] } else { 0 };
        if words[t] != word {
            return false;
        }
    }
    true
}

/// Whether the words of a block are those that must come.
pub(crate) fn are_words(words: &[u64], want: Want) -> bool {
    match want {
        Want::Words(due) => begin_with(words, due),
        _ => false,
    }
}

/// Whether a refusal is the one that must come; or the stop that came in its place.
fn is_refusal(fail: FileFail, want: Want) -> Result<bool, Stopped>
    ensures { IsErr result ↔ (fail ≡ FileFail.Stopped) }
{
    match fail {
        FileFail::Refused(code) => Ok(is_refused(code, want)),
        FileFail::Stopped => Err(Stopped),
        FileFail::Fault(_) | FileFail::Memory => Ok(false),
    }
}

fn is_refused(code: u8, want: Want) -> bool {
    match want {
        Want::Refused(due) => code == due,
        _ => false,
    }
}

/// Whether a request is done where it must be.
pub(crate) fn is_done(want: Want) -> bool {
    matches!(want, Want::Done)
}

/// Whether a request that tells nothing answers as it must; or the stop that came in its place.
pub(crate) fn done_is_due(answer: Result<(), FileFail>, want: Want) -> Result<bool, Stopped>
    ensures { IsErr result ↔ IsErrOf answer FileFail.Stopped }
{
    match answer {
        Ok(()) => Ok(is_done(want)),
        Err(fail) => is_refusal(fail, want),
    }
}

/// Whether a request that tells a node answers as it must; or the stop that came in its place.
pub(crate) fn node_is_due(answer: Result<Ino, FileFail>, want: Want) -> Result<bool, Stopped>
    ensures { IsErr result ↔ IsErrOf answer FileFail.Stopped }
{
    match answer {
        Ok(i) => Ok(is_number(i.0 as u64, want)),
        Err(fail) => is_refusal(fail, want),
    }
}

/// Whether a request that tells a count of bytes answers as it must; or the stop that came in its place.
pub(crate) fn count_is_due(answer: Result<u64, FileFail>, want: Want) -> Result<bool, Stopped>
    ensures { IsErr result ↔ IsErrOf answer FileFail.Stopped }
{
    match answer {
        Ok(count) => Ok(is_number(count, want)),
        Err(fail) => is_refusal(fail, want),
    }
}

/// Whether a node, its kind and its size are those that must come.
fn is_stat(i: Ino, kind: u8, size: u64, want: Want) -> bool {
    match want {
        Want::Stat(ino, due, bytes) => i.0 == ino && kind == due && size == bytes,
        _ => false,
    }
}

/// Whether a request that tells inode, kind and size answers as it must; or the stop that came in its place.
pub(crate) fn stat_is_due(
    answer: Result<(Ino, u8, u64), FileFail>,
    want: Want,
) -> Result<bool, Stopped>
    ensures { IsErr result ↔ IsErrOf answer FileFail.Stopped }
{
    match answer {
        Ok((i, kind, size)) => Ok(is_stat(i, kind, size, want)),
        Err(fail) => is_refusal(fail, want),
    }
}

/// Whether bytes are those that must come.
fn are_read(bytes: &[u8], want: Want) -> bool {
    match want {
        Want::Bytes(due) => are_bytes(bytes, due),
        _ => false,
    }
}

/// Whether a request that tells bytes answers as it must; or the stop that came in its place.
pub(crate) fn bytes_are_due(answer: Result<Octets, FileFail>, want: Want) -> Result<bool, Stopped>
    ensures { IsErr result ↔ IsErrOf answer FileFail.Stopped }
{
    match answer {
        Ok(bytes) => Ok(are_read(bytes.as_slice(), want)),
        Err(fail) => is_refusal(fail, want),
    }
}

/// Whether a request that tells names answers as it must; or the stop that came in its place.
pub(crate) fn names_are_due(answer: Result<NameList, FileFail>, want: Want) -> Result<bool, Stopped>
    ensures { IsErr result ↔ IsErrOf answer FileFail.Stopped }
{
    match answer {
        Ok(names) => Ok(are_names(&names, want)),
        Err(fail) => is_refusal(fail, want),
    }
}

/// Whether a count of blocks is the one that must come.
pub(crate) fn is_count(answer: Result<u32, VolFail>, want: Want) -> bool {
    match answer {
        Ok(count) => is_number(count as u64, want),
        Err(_) => false,
    }
}
