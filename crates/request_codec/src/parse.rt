//! What a line asks for.

ghost use Rattle.std.specs.Prelude.{◌≡◌, ◌≢◌, ◌<◌, ◌++◌, ◌∷◌, ℕ, List, length, codes, IfOk, MatchOption};
ghost use Rattle.rio_requests.specs.declared.request.Request.{Request as RequestOf};
ghost use Rattle.request_codec.specs.Form.{Form, Means};
ghost use Rattle.request_codec.specs.Words.{path_word, number_word, numbers_word, data_word, other_word};

use crate::parts::{
    at_space, number_value, numbers_value, path_data, path_number, path_numbers, paths,
};
use crate::path::is_path;
use crate::spare::Spare;
use crate::words::{DataWord, NumberWord, NumbersWord, OtherWord, PathWord};
use rio_base::number_of;
use rio_requests::Request;
use std::alloc::{AllocError, Global};

/// Reads a line. `None` is the answer to a line that is no request.
pub fn parse_line(alloc: Global, line: &[u8]) -> Result<Option<Request>, AllocError>
    ensures { IfOk result (λ found. Means line.now found) }
{
    let mut spare = Spare::new(alloc);
    parse_line_reusing(line, &mut spare)
}

/// Reads a line into memory that earlier requests left. `None` is the answer to a line that is no request.
pub fn parse_line_reusing(line: &[u8], spare: &mut Spare) -> Result<Option<Request>, AllocError>
    ensures { IfOk result (λ found. Means line.now found) }
{
    let Some((word, text)) = at_space(line) else {
        return Ok(parse_word(line));
    };
    if let Some(word) = DataWord::of(word) {
        return parse_data(spare, word, text);
    }
    if let Some(word) = NumbersWord::of(word) {
        return parse_numbers(spare, word, text);
    }
    if let Some(word) = PathWord::of(word) {
        return parse_path(spare, word, text);
    }
    if let Some(word) = NumberWord::of(word) {
        return parse_number(spare, word, text);
    }
    if let Some(word) = OtherWord::of(word) {
        return parse_other(spare, word, text);
    }
    Ok(None)
}

/// What a word alone asks for.
fn parse_word(word: &[u8]) -> Option<Request>
    ensures { MatchOption result ((word.now ≢ codes "sync") × (word.now ≢ codes "txns")) (λ request. Form word.now request) }
{
    match word {
        b"sync" => Some(Request::Sync),
        b"txns" => Some(Request::Txns),
        _ => None,
    }
}

/// What a word and this path ask for.
fn parse_path(spare: &mut Spare, word: PathWord, path: &[u8]) -> Result<Option<Request>, AllocError>
    ensures { IfOk result (λ found. Means (path_word word ++ (32 ∷ path.now)) found) }
{
    if !is_path(path) {
        return Ok(None);
    }
    let path = spare.copy_path(path)?;
    Ok(Some(word.request(path)))
}

/// What a word, a path and a number ask for.
fn parse_number(
    spare: &mut Spare,
    word: NumberWord,
    text: &[u8],
) -> Result<Option<Request>, AllocError>
    ensures { IfOk result (λ found. Means (number_word word ++ (32 ∷ text.now)) found) }
{
    let Some((path, number)) = path_number(text) else {
        return Ok(None);
    };
    if !word.takes(number) {
        return Ok(None);
    }
    let path = spare.copy_path(path)?;
    Ok(Some(word.request(path, number)))
}

/// What a word, a path and two numbers ask for.
fn parse_numbers(
    spare: &mut Spare,
    word: NumbersWord,
    text: &[u8],
) -> Result<Option<Request>, AllocError>
    ensures { IfOk result (λ found. Means (numbers_word word ++ (32 ∷ text.now)) found) }
{
    let Some((path, first, second)) = path_numbers(text) else {
        return Ok(None);
    };
    if !word.takes(first, second) {
        return Ok(None);
    }
    let path = spare.copy_path(path)?;
    Ok(Some(word.request(path, first, second)))
}

/// What a word, a path, a number and data ask for.
fn parse_data(spare: &mut Spare, word: DataWord, text: &[u8]) -> Result<Option<Request>, AllocError>
    ensures { IfOk result (λ found. Means (data_word word ++ (32 ∷ text.now)) found) }
{
    let Some((path, off, bytes)) = path_data(spare, text)? else {
        return Ok(None);
    };
    let path = spare.copy_path(path)?;
    Ok(Some(word.request(path, off, bytes)))
}

/// What a word and what follows it ask for.
fn parse_other(
    spare: &mut Spare,
    word: OtherWord,
    text: &[u8],
) -> Result<Option<Request>, AllocError>
    ensures { IfOk result (λ found. Means (other_word word ++ (32 ∷ text.now)) found) }
{
    match word {
        OtherWord::Rename => parse_rename(spare, text),
        OtherWord::Flush => Ok(parse_flush(text)),
        OtherWord::Wild => Ok(parse_wild(text)),
        OtherWord::Arm => Ok(parse_arm(text)),
    }
}

/// What `rename` and two paths ask for.
fn parse_rename(spare: &mut Spare, text: &[u8]) -> Result<Option<Request>, AllocError>
    ensures { IfOk result (λ found. Means (codes "rename" ++ (32 ∷ text.now)) found) }
{
    let Some((path, to)) = paths(text) else {
        return Ok(None);
    };
    let path = spare.copy_path(path)?;
    let to = spare.copy_rest(to)?;
    Ok(Some(Request::Rename { path, to }))
}

/// What `flush` and this number ask for.
fn parse_flush(text: &[u8]) -> Option<Request>
    ensures { Means (codes "flush" ++ (32 ∷ text.now)) result }
{
    let count = number_of(text)?;
    Some(Request::Flush { count })
}

/// What `wild`, a number and a word ask for.
fn parse_wild(text: &[u8]) -> Option<Request>
    ensures { Means (codes "wild" ++ (32 ∷ text.now)) result }
{
    let (at, value) = number_value(text)?;
    Some(Request::Wild { at, value })
}

/// What `arm`, two numbers and a word ask for.
fn parse_arm(text: &[u8]) -> Option<Request>
    ensures { Means (codes "arm" ++ (32 ∷ text.now)) result }
{
    let (step, at, value) = numbers_value(text)?;
    Some(Request::Arm { step, at, value })
}

/// No line has two meanings.
pub fn one_meaning()
    ensures { (line : List ℕ) (r q : RequestOf) → Form line r → Form line q → r ≡ q }
{}

/// A line of more than 4,194,304 bytes is no request.
pub fn long_lines_mean_nothing()
    ensures { (line : List ℕ) → 4194304 < length line → Means line None }
{}
