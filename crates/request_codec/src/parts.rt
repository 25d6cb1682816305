//! What stands behind the first word of a line: parts with a space between them.

ghost use Rattle.std.specs.Prelude.{◌≡◌, ◌≤◌, ◌++◌, ◌∷◌, ℕ, List, length, IfOk, MatchOption};
ghost use Rattle.rio_base.specs.Bytes.{IsNumber, Lacks};
ghost use Rattle.rio_model.specs.Paths.{IsPath};
ghost use Rattle.request_codec.specs.Form.{IsHexOf, Data, PathNumber, PathNumbers, PathData, Paths, NumberValue, NumbersValue};
ghost use Rattle.request_codec.specs.Fronts.{IsCut, HasPath, HasNumber, HasPathNumber};

use crate::first_byte::first_byte;
use crate::hex_digits::decode;
use crate::number::value_of;
use crate::path::is_path;
use crate::spare::Spare;
use rio_base::{Octets, number_of};
use std::alloc::AllocError;

/// The most bytes that a request carries.
const DATA_BYTES: usize = 1_048_576;

/// What stands before and behind the first space.
pub fn at_space(text: &[u8]) -> Option<(&[u8], &[u8])>
    ensures { MatchOption result (Lacks 32 text.now) (λ parts. IsCut text.now parts.0.now parts.1.now) }
{
    let at = first_byte(b' ', text)?;
    Some((&text[..at], &text[at + 1..]))
}

/// A path, and what stands behind the space.
#[inline(always)]
fn path_at_front(text: &[u8]) -> Option<(&[u8], &[u8])>
    ensures { MatchOption result ((path rest : List ℕ) → HasPath text.now path rest → ⊥) (λ parts. HasPath text.now parts.0.now parts.1.now) }
{
    let (path, rest) = at_space(text)?;
    if is_path(path) {
        Some((path, rest))
    } else {
        None
    }
}

/// A number, and what stands behind the space.
#[inline(always)]
fn number_at_front(text: &[u8]) -> Option<(u64, &[u8])>
    ensures { MatchOption result ((n : ℕ) (rest : List ℕ) → HasNumber text.now n rest → ⊥) (λ parts. HasNumber text.now parts.0 parts.1.now) }
{
    let (digits, rest) = at_space(text)?;
    let number = number_of(digits)?;
    Some((number, rest))
}

/// Reads a path and a number.
pub fn path_number(text: &[u8]) -> Option<(&[u8], u64)>
    ensures { MatchOption result ((path : List ℕ) (n : ℕ) → PathNumber path n text.now → ⊥) (λ parts. PathNumber parts.0.now parts.1 text.now) }
{
    let (path, rest) = path_at_front(text)?;
    let number = number_of(rest)?;
    Some((path, number))
}

/// A path, a number, and what stands behind the space.
fn path_number_at_front(text: &[u8]) -> Option<(&[u8], u64, &[u8])>
    ensures { MatchOption result ((path : List ℕ) (n : ℕ) (rest : List ℕ) → HasPathNumber text.now path n rest → ⊥) (λ parts. HasPathNumber text.now parts.0.now parts.1 parts.2.now) }
{
    let (path, rest) = path_at_front(text)?;
    let (number, rest) = number_at_front(rest)?;
    Some((path, number, rest))
}

/// Reads a path and two numbers.
pub fn path_numbers(text: &[u8]) -> Option<(&[u8], u64, u64)>
    ensures { MatchOption result ((path : List ℕ) (m n : ℕ) → PathNumbers path m n text.now → ⊥) (λ parts. PathNumbers parts.0.now parts.1 parts.2 text.now) }
{
    let (path, first, rest) = path_number_at_front(text)?;
    let second = number_of(rest)?;
    Some((path, first, second))
}

/// Reads a path, a number and data.
pub fn path_data<'t>(
    spare: &mut Spare,
    text: &'t [u8],
) -> Result<Option<(&'t [u8], u64, Octets)>, AllocError>
    ensures { IfOk result (λ found. MatchOption found ((path : List ℕ) (n : ℕ) (bytes : List ℕ) → PathData path n bytes text.now → ⊥) (λ parts. PathData parts.0.now parts.1 parts.2 text.now)) }
{
    let Some((path, number, digits)) = path_number_at_front(text) else {
        return Ok(None);
    };
    let Some(bytes) = data_of(spare, digits)? else {
        return Ok(None);
    };
    Ok(Some((path, number, bytes)))
}

/// Reads two paths.
pub fn paths(text: &[u8]) -> Option<(&[u8], &[u8])>
    ensures { MatchOption result ((path other : List ℕ) → Paths path other text.now → ⊥) (λ parts. Paths parts.0.now parts.1.now text.now) }
{
    let (path, other) = path_at_front(text)?;
    if is_path(other) {
        Some((path, other))
    } else {
        None
    }
}

/// Reads a number and a word.
pub fn number_value(text: &[u8]) -> Option<(u64, u64)>
    ensures { MatchOption result ((n v : ℕ) → NumberValue n v text.now → ⊥) (λ parts. NumberValue parts.0 parts.1 text.now) }
{
    let (number, rest) = number_at_front(text)?;
    let value = value_of(rest)?;
    Some((number, value))
}

/// Reads two numbers and a word.
pub fn numbers_value(text: &[u8]) -> Option<(u64, u64, u64)>
    ensures { MatchOption result ((m n v : ℕ) → NumbersValue m n v text.now → ⊥) (λ parts. NumbersValue parts.0 parts.1 parts.2 text.now) }
{
    let (first, rest) = number_at_front(text)?;
    let (second, value) = number_value(rest)?;
    Some((first, second, value))
}

/// The bytes that these digits stand for, where there are no more than a request may carry.
fn data_of(spare: &mut Spare, digits: &[u8]) -> Result<Option<Octets>, AllocError>
    ensures { IfOk result (λ found. MatchOption found ((bytes : List ℕ) → Data bytes digits.now → ⊥) (λ bytes. Data bytes digits.now)) }
{
    let count = digits.len() / 2;
    if digits.len() != 2 * count || count > DATA_BYTES {
        return Ok(None);
    }
    decode(spare.take_rest(), digits, count)
}
