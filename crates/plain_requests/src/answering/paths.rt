//! Names of paths, and what stands at them.

ghost use Rattle.std.specs.Prelude.{◌≡◌, ◌<◌, length, IfOk, MatchResult, Ok as Good, Err as Bad};
ghost use Rattle.std.specs.FinMap.{get};
ghost use Rattle.rio_base.specs.Bytes.{pieces as pieces_of};
ghost use Rattle.rio_model.specs.States.{front_of, last_of as defined_last};
ghost use Rattle.rio_requests.specs.Answers.{found as found_of};
ghost use Rattle.rio_model.specs.Paths.{names_of as defined_names, is_dir as is_dir_of, walk as walk_of, walk_to_dir as walk_to_dir_of};

use rio_base::{Ino, Octets};
use rio_model::{Node, Refusal, State};
use std::alloc::{AllocError, Global};
use std::mem;

/// The names of a path.
pub fn names_of(alloc: Global, path: &[u8]) -> Result<Vec<Octets>, AllocError>
    ensures { IfOk result (λ names. names.items ≡ defined_names path.now) }
{
    match path {
        [] => Ok(Vec::new(alloc)),
        [_, rest @ ..] => pieces(alloc, rest),
    }
}

/// The pieces between slashes.
fn pieces(alloc: Global, bytes: &[u8]) -> Result<Vec<Octets>, AllocError>
    ensures { IfOk result (λ names. names.items ≡ pieces_of 47 bytes.now) }
{
    let mut names = Vec::new(alloc);
    let mut name = Vec::new(alloc);
    for byte in bytes {
        if *byte == b'/' {
            names.push(Octets::from(mem::replace(&mut name, Vec::new(alloc))))?;
        } else {
            name.push(*byte)?;
        }
    }
    if !name.is_empty() {
        names.push(Octets::from(name))?;
    }
    Ok(names)
}

/// Whether an inode is a directory.
pub fn is_dir(s: &State, at: Ino) -> bool
    ensures { result ≡ is_dir_of (get s.now.nodes at.0) }
{
    match s.nodes.get(at) {
        Some(Node::Dir) => true,
        _ => false,
    }
}

/// The inode at the end of these names, or a refusal.
pub fn walk(s: &State, names: &[Octets]) -> Result<Ino, u8>
    ensures { MatchResult result (λ i. walk_of s.now 1 names.now ≡ Good i.0) (λ number. walk_of s.now 1 names.now ≡ Bad number) }
{
    let mut at = Ino(1);
    for name in names {
        if !is_dir(s, at) {
            return Err(Refusal::NotADirectory as u8);
        }
        match s.names.get(at, name.as_slice()) {
            Some(next) => at = next,
            None => return Err(Refusal::NotFound as u8),
        }
    }
    Ok(at)
}

/// The directory at the end of these names, or a refusal.
pub fn walk_to_dir(s: &State, names: &[Octets]) -> Result<Ino, u8>
    ensures { MatchResult result (λ i. walk_to_dir_of s.now names.now ≡ Good i.0) (λ number. walk_to_dir_of s.now names.now ≡ Bad number) }
{
    match walk(s, names) {
        Ok(at) => {
            if is_dir(s, at) {
                Ok(at)
            } else {
                Err(Refusal::NotADirectory as u8)
            }
        }
        Err(number) => Err(number),
    }
}

/// The directory that holds, or is to hold, the last of these names, or a refusal.
pub fn directory_of(s: &State, names: &[Octets]) -> Result<Ino, u8>
    requires { 0 < length names.now }
    ensures { MatchResult result (λ i. walk_to_dir_of s.now (front_of names.now) ≡ Good i.0) (λ number. walk_to_dir_of s.now (front_of names.now) ≡ Bad number) }
{
    let last = names.len() - 1;
    walk_to_dir(s, &names[..last])
}

/// The last of these names.
pub fn last_of(names: &[Octets]) -> &Octets
    requires { 0 < length names.now }
    ensures { result.now ≡ defined_last names.now }
{
    &names[names.len() - 1]
}

/// What a directory's name names, or a refusal.
pub fn found(s: &State, dir: Ino, name: &Octets) -> Result<Ino, u8>
    ensures { MatchResult result (λ i. found_of s.now dir.0 name.now ≡ Good i.0) (λ number. found_of s.now dir.0 name.now ≡ Bad number) }
{
    match s.names.get(dir, name.as_slice()) {
        Some(ino) => Ok(ino),
        None => Err(Refusal::NotFound as u8),
    }
}
