//! Moving names.

ghost use Rattle.std.specs.Prelude.{◌≡◌, ◌<◌, ◌==◌, if◌then◌else◌, length, IfOk, Ok as Good};
ghost use Rattle.std.specs.FinMap.{get};
ghost use Rattle.std.specs.Str.{bytes_eq};
ghost use Rattle.rio_requests.specs.Answers.{is_below as is_below_of, move_row as move_row_of, moved as moved_of, rename as rename_of, rename_at as rename_at_of, rename_row as rename_row_of, rename_to as rename_to_of, replace_row as replace_row_of, row_wanted as row_wanted_of};
ghost use Rattle.rio_model.specs.Paths.{walk as walk_of};
ghost use Rattle.rio_model.specs.States.{open_inodes};

use super::making::add_name;
use super::paths::{directory_of, is_dir, last_of, names_of, walk};
use super::removing::is_open;
use super::room::{lacks_room, row_wanted};
use super::{refused, unchanged};
use rio_base::{Ino, Octets};
use rio_model::{Refusal, State};
use rio_requests::{Answered, Reply};
use std::alloc::{AllocError, Global};

/// Moves a name to another path.
pub fn rename(alloc: Global, s: &State, path: &[u8], to: &[u8]) -> Result<Answered, AllocError>
    ensures { IfOk result (λ a. a ≡ rename_of s.now path.now to.now (open_inodes s.now)) }
{
    let from = names_of(alloc, path)?;
    let to = names_of(alloc, to)?;
    rename_at(alloc, s, from.as_slice(), to.as_slice())
}

/// Moves a name to another path. Each path is given by its names.
fn rename_at(
    alloc: Global,
    s: &State,
    from: &[Octets],
    to: &[Octets],
) -> Result<Answered, AllocError>
    ensures { IfOk result (λ a. a ≡ rename_at_of s.now (open_inodes s.now) from.now to.now) }
{
    match walk(s, from) {
        Ok(ino) => rename_ino(alloc, s, from, to, ino),
        Err(number) => refused(s, number),
    }
}

/// Moves a name to another path, where the old path leads to an inode.
fn rename_ino(
    alloc: Global,
    s: &State,
    from: &[Octets],
    to: &[Octets],
    ino: Ino,
) -> Result<Answered, AllocError>
    requires { walk_of s.now 1 from.now ≡ Good ino.0 }
    ensures { IfOk result (λ a. a ≡ rename_at_of s.now (open_inodes s.now) from.now to.now) }
{
    if to.is_empty() {
        return refused(s, Refusal::IsRoot as u8);
    }
    match directory_of(s, to) {
        Ok(to_dir) => rename_to(alloc, s, from, to, ino, to_dir),
        Err(number) => refused(s, number),
    }
}

/// Moves a name to another path, where the directory is known that is to hold the new name.
fn rename_to(
    alloc: Global,
    s: &State,
    from: &[Octets],
    to: &[Octets],
    ino: Ino,
    to_dir: Ino,
) -> Result<Answered, AllocError>
    requires { 0 < length to.now }
    ensures { IfOk result (λ a. a ≡ rename_to_of s.now (open_inodes s.now) from.now to.now ino.0 to_dir.0) }
{
    if from.is_empty() {
        return refused(s, Refusal::IsRoot as u8);
    }
    if is_below(from, to) {
        return refused(s, Refusal::InsideItself as u8);
    }
    let name = last_of(from);
    let to_name = last_of(to);
    match directory_of(s, from) {
        Ok(dir) => rename_row(alloc, s, dir, name, to_dir, to_name, ino),
        Err(number) => refused(s, number),
    }
}

/// Whether names go on where others end.
fn is_below(tops: &[Octets], names: &[Octets]) -> bool
    ensures { result ≡ is_below_of tops.now names.now }
{
    for i in 0..tops.len() {
        let past = names.len() <= i;
        if past {
            return false;
        }
        let same = are_same(&tops[i], &names[i]);
        if !same {
            return false;
        }
    }
    tops.len() < names.len()
}

/// Whether two names are the same.
fn are_same(a: &Octets, b: &Octets) -> bool
    ensures { result ≡ bytes_eq a.now b.now }
{
    a.as_slice() == b.as_slice()
}

/// Lets a directory's name name an inode in place of another directory's name.
fn rename_row(
    alloc: Global,
    s: &State,
    dir: Ino,
    name: &Octets,
    to_dir: Ino,
    to_name: &Octets,
    ino: Ino,
) -> Result<Answered, AllocError>
    ensures { IfOk result (λ a. a ≡ rename_row_of s.now (open_inodes s.now) dir.0 name.now to_dir.0 to_name.now ino.0 (get s.now.names (to_dir.0, to_name.now))) }
{
    match s.names.get(to_dir, to_name.as_slice()) {
        Some(gone) => replace_row(s, dir, name, to_dir, to_name, ino, gone),
        None => move_row(alloc, s, dir, name, to_dir, to_name, ino),
    }
}

/// Lets a directory's name name an inode in place of another directory's name, where the new name names nothing.
fn move_row(
    alloc: Global,
    s: &State,
    dir: Ino,
    name: &Octets,
    to_dir: Ino,
    to_name: &Octets,
    ino: Ino,
) -> Result<Answered, AllocError>
    ensures { IfOk result (λ a. a ≡ move_row_of s.now dir.0 name.now to_dir.0 to_name.now ino.0) }
{
    let wants = move_wanted(alloc, s, dir, to_dir)?;
    let lacks = lacks_room(alloc, s, wants)?;
    if lacks {
        return refused(s, Refusal::NoSpace as u8);
    }
    let next = moved(s, dir, name, to_dir, to_name, ino)?;
    Ok(Answered {
        next,
        reply: Some(Reply::Ok),
    })
}

/// The blocks that a directory takes for a name that comes from another one.
fn move_wanted(alloc: Global, s: &State, dir: Ino, to_dir: Ino) -> Result<u64, AllocError>
    ensures { IfOk result (λ n. n ≡ (if dir.0 == to_dir.0 then 0 else row_wanted_of s.now to_dir.0)) }
{
    if dir.0 == to_dir.0 {
        return Ok(0);
    }
    row_wanted(alloc, s, to_dir)
}

/// The state in which a directory's name names an inode in place of another directory's name.
fn moved(
    s: &State,
    dir: Ino,
    name: &Octets,
    to_dir: Ino,
    to_name: &Octets,
    ino: Ino,
) -> Result<State, AllocError>
    ensures { IfOk result (λ next. next ≡ moved_of s.now dir.0 name.now to_dir.0 to_name.now ino.0) }
{
    let mut next = s.clone()?;
    next.names.remove(dir, name.as_slice());
    add_name(&mut next.names, to_dir, to_name, ino)?;
    Ok(next)
}

/// Lets a directory's name name an inode in place of another directory's name, where the new name names a node, which goes.
fn replace_row(
    s: &State,
    dir: Ino,
    name: &Octets,
    to_dir: Ino,
    to_name: &Octets,
    ino: Ino,
    gone: Ino,
) -> Result<Answered, AllocError>
    ensures { IfOk result (λ a. a ≡ replace_row_of s.now (open_inodes s.now) dir.0 name.now to_dir.0 to_name.now ino.0 gone.0) }
{
    if ino.0 == gone.0 {
        return unchanged(s, Reply::Ok);
    }
    let from_dir = is_dir(s, ino);
    if from_dir {
        return refused(s, Refusal::Exists as u8);
    }
    let over_dir = is_dir(s, gone);
    if over_dir {
        return refused(s, Refusal::Exists as u8);
    }
    if is_open(s, gone) {
        return refused(s, Refusal::Busy as u8);
    }
    let mut next = moved(s, dir, name, to_dir, to_name, ino)?;
    next.nodes.remove(gone);
    Ok(Answered {
        next,
        reply: Some(Reply::Ok),
    })
}
