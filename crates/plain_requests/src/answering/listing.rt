//! The names of a directory.

ghost use Rattle.std.specs.Prelude.{ℕ, ◌≡◌, ◌^◌, ◌<◌, length, IfOk, OnOk, map};
ghost use Rattle.std.specs.FinMap.{entries, from_entries, put};
ghost use Rattle.rio_model.specs.States.{names_below, names_in as names_in_of};
ghost use Rattle.rio_model.specs.Names.{NameKey, name_cmp, row_entry, row_entries};

use name_list::NameList;
use rio_base::{Ino, Octets};
use rio_model::{NameRow, State};
use std::alloc::{AllocError, Global};
use std::cmp::Ordering;

/// The names in a directory, in byte order.
pub fn names_in(alloc: Global, s: &State, dir: Ino) -> Result<Vec<Octets>, AllocError>
    ensures { IfOk result (λ names. names.items ≡ names_in_of s.now dir.0) }
{
    let rows = in_order(alloc, s.names.as_slice())?;
    names_among(alloc, rows.as_slice(), dir)
}

/// The names that rows have for a directory, in the order of the rows.
fn names_among(alloc: Global, rows: &[NameRow], dir: Ino) -> Result<Vec<Octets>, AllocError>
    ensures { IfOk result (λ names. names.items ≡ names_below (map (λ (e : NameKey × ℕ). e.0) (row_entries rows.now)) dir.0) }
{
    let mut names = Vec::new(alloc);
    for row in rows {
        if row.dir.0 == dir.0 {
            names.push(row.name.clone()?)?;
        }
    }
    Ok(names)
}

/// Names of a directory as a reply has them.
pub fn list_of_names(alloc: Global, names: &[Octets]) -> Result<NameList, AllocError>
    ensures { IfOk result (λ list. list ≡ names.now) }
{
    let mut list = NameList::with_capacity(alloc, names.len())?;
    for name in names {
        list.push(name.as_slice())?;
    }
    Ok(list)
}

/// How many names are in a directory.
pub fn count_names(alloc: Global, s: &State, dir: Ino) -> Result<u64, AllocError>
    ensures is { IfOk result (λ n. n ≡ length (names_in_of s.now dir.0)) }
    ensures few { IfOk result (λ n. n < 2 ^ 63) }
{
    let names = names_in(alloc, s, dir)?;
    Ok(names.len() as u64)
}

/// The rows in the order of their keys, the first one of each key.
fn in_order(alloc: Global, rows: &[NameRow]) -> Result<Vec<NameRow>, AllocError>
    ensures { IfOk result (λ made. row_entries made.items ≡ entries (from_entries {R = name_cmp} (row_entries rows.now))) }
{
    let mut made = Vec::new(alloc);
    let mut left = rows.len();
    while left > 0 {
        left -= 1;
        put_row(&mut made, rows[left].clone()?)?;
    }
    Ok(made)
}

/// Puts a row at its place among rows in order.
fn put_row(rows: &mut Vec<NameRow>, row: NameRow) -> Result<(), AllocError>
    ensures { OnOk result (row_entries rows.new.items ≡ put name_cmp (row.dir.0, row.name) row.ino.0 (row_entries rows.old.items)) }
{
    for at in 0..rows.len() {
        match compare(&row, &rows[at]) {
            Ordering::Less => {
                rows.insert(at, row)?;
                return Ok(());
            }
            Ordering::Equal => {
                rows[at].ino = row.ino;
                return Ok(());
            }
            Ordering::Greater => {}
        }
    }
    rows.push(row)?;
    Ok(())
}

/// How the keys of two rows compare.
fn compare(a: &NameRow, b: &NameRow) -> Ordering
    ensures { result ≡ name_cmp (a.now.dir.0, a.now.name) (b.now.dir.0, b.now.name) }
{
    a.dir
        .0
        .cmp(&b.dir.0)
        .then(a.name.as_slice().cmp(b.name.as_slice()))
}
