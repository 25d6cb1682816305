//! Requests at paths by one who holds names and full blocks of inodes in memory, in a memo that is kept from call to call.

ghost use Rattle.test_objects.specs.ListVolumes.{ListSound, list_kept, list_seen};
ghost use Rattle.rio_model.specs.Paths.{IsPath};
ghost use Rattle.request_ends.specs.Ends.{CanServe};
ghost use Rattle.file_tree.specs.Memos.{InStep};
ghost use Rattle.file_store_tests.specs.Playing.{FollowsHeld};

use crate::answers::{
    bytes_are_due, count_is_due, done_is_due, is_done, names_are_due, node_is_due, stat_is_due,
};
use crate::asks::{Ask, Row, Want, numbered, path_of};
use crate::calls::{block_as, free_as};
use file_data::{read, truncate, write};
use file_tree::Memo;
use node_making::{create, list, make_region, mkdir, region_at, stat};
use node_moving::{rename, rmdir, unlink};
use request_codec::is_path;
use rio_base::{InoList, Stopped, VolumeShape};
use std::alloc::Global;
use test_objects::ListVolume;

fn create_held(
    alloc: Global,
    v: &mut ListVolume,
    shape: &VolumeShape,
    memo: &mut Memo,
    path: &[u8],
    want: Want,
) -> Result<bool, Stopped>
    requires sound { ListSound v.old }
    requires can { CanServe shape.now (list_seen v.old) (list_kept v.old) }
    requires in_step { InStep shape.now (list_seen v.old).words memo.old }
    ensures follows { FollowsHeld shape.now (list_seen v.new) (list_kept v.new) memo.new result }
    ensures sound { ListSound v.new }
{
    if !is_path(path) {
        return Ok(false);
    }
    let answer = create(alloc, v, shape, memo, path);
    node_is_due(answer, want)
}

fn write_held(
    alloc: Global,
    v: &mut ListVolume,
    shape: &VolumeShape,
    memo: &mut Memo,
    path: &[u8],
    off: u64,
    bytes: &[u8],
    want: Want,
) -> Result<bool, Stopped>
    requires sound { ListSound v.old }
    requires can { CanServe shape.now (list_seen v.old) (list_kept v.old) }
    requires path { IsPath path.now }
    requires in_step { InStep shape.now (list_seen v.old).words memo.old }
    ensures follows { FollowsHeld shape.now (list_seen v.new) (list_kept v.new) memo.new result }
    ensures sound { ListSound v.new }
{
    let answer = write(alloc, v, shape, memo, path, off, bytes);
    count_is_due(answer, want)
}

/// Writes so many bytes of one value. Without memory for them it is not answered as it must.
fn write_many_held(
    alloc: Global,
    v: &mut ListVolume,
    shape: &VolumeShape,
    memo: &mut Memo,
    path: &[u8],
    off: u64,
    byte: u8,
    count: usize,
    want: Want,
) -> Result<bool, Stopped>
    requires sound { ListSound v.old }
    requires can { CanServe shape.now (list_seen v.old) (list_kept v.old) }
    requires path { IsPath path.now }
    requires in_step { InStep shape.now (list_seen v.old).words memo.old }
    ensures follows { FollowsHeld shape.now (list_seen v.new) (list_kept v.new) memo.new result }
    ensures sound { ListSound v.new }
{
    let Ok(bytes) = vec![in alloc; byte; count] else {
        return Ok(false);
    };
    write_held(alloc, v, shape, memo, path, off, &bytes, want)
}

fn unlink_held(
    alloc: Global,
    v: &mut ListVolume,
    shape: &VolumeShape,
    memo: &mut Memo,
    path: &[u8],
    want: Want,
) -> Result<bool, Stopped>
    requires sound { ListSound v.old }
    requires can { CanServe shape.now (list_seen v.old) (list_kept v.old) }
    requires path { IsPath path.now }
    requires in_step { InStep shape.now (list_seen v.old).words memo.old }
    ensures follows { FollowsHeld shape.now (list_seen v.new) (list_kept v.new) memo.new result }
    ensures sound { ListSound v.new }
{
    let busy = InoList::from(Vec::new(alloc));
    let answer = unlink(alloc, v, shape, memo, path, &busy);
    done_is_due(answer, want)
}

fn region_held(
    alloc: Global,
    v: &mut ListVolume,
    shape: &VolumeShape,
    memo: &mut Memo,
    path: &[u8],
    data_pages: u64,
    undo_pages: u64,
    want: Want,
) -> Result<bool, Stopped>
    requires sound { ListSound v.old }
    requires can { CanServe shape.now (list_seen v.old) (list_kept v.old) }
    requires path { IsPath path.now }
    requires in_step { InStep shape.now (list_seen v.old).words memo.old }
    ensures follows { FollowsHeld shape.now (list_seen v.new) (list_kept v.new) memo.new result }
    ensures sound { ListSound v.new }
{
    if data_pages == 0 {
        return Ok(false);
    }
    if undo_pages == 0 {
        return Ok(false);
    }
    let answer = make_region(alloc, v, shape, memo, path, data_pages, undo_pages);
    node_is_due(answer, want)
}

fn rename_held(
    alloc: Global,
    v: &mut ListVolume,
    shape: &VolumeShape,
    memo: &mut Memo,
    path: &[u8],
    to: &[u8],
    want: Want,
) -> Result<bool, Stopped>
    requires sound { ListSound v.old }
    requires can { CanServe shape.now (list_seen v.old) (list_kept v.old) }
    requires path { IsPath path.now }
    requires in_step { InStep shape.now (list_seen v.old).words memo.old }
    ensures follows { FollowsHeld shape.now (list_seen v.new) (list_kept v.new) memo.new result }
    ensures sound { ListSound v.new }
{
    if !is_path(to) {
        return Ok(false);
    }
    let busy = InoList::from(Vec::new(alloc));
    let answer = rename(alloc, v, shape, memo, path, to, &busy);
    done_is_due(answer, want)
}

/// Finds a region, which takes no step.
fn region_of_held(
    v: &mut ListVolume,
    shape: &VolumeShape,
    memo: &mut Memo,
    path: &[u8],
    want: Want,
) -> bool
    requires sound { ListSound v.old }
    requires can { CanServe shape.now (list_seen v.old) (list_kept v.old) }
    requires path { IsPath path.now }
    requires in_step { InStep shape.now (list_seen v.old).words memo.old }
    ensures can { CanServe shape.now (list_seen v.new) (list_kept v.new) }
    ensures in_step { InStep shape.now (list_seen v.new).words memo.new }
    ensures sound { ListSound v.new }
{
    let found = match region_at(v, shape, memo, path) {
        Ok((i, _)) => Ok(i),
        Err(fail) => Err(fail),
    };
    match node_is_due(found, want) {
        Ok(due) => due,
        Err(Stopped) => false,
    }
}

/// Whether a request at a path that makes a directory or file, or looks at or drops a directory, answers as it must; or the
/// stop that came in its place.
fn names_held(
    alloc: Global,
    v: &mut ListVolume,
    shape: &VolumeShape,
    memo: &mut Memo,
    path: &[u8],
    ask: Ask,
    want: Want,
) -> Result<bool, Stopped>
    requires sound { ListSound v.old }
    requires can { CanServe shape.now (list_seen v.old) (list_kept v.old) }
    requires path { IsPath path.now }
    requires in_step { InStep shape.now (list_seen v.old).words memo.old }
    ensures follows { FollowsHeld shape.now (list_seen v.new) (list_kept v.new) memo.new result }
    ensures sound { ListSound v.new }
{
    match ask {
        Ask::Mkdir(_) => node_is_due(mkdir(alloc, v, shape, memo, path), want),
        Ask::Create(_) => create_held(alloc, v, shape, memo, path, want),
        Ask::Rmdir(_) => done_is_due(rmdir(alloc, v, shape, memo, path), want),
        Ask::List(_) => names_are_due(list(alloc, v, shape, memo, path), want),
        // Not reached: other requests are made elsewhere.
        _ => Ok(false),
    }
}

/// Whether a request for what a file has, a request for a change of it, or one of [`names_held`] answers as it must; or the stop that
/// came in its place.
fn bytes_held(
    alloc: Global,
    v: &mut ListVolume,
    shape: &VolumeShape,
    memo: &mut Memo,
    path: &[u8],
    ask: Ask,
    want: Want,
) -> Result<bool, Stopped>
    requires sound { ListSound v.old }
    requires can { CanServe shape.now (list_seen v.old) (list_kept v.old) }
    requires path { IsPath path.now }
    requires in_step { InStep shape.now (list_seen v.old).words memo.old }
    ensures follows { FollowsHeld shape.now (list_seen v.new) (list_kept v.new) memo.new result }
    ensures sound { ListSound v.new }
{
    match ask {
        Ask::Write(_, off, bytes) => write_held(alloc, v, shape, memo, path, off, bytes, want),
        Ask::Read(_, off, len) => {
            bytes_are_due(read(alloc, v, shape, memo, path, off, len), want)
        }
        Ask::Truncate(_, len) => done_is_due(truncate(alloc, v, shape, memo, path, len), want),
        Ask::Stat(_) => stat_is_due(stat(alloc, v, shape, memo, path), want),
        _ => names_held(alloc, v, shape, memo, path, ask, want),
    }
}

/// Whether any request at a path answers as it must; or the stop that came in its place.
fn answers_at(
    alloc: Global,
    v: &mut ListVolume,
    shape: &VolumeShape,
    memo: &mut Memo,
    ask: Ask,
    want: Want,
) -> Result<bool, Stopped>
    requires sound { ListSound v.old }
    requires can { CanServe shape.now (list_seen v.old) (list_kept v.old) }
    requires in_step { InStep shape.now (list_seen v.old).words memo.old }
    ensures follows { FollowsHeld shape.now (list_seen v.new) (list_kept v.new) memo.new result }
    ensures sound { ListSound v.new }
{
    let path = path_of(ask);
    if !is_path(path) {
        return Ok(false);
    }
    match ask {
        Ask::Region(_, data_pages, undo_pages) => region_held(
            alloc, v, shape, memo, path, data_pages, undo_pages, want,
        ),
        Ask::RegionOf(_) => Ok(region_of_held(v, shape, memo, path, want)),
        Ask::WriteMany(_, off, byte, count) => {
            write_many_held(alloc, v, shape, memo, path, off, byte, count, want)
        }
        Ask::Unlink(_) => unlink_held(alloc, v, shape, memo, path, want),
        Ask::Rename(_, to) => rename_held(alloc, v, shape, memo, path, to, want),
        _ => bytes_held(alloc, v, shape, memo, path, ask, want),
    }
}

/// Makes so many files in an empty root directory.
fn fill_held(
    alloc: Global,
    v: &mut ListVolume,
    shape: &VolumeShape,
    memo: &mut Memo,
    count: u8,
    want: Want,
) -> Result<bool, Stopped>
    requires sound { ListSound v.old }
    requires can { CanServe shape.now (list_seen v.old) (list_kept v.old) }
    requires in_step { InStep shape.now (list_seen v.old).words memo.old }
    ensures follows { FollowsHeld shape.now (list_seen v.new) (list_kept v.new) memo.new result }
    ensures sound { ListSound v.new }
{
    for n in 0..count {
        if !create_held(
            alloc,
            v,
            shape,
            memo,
            &numbered(n),
            Want::Number(n as u64 + 2),
        )? {
            return Ok(false);
        }
    }
    Ok(is_done(want))
}

/// Whether a request answers as it must; or the stop that came in its place.
fn answers_held(
    alloc: Global,
    v: &mut ListVolume,
    shape: &VolumeShape,
    memo: &mut Memo,
    ask: Ask,
    want: Want,
) -> Result<bool, Stopped>
    requires sound { ListSound v.old }
    requires can { CanServe shape.now (list_seen v.old) (list_kept v.old) }
    requires in_step { InStep shape.now (list_seen v.old).words memo.old }
    ensures follows { FollowsHeld shape.now (list_seen v.new) (list_kept v.new) memo.new result }
    ensures sound { ListSound v.new }
{
    match ask {
        Ask::Fill(count) => fill_held(alloc, v, shape, memo, count, want),
        Ask::Free => Ok(free_as(v, shape, want)),
        Ask::Block(b) => Ok(block_as(v, shape, b, want)),
        _ => answers_at(alloc, v, shape, memo, ask, want),
    }
}

/// Makes requests one after the other with one memo, up to the first that answers otherwise than it must, and tells which that
/// is, if any; or the stop that came in place of an answer.
pub(crate) fn first_other_held(
    alloc: Global,
    v: &mut ListVolume,
    shape: &VolumeShape,
    rows: &[Row],
) -> Result<Option<usize>, Stopped>
    requires sound { ListSound v.old }
    requires can { CanServe shape.now (list_seen v.old) (list_kept v.old) }
{
    let mut memo = Memo::new(alloc);
    for t in 0..rows.len() {
        let (ask, want) = rows[t];
        if !answers_held(alloc, v, shape, &mut memo, ask, want)? {
            return Ok(Some(t));
        }
    }
    Ok(None)
}
