//! Requests made one after the other, each of which must answer as its row says.

ghost use Rattle.std.specs.Prelude.{◌≡◌};
ghost use Rattle.test_objects.specs.ListVolumes.{ListSound, list_kept, list_seen};
ghost use Rattle.rio_model.specs.Paths.{IsPath};
ghost use Rattle.request_ends.specs.Ends.{CanServe};
ghost use Rattle.file_store_tests.specs.Playing.{Follows};

use crate::answers::{
    are_words, bytes_are_due, count_is_due, done_is_due, is_count, is_done, names_are_due,
    node_is_due, stat_is_due,
};
use crate::asks::{Ask, Row, Want, numbered, path_of};
use block_alloc::free_count;
use file_store::{
    create, list, make_region, mkdir, read, region_of, rename, rmdir, stat, truncate, unlink, write,
};
use request_codec::is_path;
use rio_base::{Block, Blocks, InoList, Stopped, Volume, VolumeShape};
use std::alloc::Global;
use test_objects::ListVolume;

fn create_as(
    alloc: Global,
    v: &mut ListVolume,
    shape: &VolumeShape,
    path: &[u8],
    want: Want,
) -> Result<bool, Stopped>
    requires sound { ListSound v.old }
    requires can { CanServe shape.now (list_seen v.old) (list_kept v.old) }
    ensures follows { Follows shape.now (list_seen v.new) (list_kept v.new) result }
    ensures sound { ListSound v.new }
{
    if !is_path(path) {
        return Ok(false);
    }
    let answer = create(alloc, v, shape, path);
    node_is_due(answer, want)
}

fn write_as(
    alloc: Global,
    v: &mut ListVolume,
    shape: &VolumeShape,
    path: &[u8],
    off: u64,
    bytes: &[u8],
    want: Want,
) -> Result<bool, Stopped>
    requires sound { ListSound v.old }
    requires can { CanServe shape.now (list_seen v.old) (list_kept v.old) }
    requires path { IsPath path.now }
    ensures follows { Follows shape.now (list_seen v.new) (list_kept v.new) result }
    ensures sound { ListSound v.new }
{
    let answer = write(alloc, v, shape, path, off, bytes);
    count_is_due(answer, want)
}

/// Writes so many bytes of one value. Without memory for them it is not answered as it must.
fn write_many_as(
    alloc: Global,
    v: &mut ListVolume,
    shape: &VolumeShape,
    path: &[u8],
    off: u64,
    byte: u8,
    count: usize,
    want: Want,
) -> Result<bool, Stopped>
    requires sound { ListSound v.old }
    requires can { CanServe shape.now (list_seen v.old) (list_kept v.old) }
    requires path { IsPath path.now }
    ensures follows { Follows shape.now (list_seen v.new) (list_kept v.new) result }
    ensures sound { ListSound v.new }
{
    let Ok(bytes) = vec![in alloc; byte; count] else {
        return Ok(false);
    };
    write_as(alloc, v, shape, path, off, &bytes, want)
}

fn unlink_as(
    alloc: Global,
    v: &mut ListVolume,
    shape: &VolumeShape,
    path: &[u8],
    want: Want,
) -> Result<bool, Stopped>
    requires sound { ListSound v.old }
    requires can { CanServe shape.now (list_seen v.old) (list_kept v.old) }
    requires path { IsPath path.now }
    ensures follows { Follows shape.now (list_seen v.new) (list_kept v.new) result }
    ensures sound { ListSound v.new }
{
    let busy = InoList::from(Vec::new(alloc));
    let answer = unlink(alloc, v, shape, path, &busy);
    done_is_due(answer, want)
}

fn rename_as(
    alloc: Global,
    v: &mut ListVolume,
    shape: &VolumeShape,
    path: &[u8],
    to: &[u8],
    want: Want,
) -> Result<bool, Stopped>
    requires sound { ListSound v.old }
    requires can { CanServe shape.now (list_seen v.old) (list_kept v.old) }
    requires path { IsPath path.now }
    ensures follows { Follows shape.now (list_seen v.new) (list_kept v.new) result }
    ensures sound { ListSound v.new }
{
    if !is_path(to) {
        return Ok(false);
    }
    let busy = InoList::from(Vec::new(alloc));
    let answer = rename(alloc, v, shape, path, to, &busy);
    done_is_due(answer, want)
}

fn region_as(
    alloc: Global,
    v: &mut ListVolume,
    shape: &VolumeShape,
    path: &[u8],
    data_pages: u64,
    undo_pages: u64,
    want: Want,
) -> Result<bool, Stopped>
    requires sound { ListSound v.old }
    requires can { CanServe shape.now (list_seen v.old) (list_kept v.old) }
    requires path { IsPath path.now }
    ensures follows { Follows shape.now (list_seen v.new) (list_kept v.new) result }
    ensures sound { ListSound v.new }
{
    if data_pages == 0 {
        return Ok(false);
    }
    if undo_pages == 0 {
        return Ok(false);
    }
    let answer = make_region(alloc, v, shape, path, data_pages, undo_pages);
    node_is_due(answer, want)
}

/// Finds a region, which takes no step.
fn region_of_as(v: &mut ListVolume, shape: &VolumeShape, path: &[u8], want: Want) -> bool
    requires sound { ListSound v.old }
    requires can { CanServe shape.now (list_seen v.old) (list_kept v.old) }
    requires path { IsPath path.now }
    ensures can { CanServe shape.now (list_seen v.new) (list_kept v.new) }
    ensures sound { ListSound v.new }
{
    match node_is_due(region_of(v, shape, path), want) {
        Ok(due) => due,
        Err(Stopped) => false,
    }
}

/// Counts the free blocks, which takes no step.
pub(crate) fn free_as<V: Volume>(v: &mut V, shape: &VolumeShape, want: Want) -> bool
    requires sound { V.sound v.old }
    requires can { CanServe shape.now (V.seen v.old) (V.kept v.old) }
    ensures words { (V.seen v.new).words ≡ (V.seen v.old).words }
    ensures can { CanServe shape.now (V.seen v.new) (V.kept v.new) }
    ensures sound { V.sound v.new }
{
    let answer = free_count(v, shape);
    is_count(answer, want)
}

/// Reads the words of a block, which takes no step.
pub(crate) fn block_as(v: &mut ListVolume, shape: &VolumeShape, b: u32, want: Want) -> bool
    requires sound { ListSound v.old }
    requires can { CanServe shape.now (list_seen v.old) (list_kept v.old) }
    ensures words { (list_seen v.new).words ≡ (list_seen v.old).words }
    ensures can { CanServe shape.now (list_seen v.new) (list_kept v.new) }
    ensures sound { ListSound v.new }
{
    if b >= shape.blocks {
        return false;
    }
    let mut words = [9; 512];
    match v.read_run(Block(b), None, 0, &mut words) {
        Ok(()) => are_words(&words, want),
        Err(_) => false,
    }
}

/// Makes so many files in an empty root directory.
fn fill_as(
    alloc: Global,
    v: &mut ListVolume,
    shape: &VolumeShape,
    count: u8,
    want: Want,
) -> Result<bool, Stopped>
    requires sound { ListSound v.old }
    requires can { CanServe shape.now (list_seen v.old) (list_kept v.old) }
    ensures follows { Follows shape.now (list_seen v.new) (list_kept v.new) result }
    ensures sound { ListSound v.new }
{
    for n in 0..count {
        if !create_as(alloc, v, shape, &numbered(n), Want::Number(n as u64 + 2))? {
            return Ok(false);
        }
    }
    Ok(is_done(want))
}

/// Whether a request at a path that makes a directory or file, or looks at or drops a directory, answers as it must; or the
/// stop that came in its place.
fn names_as(
    alloc: Global,
    v: &mut ListVolume,
    shape: &VolumeShape,
    path: &[u8],
    ask: Ask,
    want: Want,
) -> Result<bool, Stopped>
    requires sound { ListSound v.old }
    requires can { CanServe shape.now (list_seen v.old) (list_kept v.old) }
    requires path { IsPath path.now }
    ensures follows { Follows shape.now (list_seen v.new) (list_kept v.new) result }
    ensures sound { ListSound v.new }
{
    match ask {
        Ask::Mkdir(_) => node_is_due(mkdir(alloc, v, shape, path), want),
        Ask::Create(_) => create_as(alloc, v, shape, path, want),
        Ask::Rmdir(_) => done_is_due(rmdir(alloc, v, shape, path), want),
        Ask::List(_) => names_are_due(list(alloc, v, shape, path), want),
        // Not reached: other requests are made elsewhere.
        _ => Ok(false),
    }
}

/// Whether a request for what a file has, a request for a change of it, or one of [`names_as`] answers as it must; or the stop that
/// came in its place.
fn bytes_as(
    alloc: Global,
    v: &mut ListVolume,
    shape: &VolumeShape,
    path: &[u8],
    ask: Ask,
    want: Want,
) -> Result<bool, Stopped>
    requires sound { ListSound v.old }
    requires can { CanServe shape.now (list_seen v.old) (list_kept v.old) }
    requires path { IsPath path.now }
    ensures follows { Follows shape.now (list_seen v.new) (list_kept v.new) result }
    ensures sound { ListSound v.new }
{
    match ask {
        Ask::Write(_, off, bytes) => write_as(alloc, v, shape, path, off, bytes, want),
        Ask::Read(_, off, len) => bytes_are_due(read(alloc, v, shape, path, off, len), want),
        Ask::Truncate(_, len) => done_is_due(truncate(alloc, v, shape, path, len), want),
        Ask::Stat(_) => stat_is_due(stat(alloc, v, shape, path), want),
        _ => names_as(alloc, v, shape, path, ask, want),
    }
}

/// Whether any request at a path answers as it must; or the stop that came in its place.
fn answers_at(
    alloc: Global,
    v: &mut ListVolume,
    shape: &VolumeShape,
    ask: Ask,
    want: Want,
) -> Result<bool, Stopped>
    requires sound { ListSound v.old }
    requires can { CanServe shape.now (list_seen v.old) (list_kept v.old) }
    ensures follows { Follows shape.now (list_seen v.new) (list_kept v.new) result }
    ensures sound { ListSound v.new }
{
    let path = path_of(ask);
    if !is_path(path) {
        return Ok(false);
    }
    match ask {
        Ask::Region(_, data_pages, undo_pages) => {
            region_as(alloc, v, shape, path, data_pages, undo_pages, want)
        }
        Ask::RegionOf(_) => Ok(region_of_as(v, shape, path, want)),
        Ask::WriteMany(_, off, byte, count) => {
            write_many_as(alloc, v, shape, path, off, byte, count, want)
        }
        Ask::Unlink(_) => unlink_as(alloc, v, shape, path, want),
        Ask::Rename(_, to) => rename_as(alloc, v, shape, path, to, want),
        _ => bytes_as(alloc, v, shape, path, ask, want),
    }
}

/// Whether a request answers as it must; or the stop that came in its place.
fn answers(
    alloc: Global,
    v: &mut ListVolume,
    shape: &VolumeShape,
    ask: Ask,
    want: Want,
) -> Result<bool, Stopped>
    requires sound { ListSound v.old }
    requires can { CanServe shape.now (list_seen v.old) (list_kept v.old) }
    ensures follows { Follows shape.now (list_seen v.new) (list_kept v.new) result }
    ensures sound { ListSound v.new }
{
    match ask {
        Ask::Fill(count) => fill_as(alloc, v, shape, count, want),
        Ask::Free => Ok(free_as(v, shape, want)),
        Ask::Block(b) => Ok(block_as(v, shape, b, want)),
        _ => answers_at(alloc, v, shape, ask, want),
    }
}

/// Makes requests one after the other, up to the first that answers otherwise than it must, and tells which that is, if
/// any; or the stop that came in place of an answer.
pub(crate) fn first_other(
    alloc: Global,
    v: &mut ListVolume,
    shape: &VolumeShape,
    rows: &[Row],
) -> Result<Option<usize>, Stopped>
    requires sound { ListSound v.old }
    requires can { CanServe shape.now (list_seen v.old) (list_kept v.old) }
    ensures follows { Follows shape.now (list_seen v.new) (list_kept v.new) result }
    ensures sound { ListSound v.new }
{
    for t in 0..rows.len() {
        let (ask, want) = rows[t];
        if !answers(alloc, v, shape, ask, want)? {
            return Ok(Some(t));
        }
    }
    Ok(None)
}
