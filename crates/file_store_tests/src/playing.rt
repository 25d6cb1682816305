//! Requests on a fresh volume, as they go and stopped at each of their steps.

ghost use Rattle.std.specs.Prelude.{◌≤◌};
ghost use Rattle.test_objects.specs.ListVolumes.{ListSound, list_kept, list_seen};
ghost use Rattle.test_objects.specs.TestVolumes.{IsTestShape};
ghost use Rattle.request_ends.specs.Ends.{CanServe};

use crate::asks::Row;
use crate::calls::first_other;
use crate::held_calls::first_other_held;
use rio_base::{Stopped, VolumeShape};
use std::alloc::Global;
use std::process::Abort;
use test_objects::{ListVolume, SHAPE, fresh, start_again};

/// A volume with one free block.
const FULL: VolumeShape = VolumeShape {
    version: 1,
    blocks: 5,
    inodes: 64,
};

/// A volume with more inodes than a page of a directory has rows.
const MANY_NODES: VolumeShape = VolumeShape {
    version: 1,
    blocks: 256,
    inodes: 128,
};

/// The volumes of tests.
#[derive(Clone, Copy)]
pub(crate) enum Size {
    /// 256 blocks and 64 inodes.
    Usual,
    /// One free block.
    Full,
    /// More inodes than a page of a directory has rows.
    ManyNodes,
}

/// Requests on a fresh volume: what they show, its size, and each of them with its answer.
pub(crate) type Table = (&'static str, Size, &'static [Row]);

/// The steps that make a fresh volume.
const FRESH_STEPS: u64 = 6;

/// What came of requests that may be stopped.
#[derive(Clone, Copy)]
enum Came {
    Stopped,
    Answered,
    Wrong,
}

/// The shape of a volume.
fn shape_of(size: Size) -> VolumeShape
    ensures { IsTestShape result }
{
    match size {
        Size::Usual => SHAPE,
        Size::Full => FULL,
        Size::ManyNodes => MANY_NODES,
    }
}

/// A fresh volume. It stops after so many steps, of which making it takes six.
fn fresh_volume(
    rt: &impl Abort,
    alloc: Global,
    shape: &VolumeShape,
    stop_after: Option<u64>,
) -> ListVolume
    requires { IsTestShape shape.now }
    ensures sound { ListSound result }
    ensures can { CanServe shape.now (list_seen result) (list_kept result) }
{
    match fresh(alloc, shape, stop_after) {
        Ok(v) => v,
        Err(_fail) => panic!(rt; "no volume"),
    }
}

/// Makes the requests of a table, each of which must answer as its row says.
fn all_answer(
    rt: &impl Abort,
    alloc: Global,
    v: &mut ListVolume,
    shape: &VolumeShape,
    table: &str,
    rows: &[Row],
)
    requires sound { ListSound v.old }
    requires can { CanServe shape.now (list_seen v.old) (list_kept v.old) }
    ensures can { CanServe shape.now (list_seen v.new) (list_kept v.new) }
    ensures sound { ListSound v.new }
{
    match first_other(alloc, v, shape, rows) {
        Ok(None) => {}
        Ok(Some(row)) => panic!(rt; "{table}: row {row} is answered otherwise"),
        Err(Stopped) => panic!(rt; "{table}: stopped"),
    }
}

/// A fresh volume on which these requests were made, each of which must answer as its row says.
pub(crate) fn volume_after(
    rt: &impl Abort,
    alloc: Global,
    shape: &VolumeShape,
    table: &str,
    rows: &[Row],
) -> ListVolume
    requires { IsTestShape shape.now }
    ensures sound { ListSound result }
    ensures can { CanServe shape.now (list_seen result) (list_kept result) }
{
    let mut v = fresh_volume(rt, alloc, shape, None);
    all_answer(rt, alloc, &mut v, shape, table, rows);
    v
}

/// Makes the requests of a table on a fresh volume, with a memo of it: each must answer as its row says.
fn all_answer_held(rt: &impl Abort, alloc: Global, shape: &VolumeShape, table: &str, rows: &[Row])
    requires { IsTestShape shape.now }
{
    let mut v = fresh_volume(rt, alloc, shape, None);
    match first_other_held(alloc, &mut v, shape, rows) {
        Ok(None) => {}
        Ok(Some(row)) => panic!(rt; "{table}: row {row} is answered otherwise with a memo"),
        Err(Stopped) => panic!(rt; "{table}: stopped with a memo"),
    }
}

/// Makes the requests of tables, each on two volumes of its own: with no memo and with one.
pub(crate) fn on_each_fresh(rt: &impl Abort, alloc: Global, tables: &[Table]) {
    for (table, size, rows) in tables.iter() {
        let shape = shape_of(*size);
        let _v = volume_after(rt, alloc, &shape, table, rows);
        all_answer_held(rt, alloc, &shape, table, rows);
    }
}

/// Makes requests, and goes on with what stands where they are stopped.
fn play_or_start(alloc: Global, v: &mut ListVolume, shape: &VolumeShape, rows: &[Row]) -> Came
    requires sound { ListSound v.old }
    requires can { CanServe shape.now (list_seen v.old) (list_kept v.old) }
    ensures can { CanServe shape.now (list_seen v.new) (list_kept v.new) }
    ensures sound { ListSound v.new }
{
    match first_other(alloc, v, shape, rows) {
        Ok(None) => Came::Answered,
        Ok(Some(_)) => Came::Wrong,
        Err(Stopped) => {
            start_again(v, shape, None);
            Came::Stopped
        }
    }
}

/// Whether in one of these lists each request answers so.
fn is_among(
    alloc: Global,
    v: &mut ListVolume,
    shape: &VolumeShape,
    lists: &[&[Row]],
) -> Result<bool, Stopped>
    requires sound { ListSound v.old }
    requires can { CanServe shape.now (list_seen v.old) (list_kept v.old) }
{
    for t in 0..lists.len() {
        if first_other(alloc, v, shape, lists[t])?.is_none() {
            return Ok(true);
        }
    }
    Ok(false)
}

/// What comes of the requests where they are stopped after so many steps.
fn stopped_after(
    rt: &impl Abort,
    alloc: Global,
    rows: &[Row],
    may_stand: &[&[Row]],
    steps: u64,
) -> Came
    requires few { steps ≤ 200 }
{
    let mut v = fresh_volume(rt, alloc, &SHAPE, Some(FRESH_STEPS + steps));
    let came = play_or_start(alloc, &mut v, &SHAPE, rows);
    if is_among(alloc, &mut v, &SHAPE, may_stand).expect(rt, "what stands answers") {
        return came;
    }
    Came::Wrong
}

/// Makes requests on a fresh volume, stopped after each number of steps up to the one after which all are answered, which
/// is `least` or more. After the stop, and after the last answer, all requests of one list of `may_stand` must answer so.
pub(crate) fn at_each_step(
    rt: &impl Abort,
    alloc: Global,
    table: &str,
    rows: &[Row],
    may_stand: &[&[Row]],
    least: u64,
) {
    for steps in 0..200u64 {
        match stopped_after(rt, alloc, rows, may_stand, steps) {
            Came::Stopped => {}
            Came::Wrong => panic!(rt; "{table}: wrong after {steps} steps"),
            Came::Answered => {
                assert!(rt; least <= steps, "{table}: answered after {steps} steps");
                return;
            }
        }
    }
    panic!(rt; "{table}: not answered within 200 steps");
}
