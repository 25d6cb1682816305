//! Requests on files and directories, answered over a volume.

ghost use Rattle.std.specs.Prelude.{IsErr};
ghost use Rattle.rio_base.specs.Blocks.{EndsBy};
ghost use Rattle.rio_base.specs.Volume.{Goes};
ghost use Rattle.rio_requests.specs.Requests.{IsRequest, OnFiles};
ghost use Rattle.rio_model.specs.declared.state.State.{State};
ghost use Rattle.file_tree.specs.Memos.{InStep};
ghost use Rattle.rio_core.specs.Lines.{ByName};
ghost use Rattle.rio_core.specs.Serving.{RequestEnds, Serves, TellsFault};

use crate::replies::{bytes_reply, count_reply, done_reply, ino_reply, names_reply, stat_reply};
use file_data::{read, truncate, write};
use file_tree::Memo;
use node_making::{create, list, make_region, mkdir, stat};
use node_moving::{rename, rmdir, unlink};
use rio_base::{Stopped, Volume, VolumeShape};
use rio_model::Refusal;
use rio_requests::{Reply, Request};
use std::alloc::Global;
use vista_region::OpenTable;

/// Answers a request on files and directories. The open transactions stay as they are: a region that has one is not removed. What
/// is held in memory is in step afterwards, unless the machine is stopped.
fn answer_on<V: Volume>(
    alloc: Global,
    v: &mut V,
    shape: &VolumeShape,
    memo: &mut Memo,
    table: &OpenTable,
    request: &Request,
) -> Result<Reply, Stopped>
    requires sound { V.sound v.old }
    requires serves { (s : State) × Serves shape.now (V.seen v.old) (V.kept v.old) table.now s }
    requires in_step { InStep shape.now (V.seen v.old).words memo.old }
    requires request { IsRequest request.now }
    requires files { OnFiles request.now }
    ensures answered { (s : State) → Serves shape.now (V.seen v.old) (V.kept v.old) table.now s → RequestEnds shape.now (V.seen v.new) (V.kept v.new) table.now s request.now result }
    ensures in_step { (IsErr result → ⊥) → InStep shape.now (V.seen v.new).words memo.new }
    ensures goes { Goes (V.health v.old) (V.below v.old) (V.health v.new) (V.below v.new) }
    ensures ends { EndsBy (V.health v.old) (V.health v.new) (TellsFault result) (IsErr result) }
    ensures sound { V.sound v.new }
{
    match request {
        Request::Mkdir { path } => ino_reply(mkdir(alloc, v, shape, memo, path.as_slice())),
        Request::Create { path } => ino_reply(create(alloc, v, shape, memo, path.as_slice())),
        Request::Write { path, off, bytes } => count_reply(write(
            alloc,
            v,
            shape,
            memo,
            path.as_slice(),
            *off,
            bytes.as_slice(),
        )),
        Request::Read { path, off, len } => {
            bytes_reply(read(alloc, v, shape, memo, path.as_slice(), *off, *len))
        }
        Request::Truncate { path, len } => {
            done_reply(truncate(alloc, v, shape, memo, path.as_slice(), *len))
        }
        Request::Region {
            path,
            data_pages,
            undo_pages,
        } => ino_reply(make_region(
            alloc,
            v,
            shape,
            memo,
            path.as_slice(),
            *data_pages,
            *undo_pages,
        )),
        Request::Stat { path } => stat_reply(stat(alloc, v, shape, memo, path.as_slice())),
        _ => answer_by_name(alloc, v, shape, memo, table, request),
    }
}

/// Answers a request that takes a name away, moves it or lists names. What is held in memory is in step afterwards, unless the
/// machine is stopped.
fn answer_by_name<V: Volume>(
    alloc: Global,
    v: &mut V,
    shape: &VolumeShape,
    memo: &mut Memo,
    table: &OpenTable,
    request: &Request,
) -> Result<Reply, Stopped>
    requires sound { V.sound v.old }
    requires serves { (s : State) × Serves shape.now (V.seen v.old) (V.kept v.old) table.now s }
    requires in_step { InStep shape.now (V.seen v.old).words memo.old }
    requires request { IsRequest request.now }
    requires by_name { ByName request.now }
    ensures answered { (s : State) → Serves shape.now (V.seen v.old) (V.kept v.old) table.now s → RequestEnds shape.now (V.seen v.new) (V.kept v.new) table.now s request.now result }
    ensures in_step { (IsErr result → ⊥) → InStep shape.now (V.seen v.new).words memo.new }
    ensures goes { Goes (V.health v.old) (V.below v.old) (V.health v.new) (V.below v.new) }
    ensures ends { EndsBy (V.health v.old) (V.health v.new) (TellsFault result) (IsErr result) }
    ensures sound { V.sound v.new }
{
    match request {
        Request::Unlink { path } => match table.open_list(alloc) {
            Ok(busy) => done_reply(unlink(alloc, v, shape, memo, path.as_slice(), &busy)),
            Err(_) => Ok(Reply::Err(Refusal::NoMemory as u8)),
        },
        Request::Rmdir { path } => done_reply(rmdir(alloc, v, shape, memo, path.as_slice())),
        Request::Rename { path, to } => match table.open_list(alloc) {
            Ok(busy) => done_reply(rename(
                alloc,
                v,
                shape,
                memo,
                path.as_slice(),
                to.as_slice(),
                &busy,
            )),
            Err(_) => Ok(Reply::Err(Refusal::NoMemory as u8)),
        },
        Request::List { path } => names_reply(list(alloc, v, shape, memo, path.as_slice())),
        // The others are answered elsewhere.
        _ => unreachable!(),
    }
}

/// Answers a request on files and directories. The open transactions stay as they are: a region that has one is not removed. Where
/// the machine is stopped, all that is held in memory is let go: it is not known what the blocks have become.
pub fn answer_files<V: Volume>(
    alloc: Global,
    v: &mut V,
    shape: &VolumeShape,
    memo: &mut Memo,
    table: &OpenTable,
    request: &Request,
) -> Result<Reply, Stopped>
    requires sound { V.sound v.old }
    requires serves { (s : State) × Serves shape.now (V.seen v.old) (V.kept v.old) table.now s }
    requires in_step { InStep shape.now (V.seen v.old).words memo.old }
    requires request { IsRequest request.now }
    requires files { OnFiles request.now }
    ensures answered { (s : State) → Serves shape.now (V.seen v.old) (V.kept v.old) table.now s → RequestEnds shape.now (V.seen v.new) (V.kept v.new) table.now s request.now result }
    ensures in_step { InStep shape.now (V.seen v.new).words memo.new }
    ensures goes { Goes (V.health v.old) (V.below v.old) (V.health v.new) (V.below v.new) }
    ensures ends { EndsBy (V.health v.old) (V.health v.new) (TellsFault result) (IsErr result) }
    ensures sound { V.sound v.new }
{
    let answer = answer_on(alloc, v, shape, memo, table, request);
    if answer.is_ok() {
        return answer;
    }
    memo.forget();
    answer
}
