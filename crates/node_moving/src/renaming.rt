//! A name moved.

ghost use Rattle.std.specs.Prelude.{◌≡◌, ◌<◌, ℕ, IsErrOf, OnOk};
ghost use Rattle.std.specs.FinMap.{get};
ghost use Rattle.rio_base.specs.Blocks.{EndsBy};
ghost use Rattle.rio_base.specs.Volume.{Goes};
ghost use Rattle.rio_base.specs.NodeKinds.{dir_kind};
ghost use Rattle.rio_model.specs.Held.{held_of};
ghost use Rattle.rio_model.specs.Paths.{IsName, IsPath};
ghost use Rattle.rio_model.specs.VolumeReads.{ReadsAs};
ghost use Rattle.rio_model.specs.declared.state.State.{State};
ghost use Rattle.directories.specs.Rows.{HasRow};
ghost use Rattle.rio_requests.specs.Answers.{move_row as move_row_of, rename as rename_of, rename_row as rename_row_of, replace_row as replace_row_of};
ghost use Rattle.rio_requests.specs.Parts.{NoneDone};
ghost use Rattle.rio_model.specs.Placed.{volume_layout};
ghost use Rattle.node_pages.specs.Staging.{Forgets};
ghost use Rattle.request_ends.specs.Ends.{CanServe, FileEnds, SaysDone};
ghost use Rattle.request_ends.specs.Failures.{Faulted};
ghost use Rattle.file_tree.specs.Memos.{InStep};
ghost use Rattle.node_moving.specs.WalkRules.{OutOfReach};
ghost use Rattle.file_tree.specs.Walks.{IsRow, ino_numbers};

use crate::moving::{move_row, replace_row};
use file_tree::{
    Memo, Row, cut_last, is_below, is_root, look_up_in, walk, walk_to_dir, walk_to_row,
};
use request_ends::FileFail;
use rio_base::{Ino, InoList, Volume, VolumeShape};
use rio_model::Refusal;
use std::alloc::Global;

/// Moves a row to a name that its directory has not, and tells so.
fn move_to<V: Volume>(
    alloc: Global,
    v: &mut V,
    shape: &VolumeShape,
    memo: &mut Memo,
    from: Row,
    old: &[u8],
    dir: Ino,
    name: &[u8],
) -> Result<(), FileFail>
    requires sound { V.sound v.old }
    requires can { CanServe shape.now (V.seen v.old) (V.kept v.old) }
    requires in_step { InStep shape.now (V.seen v.old).words memo.old }
    requires from { IsRow shape.now (V.seen v.old).words old.now from }
    requires used { 0 < (held_of shape.now (V.seen v.old).words from.ino.0).kind }
    requires dir { (held_of shape.now (V.seen v.old).words dir.0).kind ≡ dir_kind }
    requires is_name { IsName name.now }
    requires absent { (n : ℕ) → HasRow (held_of shape.now (V.seen v.old).words dir.0) name.now n → ⊥ }
    requires out { (s : State) → ReadsAs shape.now (V.seen v.old).words s → OutOfReach s from.ino.0 dir.0 }
    ensures leaves { (s : State) → ReadsAs shape.now (V.seen v.old).words s → FileEnds SaysDone shape.now (V.seen v.old) (V.kept v.old) (V.seen v.new) (V.kept v.new) s (move_row_of s from.dir.0 old.now dir.0 name.now from.ino.0) (NoneDone s) result }
    ensures in_step { (IsErrOf result FileFail.Stopped → ⊥) → InStep shape.now (V.seen v.new).words memo.new }
    ensures forgets { OnOk result (Forgets (volume_layout shape.now (V.seen v.old).words) (volume_layout shape.now (V.seen v.new).words) (V.seen v.new)) }
    ensures goes { Goes (V.health v.old) (V.below v.old) (V.health v.new) (V.below v.new) }
    ensures ends { EndsBy (V.health v.old) (V.health v.new) (Faulted result) (IsErrOf result FileFail.Stopped) }
    ensures sound { V.sound v.new }
{
    let done = move_row(alloc, v, shape, from, dir, name);
    if done.is_err() {
        return done;
    }
    memo.moved(from.dir, old, dir, name, from.ino);
    done
}

/// Puts a row in place of another one, and tells so. Where both name one node, nothing changes.
fn put_over<V: Volume>(
    alloc: Global,
    v: &mut V,
    shape: &VolumeShape,
    memo: &mut Memo,
    from: Row,
    old: &[u8],
    to: Row,
    name: &[u8],
    busy: &InoList,
) -> Result<(), FileFail>
    requires sound { V.sound v.old }
    requires can { CanServe shape.now (V.seen v.old) (V.kept v.old) }
    requires in_step { InStep shape.now (V.seen v.old).words memo.old }
    requires from { IsRow shape.now (V.seen v.old).words old.now from }
    requires used { 0 < (held_of shape.now (V.seen v.old).words from.ino.0).kind }
    requires to { IsRow shape.now (V.seen v.old).words name.now to }
    requires used_to { 0 < (held_of shape.now (V.seen v.old).words to.ino.0).kind }
    requires is_name { IsName name.now }
    ensures leaves { (s : State) → ReadsAs shape.now (V.seen v.old).words s → FileEnds SaysDone shape.now (V.seen v.old) (V.kept v.old) (V.seen v.new) (V.kept v.new) s (replace_row_of s (ino_numbers busy.now) from.dir.0 old.now to.dir.0 name.now from.ino.0 to.ino.0) (NoneDone s) result }
    ensures in_step { (IsErrOf result FileFail.Stopped → ⊥) → InStep shape.now (V.seen v.new).words memo.new }
    ensures forgets { OnOk result (Forgets (volume_layout shape.now (V.seen v.old).words) (volume_layout shape.now (V.seen v.new).words) (V.seen v.new)) }
    ensures goes { Goes (V.health v.old) (V.below v.old) (V.health v.new) (V.below v.new) }
    ensures ends { EndsBy (V.health v.old) (V.health v.new) (Faulted result) (IsErrOf result FileFail.Stopped) }
    ensures sound { V.sound v.new }
{
    let done = replace_row(alloc, v, shape, from, to, name, busy);
    if from.ino.0 == to.ino.0 {
        return done;
    }
    if done.is_err() {
        return done;
    }
    memo.replaced(from.dir, old, to.dir, name, from.ino, to.ino);
    done
}

/// Moves a row to a name of a directory: to a new one, or over the row that has it.
fn rename_row<V: Volume>(
    alloc: Global,
    v: &mut V,
    shape: &VolumeShape,
    memo: &mut Memo,
    from: Row,
    old: &[u8],
    dir: Ino,
    name: &[u8],
    busy: &InoList,
) -> Result<(), FileFail>
    requires sound { V.sound v.old }
    requires can { CanServe shape.now (V.seen v.old) (V.kept v.old) }
    requires in_step { InStep shape.now (V.seen v.old).words memo.old }
    requires from { IsRow shape.now (V.seen v.old).words old.now from }
    requires used { 0 < (held_of shape.now (V.seen v.old).words from.ino.0).kind }
    requires dir { (held_of shape.now (V.seen v.old).words dir.0).kind ≡ dir_kind }
    requires is_name { IsName name.now }
    requires out { (s : State) → ReadsAs shape.now (V.seen v.old).words s → OutOfReach s from.ino.0 dir.0 }
    ensures leaves { (s : State) → ReadsAs shape.now (V.seen v.old).words s → FileEnds SaysDone shape.now (V.seen v.old) (V.kept v.old) (V.seen v.new) (V.kept v.new) s (rename_row_of s (ino_numbers busy.now) from.dir.0 old.now dir.0 name.now from.ino.0 (get s.names (dir.0, name.now))) (NoneDone s) result }
    ensures in_step { (IsErrOf result FileFail.Stopped → ⊥) → InStep shape.now (V.seen v.new).words memo.new }
    ensures forgets { OnOk result (Forgets (volume_layout shape.now (V.seen v.old).words) (volume_layout shape.now (V.seen v.new).words) (V.seen v.new)) }
    ensures goes { Goes (V.health v.old) (V.below v.old) (V.health v.new) (V.below v.new) }
    ensures ends { EndsBy (V.health v.old) (V.health v.new) (Faulted result) (IsErrOf result FileFail.Stopped) }
    ensures sound { V.sound v.new }
{
    let found = look_up_in(v, shape, memo, dir, name)?;
    match found {
        None => move_to(alloc, v, shape, memo, from, old, dir, name),
        Some(row) => {
            let to = Row {
                dir,
                slot: row.1,
                ino: row.0,
            };
            put_over(alloc, v, shape, memo, from, old, to, name, busy)
        }
    }
}

/// Moves a name to another path. A file or region that has it is removed, and its blocks become free.
pub fn rename<V: Volume>(
    alloc: Global,
    v: &mut V,
    shape: &VolumeShape,
    memo: &mut Memo,
    path: &[u8],
    to: &[u8],
    busy: &InoList,
) -> Result<(), FileFail>
    requires sound { V.sound v.old }
    requires can { CanServe shape.now (V.seen v.old) (V.kept v.old) }
    requires in_step { InStep shape.now (V.seen v.old).words memo.old }
    requires path { IsPath path.now }
    requires to { IsPath to.now }
    ensures leaves { (s : State) → ReadsAs shape.now (V.seen v.old).words s → FileEnds SaysDone shape.now (V.seen v.old) (V.kept v.old) (V.seen v.new) (V.kept v.new) s (rename_of s path.now to.now (ino_numbers busy.now)) (NoneDone s) result }
    ensures in_step { (IsErrOf result FileFail.Stopped → ⊥) → InStep shape.now (V.seen v.new).words memo.new }
    ensures forgets { OnOk result (Forgets (volume_layout shape.now (V.seen v.old).words) (volume_layout shape.now (V.seen v.new).words) (V.seen v.new)) }
    ensures goes { Goes (V.health v.old) (V.below v.old) (V.health v.new) (V.below v.new) }
    ensures ends { EndsBy (V.health v.old) (V.health v.new) (Faulted result) (IsErrOf result FileFail.Stopped) }
    ensures sound { V.sound v.new }
{
    walk(v, shape, memo, path)?;
    if is_root(to) {
        return Err(FileFail::Refused(Refusal::IsRoot as u8));
    }
    let (front, name) = cut_last(to);
    let dir = walk_to_dir(v, shape, memo, front)?;
    if is_root(path) {
        return Err(FileFail::Refused(Refusal::IsRoot as u8));
    }
    if is_below(to, path) {
        return Err(FileFail::Refused(Refusal::InsideItself as u8));
    }
    let from = walk_to_row(v, shape, memo, path)?;
    let (_, old) = cut_last(path);
    rename_row(alloc, v, shape, memo, from, old, dir, name, busy)
}
