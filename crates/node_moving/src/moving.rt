//! Rows moved: within a directory or to another one, to a new name or over another row.

ghost use Rattle.std.specs.Prelude.{◌≡◌, ◌≢◌, ◌<◌, ℕ, List, IsErrOf, OnOk};
ghost use Rattle.rio_base.specs.Blocks.{EndsBy};
ghost use Rattle.rio_base.specs.Volume.{Goes};
ghost use Rattle.rio_base.specs.NodeKinds.{dir_kind};
ghost use Rattle.rio_requests.specs.Answer.{answered};
ghost use Rattle.rio_model.specs.Held.{held_of};
ghost use Rattle.rio_model.specs.Paths.{IsName};
ghost use Rattle.rio_model.specs.VolumeReads.{ReadsAs};
ghost use Rattle.rio_requests.specs.declared.reply.Reply.TheVariants.{Ok as Done};
ghost use Rattle.rio_model.specs.declared.state.State.{State};
ghost use Rattle.directories.specs.Rows.{HasRow};
ghost use Rattle.rio_requests.specs.Answers.{replaced, move_row as move_row_of, replace_row as replace_row_of};
ghost use Rattle.rio_requests.specs.Parts.{NoneDone};
ghost use Rattle.rio_model.specs.Placed.{volume_layout};
ghost use Rattle.node_pages.specs.Staging.{Forgets};
ghost use Rattle.request_ends.specs.Ends.{CanServe, FileEnds, SaysDone};
ghost use Rattle.request_ends.specs.Failures.{Faulted};
ghost use Rattle.node_moving.specs.WalkRules.{OutOfReach};
ghost use Rattle.file_tree.specs.Walks.{IsRow, ino_numbers};

use crate::removing::is_open;
use directories::{plan_add, plan_remove, plan_replace, plan_set};
use file_tree::{Row, inode_of};
use node_pages::blocks_of;
use node_updates::{NodeChange, commit_planned, node_gone};
use request_ends::FileFail;
use rio_base::{DIRECTORY, Ino, InoList, Volume, VolumeShape};
use rio_model::Refusal;
use std::alloc::Global;

/// Gives a row another name in its directory, where the name is new.
fn rename_within<V: Volume>(
    alloc: Global,
    v: &mut V,
    shape: &VolumeShape,
    from: Row,
    name: &[u8],
) -> Result<(), FileFail>
    requires sound { V.sound v.old }
    requires can { CanServe shape.now (V.seen v.old) (V.kept v.old) }
    requires from { (a : List ℕ) × IsRow shape.now (V.seen v.old).words a from }
    requires used { 0 < (held_of shape.now (V.seen v.old).words from.ino.0).kind }
    requires is_name { IsName name.now }
    requires absent { (n : ℕ) → HasRow (held_of shape.now (V.seen v.old).words from.dir.0) name.now n → ⊥ }
    ensures leaves { (s : State) (a : List ℕ) → ReadsAs shape.now (V.seen v.old).words s → IsRow shape.now (V.seen v.old).words a from → OutOfReach s from.ino.0 from.dir.0 → FileEnds SaysDone shape.now (V.seen v.old) (V.kept v.old) (V.seen v.new) (V.kept v.new) s (move_row_of s from.dir.0 a from.dir.0 name.now from.ino.0) (NoneDone s) result }
    ensures forgets { OnOk result (Forgets (volume_layout shape.now (V.seen v.old).words) (volume_layout shape.now (V.seen v.new).words) (V.seen v.new)) }
    ensures goes { Goes (V.health v.old) (V.below v.old) (V.health v.new) (V.below v.new) }
    ensures ends { EndsBy (V.health v.old) (V.health v.new) (Faulted result) (IsErrOf result FileFail.Stopped) }
    ensures sound { V.sound v.new }
{
    let set = plan_set(alloc, v, shape, from.dir, from.slot, name, from.ino)?;
    let changes = [NodeChange::from(set)];
    commit_planned(v, shape, &changes)
}

/// Moves a row to another directory, where the name is new. The row that takes blocks is planned last.
fn move_across<V: Volume>(
    alloc: Global,
    v: &mut V,
    shape: &VolumeShape,
    from: Row,
    dir: Ino,
    name: &[u8],
) -> Result<(), FileFail>
    requires sound { V.sound v.old }
    requires can { CanServe shape.now (V.seen v.old) (V.kept v.old) }
    requires from { (a : List ℕ) × IsRow shape.now (V.seen v.old).words a from }
    requires used { 0 < (held_of shape.now (V.seen v.old).words from.ino.0).kind }
    requires dir { (held_of shape.now (V.seen v.old).words dir.0).kind ≡ dir_kind }
    requires two { from.dir.0 ≢ dir.0 }
    requires is_name { IsName name.now }
    requires absent { (n : ℕ) → HasRow (held_of shape.now (V.seen v.old).words dir.0) name.now n → ⊥ }
    ensures leaves { (s : State) (a : List ℕ) → ReadsAs shape.now (V.seen v.old).words s → IsRow shape.now (V.seen v.old).words a from → OutOfReach s from.ino.0 dir.0 → FileEnds SaysDone shape.now (V.seen v.old) (V.kept v.old) (V.seen v.new) (V.kept v.new) s (move_row_of s from.dir.0 a dir.0 name.now from.ino.0) (NoneDone s) result }
    ensures forgets { OnOk result (Forgets (volume_layout shape.now (V.seen v.old).words) (volume_layout shape.now (V.seen v.new).words) (V.seen v.new)) }
    ensures goes { Goes (V.health v.old) (V.below v.old) (V.health v.new) (V.below v.new) }
    ensures ends { EndsBy (V.health v.old) (V.health v.new) (Faulted result) (IsErrOf result FileFail.Stopped) }
    ensures sound { V.sound v.new }
{
    let goes = plan_remove(alloc, v, shape, from.dir, from.slot)?;
    let comes = plan_add(alloc, v, shape, dir, name, from.ino)?;
    let changes = [NodeChange::from(goes), NodeChange::from(comes)];
    commit_planned(v, shape, &changes)
}

/// Moves a row to a name that its new directory has not.
pub fn move_row<V: Volume>(
    alloc: Global,
    v: &mut V,
    shape: &VolumeShape,
    from: Row,
    dir: Ino,
    name: &[u8],
) -> Result<(), FileFail>
    requires sound { V.sound v.old }
    requires can { CanServe shape.now (V.seen v.old) (V.kept v.old) }
    requires from { (a : List ℕ) × IsRow shape.now (V.seen v.old).words a from }
    requires used { 0 < (held_of shape.now (V.seen v.old).words from.ino.0).kind }
    requires dir { (held_of shape.now (V.seen v.old).words dir.0).kind ≡ dir_kind }
    requires is_name { IsName name.now }
    requires absent { (n : ℕ) → HasRow (held_of shape.now (V.seen v.old).words dir.0) name.now n → ⊥ }
    ensures leaves { (s : State) (a : List ℕ) → ReadsAs shape.now (V.seen v.old).words s → IsRow shape.now (V.seen v.old).words a from → OutOfReach s from.ino.0 dir.0 → FileEnds SaysDone shape.now (V.seen v.old) (V.kept v.old) (V.seen v.new) (V.kept v.new) s (move_row_of s from.dir.0 a dir.0 name.now from.ino.0) (NoneDone s) result }
    ensures forgets { OnOk result (Forgets (volume_layout shape.now (V.seen v.old).words) (volume_layout shape.now (V.seen v.new).words) (V.seen v.new)) }
    ensures goes { Goes (V.health v.old) (V.below v.old) (V.health v.new) (V.below v.new) }
    ensures ends { EndsBy (V.health v.old) (V.health v.new) (Faulted result) (IsErrOf result FileFail.Stopped) }
    ensures sound { V.sound v.new }
{
    if from.dir.0 == dir.0 {
        rename_within(alloc, v, shape, from, name)
    } else {
        move_across(alloc, v, shape, from, dir, name)
    }
}

/// Puts a row in place of another one of the same directory, whose node goes.
fn replace_within<V: Volume>(
    alloc: Global,
    v: &mut V,
    shape: &VolumeShape,
    from: Row,
    to: Row,
) -> Result<(), FileFail>
    requires sound { V.sound v.old }
    requires can { CanServe shape.now (V.seen v.old) (V.kept v.old) }
    requires from { (a : List ℕ) × IsRow shape.now (V.seen v.old).words a from }
    requires used { 0 < (held_of shape.now (V.seen v.old).words from.ino.0).kind }
    requires to { (b : List ℕ) × IsRow shape.now (V.seen v.old).words b to }
    requires used_to { 0 < (held_of shape.now (V.seen v.old).words to.ino.0).kind }
    requires other { from.ino.0 ≢ to.ino.0 }
    requires leaf { (held_of shape.now (V.seen v.old).words from.ino.0).kind ≢ 1 }
    requires leaf_to { (held_of shape.now (V.seen v.old).words to.ino.0).kind ≢ 1 }
    requires one { from.dir.0 ≡ to.dir.0 }
    ensures leaves { (s : State) (a b : List ℕ) → ReadsAs shape.now (V.seen v.old).words s → IsRow shape.now (V.seen v.old).words a from → IsRow shape.now (V.seen v.old).words b to → FileEnds SaysDone shape.now (V.seen v.old) (V.kept v.old) (V.seen v.new) (V.kept v.new) s (answered (replaced s from.dir.0 a to.dir.0 b from.ino.0 to.ino.0) Done) (NoneDone s) result }
    ensures forgets { OnOk result (Forgets (volume_layout shape.now (V.seen v.old).words) (volume_layout shape.now (V.seen v.new).words) (V.seen v.new)) }
    ensures goes { Goes (V.health v.old) (V.below v.old) (V.health v.new) (V.below v.new) }
    ensures ends { EndsBy (V.health v.old) (V.health v.new) (Faulted result) (IsErrOf result FileFail.Stopped) }
    ensures sound { V.sound v.new }
{
    let replaced = plan_replace(alloc, v, shape, to.dir, to.slot, from.ino, from.slot)?;
    let freed = blocks_of(alloc, v, shape, to.ino)?;
    let changes = [NodeChange::from(replaced), node_gone(alloc, to.ino, freed)];
    commit_planned(v, shape, &changes)
}

/// Puts a row in place of one of another directory, whose node goes.
fn replace_across<V: Volume>(
    alloc: Global,
    v: &mut V,
    shape: &VolumeShape,
    from: Row,
    to: Row,
    name: &[u8],
) -> Result<(), FileFail>
    requires sound { V.sound v.old }
    requires can { CanServe shape.now (V.seen v.old) (V.kept v.old) }
    requires from { (a : List ℕ) × IsRow shape.now (V.seen v.old).words a from }
    requires used { 0 < (held_of shape.now (V.seen v.old).words from.ino.0).kind }
    requires to { IsRow shape.now (V.seen v.old).words name.now to }
    requires used_to { 0 < (held_of shape.now (V.seen v.old).words to.ino.0).kind }
    requires is_name { IsName name.now }
    requires other { from.ino.0 ≢ to.ino.0 }
    requires leaf { (held_of shape.now (V.seen v.old).words from.ino.0).kind ≢ 1 }
    requires leaf_to { (held_of shape.now (V.seen v.old).words to.ino.0).kind ≢ 1 }
    requires two { from.dir.0 ≢ to.dir.0 }
    ensures leaves { (s : State) (a : List ℕ) → ReadsAs shape.now (V.seen v.old).words s → IsRow shape.now (V.seen v.old).words a from → FileEnds SaysDone shape.now (V.seen v.old) (V.kept v.old) (V.seen v.new) (V.kept v.new) s (answered (replaced s from.dir.0 a to.dir.0 name.now from.ino.0 to.ino.0) Done) (NoneDone s) result }
    ensures forgets { OnOk result (Forgets (volume_layout shape.now (V.seen v.old).words) (volume_layout shape.now (V.seen v.new).words) (V.seen v.new)) }
    ensures goes { Goes (V.health v.old) (V.below v.old) (V.health v.new) (V.below v.new) }
    ensures ends { EndsBy (V.health v.old) (V.health v.new) (Faulted result) (IsErrOf result FileFail.Stopped) }
    ensures sound { V.sound v.new }
{
    let goes = plan_remove(alloc, v, shape, from.dir, from.slot)?;
    let comes = plan_set(alloc, v, shape, to.dir, to.slot, name, from.ino)?;
    let freed = blocks_of(alloc, v, shape, to.ino)?;
    let gone = node_gone(alloc, to.ino, freed);
    let changes = [NodeChange::from(goes), NodeChange::from(comes), gone];
    commit_planned(v, shape, &changes)
}

/// Puts a row in place of another one, whose node goes. Where both name the same node, nothing changes.
pub fn replace_row<V: Volume>(
    alloc: Global,
    v: &mut V,
    shape: &VolumeShape,
    from: Row,
    to: Row,
    name: &[u8],
    busy: &InoList,
) -> Result<(), FileFail>
    requires sound { V.sound v.old }
    requires can { CanServe shape.now (V.seen v.old) (V.kept v.old) }
    requires from { (a : List ℕ) × IsRow shape.now (V.seen v.old).words a from }
    requires used { 0 < (held_of shape.now (V.seen v.old).words from.ino.0).kind }
    requires to { IsRow shape.now (V.seen v.old).words name.now to }
    requires used_to { 0 < (held_of shape.now (V.seen v.old).words to.ino.0).kind }
    requires is_name { IsName name.now }
    ensures leaves { (s : State) (a : List ℕ) → ReadsAs shape.now (V.seen v.old).words s → IsRow shape.now (V.seen v.old).words a from → FileEnds SaysDone shape.now (V.seen v.old) (V.kept v.old) (V.seen v.new) (V.kept v.new) s (replace_row_of s (ino_numbers busy.now) from.dir.0 a to.dir.0 name.now from.ino.0 to.ino.0) (NoneDone s) result }
    ensures forgets { OnOk result (Forgets (volume_layout shape.now (V.seen v.old).words) (volume_layout shape.now (V.seen v.new).words) (V.seen v.new)) }
    ensures goes { Goes (V.health v.old) (V.below v.old) (V.health v.new) (V.below v.new) }
    ensures ends { EndsBy (V.health v.old) (V.health v.new) (Faulted result) (IsErrOf result FileFail.Stopped) }
    ensures sound { V.sound v.new }
{
    if from.ino.0 == to.ino.0 {
        return Ok(());
    }
    let moved = inode_of(v, shape, from.ino)?;
    let gone = inode_of(v, shape, to.ino)?;
    if moved.kind == DIRECTORY {
        return Err(FileFail::Refused(Refusal::Exists as u8));
    }
    if gone.kind == DIRECTORY {
        return Err(FileFail::Refused(Refusal::Exists as u8));
    }
    if is_open(busy, to.ino, &gone) {
        return Err(FileFail::Refused(Refusal::Busy as u8));
    }
    if from.dir.0 == to.dir.0 {
        replace_within(alloc, v, shape, from, to)
    } else {
        replace_across(alloc, v, shape, from, to, name)
    }
}
