//! Rules 3 and 4: kinds and sizes.

ghost use Rattle.std.specs.Prelude.{◌≡◌, ◌↔◌, ◌≤◌, IsTrue, OnOk, IfErr};
ghost use Rattle.rio_base.specs.Blocks.{Seen};
ghost use Rattle.rio_base.specs.Layout.{IsIno, inode_block};
ghost use Rattle.rio_base.specs.NodeKinds.{dir_kind, region_kind};
ghost use Rattle.rio_model.specs.VolumeRules.{KindRule, SizeFits, SizeRule};
ghost use Rattle.volume_check.specs.Looking.{Refuses};
ghost use Rattle.volume_check.specs.Inodes.{HasInodes, layout_of};
ghost use Rattle.volume_check.specs.InodeRules.{Finds, InodeKeeps, KeepsKind, KeepsSize, TellsRule};
ghost use Rattle.volume_check.specs.Rules.{FailsInodes};

use crate::failures::CheckFail;
use crate::inodes::Inodes;
use inode_table::{LARGEST_SIZE, inode_block};
use rio_base::{Ino, Kind, PAGE_BYTES};
use rio_model::VolumeRule;

/// A directory, as a word.
pub const DIRECTORY: u64 = Kind::Directory as u64;

/// A file.
pub const FILE: u64 = Kind::File as u64;

/// A region.
pub const REGION: u64 = Kind::Region as u64;

/// The root directory.
const ROOT: Ino = Ino(1);

/// Bytes of an entry of a directory.
const ENTRY_BYTES: u64 = 64;

/// A region has so many pages at least: its header, and one of undo records, of the heap map and of data.
const REGION_PAGES: u64 = 4;

/// A rule that an inode keeps or breaks by itself.
#[derive(Clone, Copy)]
pub enum InodeRule {
    /// Rule 3: its kind is one that there is, and the root is a directory.
    Kind,
    /// Rule 4: if it is used, its size is one that its kind may have.
    Size,
}

/// Whether inode `i` may be of this kind.
fn is_known(kind: u64, i: Ino) -> bool
    ensures { IsTrue result ↔ ((kind ≤ region_kind) × (i.0 ≡ 1 → kind ≡ dir_kind)) }
{
    if i == ROOT {
        return kind == DIRECTORY;
    }
    kind <= REGION
}

/// Whether a used inode of this kind may have this size.
fn size_fits(kind: u64, size: u64) -> bool
    ensures { IsTrue result ↔ SizeFits kind size }
{
    if size > LARGEST_SIZE {
        return false;
    }
    if kind == DIRECTORY {
        return size % ENTRY_BYTES == 0;
    }
    if kind == REGION {
        return size % PAGE_BYTES == 0 && size >= REGION_PAGES * PAGE_BYTES;
    }
    true
}

/// Whether inode `i` keeps rule 3.
fn keeps_kind(inodes: &Inodes, i: Ino) -> bool
    requires { IsIno inodes.now.shape i.0 }
    ensures { IsTrue result ↔ KeepsKind inodes.now i.0 }
{
    is_known(inodes.kind(i), i)
}

/// Whether inode `i` keeps rule 4.
fn keeps_size(inodes: &Inodes, i: Ino) -> bool
    requires { IsIno inodes.now.shape i.0 }
    ensures { IsTrue result ↔ KeepsSize inodes.now i.0 }
{
    let kind = inodes.kind(i);
    if kind == 0 {
        return true;
    }
    size_fits(kind, inodes.size(i))
}

/// Whether inode `i` keeps the rule.
fn keeps(inodes: &Inodes, i: Ino, rule: InodeRule) -> bool
    requires { IsIno inodes.now.shape i.0 }
    ensures { IsTrue result ↔ InodeKeeps rule inodes.now i.0 }
{
    match rule {
        InodeRule::Kind => keeps_kind(inodes, i),
        InodeRule::Size => keeps_size(inodes, i),
    }
}

/// The least inode that breaks the rule, if there is one.
fn least_breaking(inodes: &Inodes, rule: InodeRule) -> Option<Ino>
    ensures { Finds inodes.now.shape (InodeKeeps rule inodes.now) result }
{
    for k in 0..inodes.shape.inodes {
        let i = Ino(k + 1);
        if !keeps(inodes, i, rule) {
            return Some(i);
        }
    }
    None
}

/// `BadVolume` with the rule and the block of an inode that breaks it.
pub fn broken_at(inodes: &Inodes, rule: u8, i: Ino) -> CheckFail
    requires { IsIno inodes.now.shape i.0 }
    ensures { result ≡ CheckFail.BadVolume rule (record { 0 = inode_block i.0 }) }
{
    CheckFail::BadVolume(rule, inode_block(&inodes.shape, i))
}

/// Looks at the rules 3 and 4.
pub fn look_at_inodes(inodes: &Inodes) -> Result<(), CheckFail>
    ensures kinds { (s : Seen) → HasInodes s inodes.now → OnOk result (KindRule (layout_of s inodes.now)) }
    ensures sizes { (s : Seen) → HasInodes s inodes.now → OnOk result (SizeRule (layout_of s inodes.now)) }
    ensures refused { (s : Seen) → HasInodes s inodes.now → IfErr result (Refuses (FailsInodes (layout_of s inodes.now))) }
    ensures quiet { IfErr result TellsRule }
{
    if let Some(i) = least_breaking(inodes, InodeRule::Kind) {
        return Err(broken_at(inodes, VolumeRule::Kinds as u8, i));
    }
    if let Some(i) = least_breaking(inodes, InodeRule::Size) {
        return Err(broken_at(inodes, VolumeRule::Sizes as u8, i));
    }
    Ok(())
}
