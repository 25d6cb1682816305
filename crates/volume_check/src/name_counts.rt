//! How many names each inode has.

ghost use Rattle.std.specs.Prelude.{◌≡◌, ◌+◌, ◌<◌, IfErr, IfOk, OnOk, length, slice_index_or, slice_set};
ghost use Rattle.rio_base.specs.Layout.{IsIno};
ghost use Rattle.rio_model.specs.Held.{held_of};
ghost use Rattle.rio_model.specs.VolumeRules.{EntryRule, IsMapped};
ghost use Rattle.volume_check.specs.Looking.{CanLook, Looked, Refuses};
ghost use Rattle.volume_check.specs.Inodes.{HasInodes};
ghost use Rattle.volume_check.specs.Tree.{Counted, one_more};

use crate::entries::{ENTRY_WORDS, named_ino, read_entries};
use crate::failures::CheckFail;
use crate::inode_rules::DIRECTORY;
use crate::inodes::Inodes;
use rio_base::{Blocks, Ino};
use std::alloc::Global;

/// How many names an inode has.
#[derive(Clone, Copy, PartialEq, Eq)]
pub(crate) enum NameCount {
    /// None.
    No,
    /// Just one.
    One,
    /// Two or more.
    Several,
}

impl NameCount {
    /// The count with one name more.
    fn one_more(self) -> NameCount
        ensures { result ≡ one_more self }
    {
        match self {
            NameCount::No => NameCount::One,
            _ => NameCount::Several,
        }
    }
}

/// Counts one name of inode `i`.
fn count_name(counts: &mut Vec<NameCount>, i: Ino)
    requires { i.0 < length counts.old.items }
    ensures { counts.new.items ≡ slice_set counts.old.items i.0 (one_more (slice_index_or counts.old.items i.0 NameCount.No)) }
{
    let place = i.0 as usize;
    counts[place] = counts[place].one_more();
}

/// Counts the names that inode `i` has, if it is a directory.
fn count_entries<V: Blocks>(
    alloc: Global,
    v: &mut V,
    inodes: &Inodes,
    i: Ino,
    counts: &mut Vec<NameCount>,
) -> Result<(), CheckFail>
    requires can { CanLook V.seen V.sound V.passes v.old }
    requires inodes { HasInodes (V.seen v.old) inodes.now }
    requires mapped { IsMapped inodes.now.shape (V.seen v.old).words }
    requires entries { EntryRule (held_of inodes.now.shape (V.seen v.old).words) }
    requires ino { IsIno inodes.now.shape i.0 }
    requires counts { Counted inodes.now.shape (held_of inodes.now.shape (V.seen v.old).words) i.0 0 counts.old.items }
    ensures counts { OnOk result (Counted inodes.now.shape (held_of inodes.now.shape (V.seen v.old).words) (i.0 + 1) 0 counts.new.items) }
    ensures unrefused { IfErr result (Refuses (λ _ _. ⊥)) }
    ensures looked { Looked V.seen V.health V.sound V.passes v.old v.new result }
{
    if inodes.kind(i) != DIRECTORY {
        return Ok(());
    }
    let words = read_entries(alloc, v, inodes, i)?;
    for j in 0..words.len() / ENTRY_WORDS {
        count_name(counts, named_ino(&words, j));
    }
    Ok(())
}

/// How many names each inode has, by its number.
pub(crate) fn count_names<V: Blocks>(
    alloc: Global,
    v: &mut V,
    inodes: &Inodes,
) -> Result<Vec<NameCount>, CheckFail>
    requires can { CanLook V.seen V.sound V.passes v.old }
    requires inodes { HasInodes (V.seen v.old) inodes.now }
    requires mapped { IsMapped inodes.now.shape (V.seen v.old).words }
    requires entries { EntryRule (held_of inodes.now.shape (V.seen v.old).words) }
    ensures counts { IfOk result (λ counts. Counted inodes.now.shape (held_of inodes.now.shape (V.seen v.old).words) (inodes.now.shape.inodes + 1) 0 counts.items) }
    ensures unrefused { IfErr result (Refuses (λ _ _. ⊥)) }
    ensures looked { Looked V.seen V.health V.sound V.passes v.old v.new result }
{
    let mut counts = vec![in alloc; NameCount::No; inodes.shape.inodes as usize + 1]?;
    for k in 0..inodes.shape.inodes {
        count_entries(alloc, v, inodes, Ino(k + 1), &mut counts)?;
    }
    Ok(counts)
}
