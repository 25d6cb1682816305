//! Which inodes are reached from the root.

ghost use Rattle.std.specs.Prelude.{◌≡◌, ◌+◌, ℕ, [], IfErr, IfOk, OnOk, length};
ghost use Rattle.rio_base.specs.Layout.{IsIno};
ghost use Rattle.rio_model.specs.Held.{held_of};
ghost use Rattle.rio_model.specs.VolumeRules.{EntryRule, IsMapped};
ghost use Rattle.volume_check.specs.Looking.{CanLook, Looked, Refuses};
ghost use Rattle.volume_check.specs.Inodes.{HasInodes, said};
ghost use Rattle.volume_check.specs.Tree.{AllEntered, Enters, Found, Grows, IsAllReached, IsReached};

use crate::entries::{ENTRY_WORDS, named_ino, read_entries};
use crate::failures::CheckFail;
use crate::inode_rules::DIRECTORY;
use crate::inodes::Inodes;
use rio_base::{Blocks, Ino};
use std::alloc::{AllocError, Global};

/// The root directory.
pub(crate) const ROOT: Ino = Ino(1);

/// The inodes that were reached so far.
#[derive(Drop)]
pub(crate) struct Reach {
    /// Whether an inode was reached, by its number.
    reached: Vec<bool>,
    /// The directories among them, each once, in the order in which they were reached.
    dirs: Vec<Ino>,
}

impl Reach {
    /// No inode was reached.
    fn new(alloc: Global, inodes: &Inodes) -> Result<Reach, AllocError>
        ensures len { IfOk result (λ reach. length reach.reached.items ≡ inodes.now.shape.inodes + 1) }
        ensures none { IfOk result (λ reach. (i : ℕ) → ¬ IsReached reach i) }
        ensures no_dirs { IfOk result (λ reach. reach.dirs.items ≡ []) }
    {
        let reached = vec![in alloc; false; inodes.shape.inodes as usize + 1]?;
        Ok(Reach {
            reached,
            dirs: Vec::new(alloc),
        })
    }

    /// Reaches an inode.
    fn enter(&mut self, inodes: &Inodes, i: Ino) -> Result<(), AllocError>
        requires ino { IsIno inodes.now.shape i.0 }
        requires len { length self.old.reached.items ≡ inodes.now.shape.inodes + 1 }
        ensures { OnOk result (Enters (said inodes.now i.0 0) i self.old self.new) }
    {
        let place = i.0 as usize;
        if self.reached[place] {
            return Ok(());
        }
        if inodes.kind(i) == DIRECTORY {
            self.dirs.push(i)?;
        }
        self.reached[place] = true;
        Ok(())
    }
}

/// Reaches the inodes that directory `i` names.
fn enter_entries<V: Blocks>(
    alloc: Global,
    v: &mut V,
    inodes: &Inodes,
    i: Ino,
    reach: &mut Reach,
) -> Result<(), CheckFail>
    requires can { CanLook V.seen V.sound V.passes v.old }
    requires inodes { HasInodes (V.seen v.old) inodes.now }
    requires mapped { IsMapped inodes.now.shape (V.seen v.old).words }
    requires entries { EntryRule (held_of inodes.now.shape (V.seen v.old).words) }
    requires found { Found inodes.now.shape (held_of inodes.now.shape (V.seen v.old).words) reach.old }
    requires reached { IsReached reach.old i.0 }
    requires directory { said inodes.now i.0 0 ≡ 1 }
    ensures found { OnOk result (Found inodes.now.shape (held_of inodes.now.shape (V.seen v.old).words) reach.new) }
    ensures grows { OnOk result (Grows reach.old reach.new) }
    ensures all { OnOk result (AllEntered (held_of inodes.now.shape (V.seen v.old).words) reach.new i.0) }
    ensures unrefused { IfErr result (Refuses (λ _ _. ⊥)) }
    ensures looked { Looked V.seen V.health V.sound V.passes v.old v.new result }
{
    let words = read_entries(alloc, v, inodes, i)?;
    for j in 0..words.len() / ENTRY_WORDS {
        reach.enter(inodes, named_ino(&words, j))?;
    }
    Ok(())
}

/// Which inodes are reached from the root, by their numbers. Each directory that is reached is read once.
pub(crate) fn reach_all<V: Blocks>(
    alloc: Global,
    v: &mut V,
    inodes: &Inodes,
) -> Result<Vec<bool>, CheckFail>
    requires can { CanLook V.seen V.sound V.passes v.old }
    requires inodes { HasInodes (V.seen v.old) inodes.now }
    requires mapped { IsMapped inodes.now.shape (V.seen v.old).words }
    requires entries { EntryRule (held_of inodes.now.shape (V.seen v.old).words) }
    ensures reached { IfOk result (λ reached. IsAllReached inodes.now.shape (held_of inodes.now.shape (V.seen v.old).words) reached.items) }
    ensures unrefused { IfErr result (Refuses (λ _ _. ⊥)) }
    ensures looked { Looked V.seen V.health V.sound V.passes v.old v.new result }
{
    let mut reach = Reach::new(alloc, inodes)?;
    reach.enter(inodes, ROOT)?;
    let mut next = 0;
    while next < reach.dirs.len() {
        let dir = reach.dirs[next];
        enter_entries(alloc, v, inodes, dir, &mut reach)?;
        next += 1;
    }
    Ok(reach.reached)
}
