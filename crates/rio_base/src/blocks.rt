//! What a reader of a volume is given: the words of its blocks.

ghost use Rattle.std.specs.Prelude.{◌≡◌, ◌<◌, ℕ, IfOk, IfSome, OnOk, IsErrOf, length};
ghost use Rattle.rio_base.specs.Blocks.{Seen, Health, NamesFit, CanName, IsPlace, IsRun, IsSpan, Looks, Caches, Ends};

use crate::failures::VolFail;
use crate::places::{Block, PageName};

/// The blocks of a volume, as they read now. Reading may fetch a block and cache it; it changes none.
pub trait Blocks {
    /// The blocks, which of them are cached under which names, and the machine below, where it is told.
    ghost seen: { Self → Seen };

    /// How many calls failed so far, and whether the machine is stopped.
    ghost health: { Self → Health };

    /// What an implementation always keeps true of itself between two calls.
    ghost sound: { Self → Type 0 };

    /// Whether a block's words can be read without the disk.
    ghost sure: { Self → ℕ → Type 0 };

    /// What may have happened to the object while it was only read.
    ghost passes: { Self → Self → Type 0 };

    /// How many blocks the volume has.
    fn volume_blocks(&self) -> u32
        ensures { result ≡ (seen self.now).count };

    /// Word `w` of block `b`, `w` below 512. The name says which page of which file the block is, and is `None` for
    /// metadata: superblock, bitmap, inodes, indirect blocks and pages of directories. `Fault` comes only where the
    /// disk failed in this call, `Stopped` only where the machine is stopped afterwards.
    fn word(&mut self, b: Block, name: Option<PageName>, w: u16) -> Result<u64, VolFail>
        requires sound { sound self.old }
        requires place { IsPlace (seen self.old) b.0 w }
        requires name { CanName (seen self.old) b.0 name }
        ensures value { IfOk result (λ v. v ≡ (seen self.old).words b.0 w) }
        ensures looks { Looks (seen self.old) (seen self.new) }
        ensures caches { Caches (seen self.old) (seen self.new) b.0 name }
        ensures passes { passes self.old self.new }
        ensures ends { Ends (health self.old) (health self.new) result }
        ensures sure { IsErrOf result VolFail.Fault → sure self.old b.0 → ⊥ }
        ensures sound { sound self.new };

    /// Reads a run of words of block `b`, from word `w` on, as many as `into` has: as [`Blocks::word`] of each of them.
    /// After a failure `into` may hold anything.
    fn read_run(
        &mut self,
        b: Block,
        name: Option<PageName>,
        w: u16,
        into: &mut [u64],
    ) -> Result<(), VolFail>
        requires sound { sound self.old }
        requires place { IsSpan (seen self.old) b.0 w (length into.old) }
        requires name { CanName (seen self.old) b.0 name }
        ensures words { OnOk result (IsRun (seen self.old).words b.0 w (length into.old) into.new) }
        ensures len { length into.new ≡ length into.old }
        ensures looks { Looks (seen self.old) (seen self.new) }
        ensures caches { Caches (seen self.old) (seen self.new) b.0 name }
        ensures passes { passes self.old self.new }
        ensures ends { Ends (health self.old) (health self.new) result }
        ensures sure { IsErrOf result VolFail.Fault → sure self.old b.0 → ⊥ }
        ensures sound { sound self.new }
    {
        for i in 0..into.len() {
            into[i] = self.word(b, name, w + i as u16)?;
        }
        Ok(())
    }

    /// May lend the 512 words of block `b`, where they lie in memory. Whoever gets none reads them.
    fn page(&self, b: Block) -> Option<&[u64]>
        requires sound { sound self.now }
        requires block { b.0 < (seen self.now).count }
        ensures words { IfSome result (λ words. IsRun (seen self.now).words b.0 0 512 words.now) }
        ensures len { IfSome result (λ words. length words.now ≡ 512) }
    {
        None
    }

    ghost sure_stays: { (x y : Self) (b : ℕ) → passes x y → sure x b → sure y b };

    ghost passes_refl: { (x : Self) → passes x x };

    ghost passes_trans: { (x y z : Self) → passes x y → passes y z → passes x z };

    ghost names_fit: { (x : Self) → sound x → NamesFit (seen x) };
}
