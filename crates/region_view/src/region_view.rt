//! The words of one region at a time, through a volume.

ghost use Rattle.std.specs.Prelude.{◌≡◌, OnErr, OnOk};
ghost use Rattle.rio_base.specs.Blocks.{Ends};
ghost use Rattle.rio_base.specs.Layout.{IsIno};
ghost use Rattle.rio_base.specs.Volume.{Goes};
ghost use Rattle.rio_base.specs.NodeKinds.{region_kind};
ghost use Rattle.rio_model.specs.Held.{held_of};
ghost use Rattle.rio_model.specs.Placed.{volume_layout};
ghost use Rattle.rio_model.specs.VolumeReady.{LeavesInUse, Ready};
ghost use Rattle.region_view.specs.Views.{KeepsInode, OnRegion};

use crate::region_pages::{read_word, read_words, region_words, store_word, store_words};
use inode_table::{Inode, read_inode};
use rio_base::{Ino, RegionWords, RunFail, VolFail, Volume, VolumeShape};

/// The words of one region's file, read and stored in place through a volume, which it owns. Its fields may be used between
/// its calls: before one of them, the volume has to be ready and to have the region, with this inode.
#[derive(Drop)]
pub struct RegionView<V> {
    /// The volume.
    pub v: V,
    /// Its sizes.
    pub shape: VolumeShape,
    /// The inode of the region that it stands on.
    pub ino: Ino,
    /// How many words that has.
    pub words: u32,
    /// Its inode, which no call of these changes.
    pub inode: Inode,
}

impl<V: Volume> RegionView<V> {
    /// A view that stands on no region yet.
    pub fn over(v: V, shape: VolumeShape) -> RegionView<V>
        ensures volume { result.v ≡ v }
        ensures shape { result.shape ≡ shape }
    {
        RegionView {
            v,
            shape,
            ino: Ino(0),
            words: 0,
            inode: Inode {
                kind: 0,
                size: 0,
                direct: [0; 24],
                indirect: 0,
                double: 0,
            },
        }
    }

    /// Stands on region `i`: reads its inode. After a failure it stands on the region that it stood on, if any.
    pub fn point(&mut self, i: Ino) -> Result<(), VolFail>
        requires sound { V.sound self.old.v }
        requires ready { Ready self.old.shape (V.seen self.old.v) (V.kept self.old.v) }
        requires ino { IsIno self.old.shape i.0 }
        requires region { (held_of self.old.shape (V.seen self.old.v).words i.0).kind ≡ region_kind }
        ensures ok { OnOk result (OnRegion self.new.shape (V.seen self.new.v) (V.kept self.new.v) i.0 self.new.words × (self.new.ino ≡ i)) }
        ensures inode { OnOk result (KeepsInode (V.seen self.new.v).words i.0 self.new.inode) }
        ensures err { OnErr result ((self.new.ino ≡ self.old.ino) × (self.new.words ≡ self.old.words)) }
        ensures kept { OnErr result (self.new.inode ≡ self.old.inode) }
        ensures shape { self.new.shape ≡ self.old.shape }
        ensures words { (V.seen self.new.v).words ≡ (V.seen self.old.v).words }
        ensures leaves { LeavesInUse (volume_layout self.old.shape (V.seen self.old.v).words) (V.seen self.old.v) (V.kept self.old.v) (V.seen self.new.v) (V.kept self.new.v) }
        ensures ready { Ready self.new.shape (V.seen self.new.v) (V.kept self.new.v) }
        ensures passes { V.passes self.old.v self.new.v }
        ensures goes { Goes (V.health self.old.v) (V.below self.old.v) (V.health self.new.v) (V.below self.new.v) }
        ensures ends { Ends (V.health self.old.v) (V.health self.new.v) result }
        ensures sound { V.sound self.new.v }
    {
        let inode = read_inode(&mut self.v, &self.shape, i)?;
        self.words = region_words(&inode);
        self.ino = i;
        self.inode = inode;
        Ok(())
    }

    /// The volume, handed back.
    pub fn into_volume(self) -> V
        ensures { result ≡ self.v }
    {
        let RegionView {
            v,
            shape: _,
            ino: _,
            words: _,
            inode: _,
        } = self;
        v
    }
}

impl<V: Volume> RegionWords for RegionView<V> {
    ghost use Rattle.region_view.specs.Views.{KeepsInode, OnRegion, SameBeside, beside_refl, beside_trans, few_words};

    ghost count = { λ x. x.words };

    ghost words = { λ x. (held_of x.shape (V.seen x.v).words x.ino.0).word };

    ghost ready = { λ x. V.sound x.v × OnRegion x.shape (V.seen x.v) (V.kept x.v) x.ino.0 x.words × KeepsInode (V.seen x.v).words x.ino.0 x.inode };

    ghost keeps_rest = { λ x y. SameBeside x.shape x.ino x.words (V.seen x.v).words y.shape y.ino y.words (V.seen y.v).words };

    ghost health = { λ x. V.health x.v };

    ghost below = { λ x. V.below x.v };

    ghost limited = { λ x most e. V.limited x.v most e };

    ghost small = { λ x ready. few_words x.shape (V.seen x.v) (V.kept x.v) x.ino.0 x.words ready.1 };

    ghost rest_refl = { λ x. beside_refl _ _ _ _ };

    ghost rest_trans = { λ x y z h k. beside_trans _ _ _ _ _ _ _ _ _ _ _ _ h k };

    fn len(&self) -> u32 {
        self.words
    }

    fn word(&mut self, at: u32) -> Result<u64, VolFail> {
        read_word(&mut self.v, &self.shape, self.ino, &self.inode, at)
    }

    fn read_run(&mut self, at: u32, into: &mut [u64]) -> Result<(), VolFail> {
        read_words(&mut self.v, &self.shape, self.ino, &self.inode, at, into)
    }

    fn set(&mut self, at: u32, v: u64) -> Result<(), VolFail> {
        store_word(&mut self.v, &self.shape, self.ino, &self.inode, at, v)
    }

    fn set_run(&mut self, at: u32, from: &[u64]) -> Result<(), RunFail> {
        store_words(&mut self.v, &self.shape, self.ino, &self.inode, at, from)
    }
}
