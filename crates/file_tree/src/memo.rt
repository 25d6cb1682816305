//! What is held in memory of a volume.

ghost use Rattle.std.specs.Prelude.{◌≡◌};
ghost use Rattle.std.specs.FinMap.{insert, remove};
ghost use Rattle.rio_base.specs.declared.places.VolumeShape.{VolumeShape as ShapeOf};
ghost use Rattle.rio_base.specs.Blocks.{BlockWords};
ghost use Rattle.rio_model.specs.VolumeReads.{ReadsAs};
ghost use Rattle.rio_model.specs.declared.state.State.{State};
ghost use Rattle.name_index.specs.Agreeing.{AreTwo};
ghost use Rattle.file_tree.specs.Memos.{InStep, StayBut, StayThere};

use crate::last_path::LastPath;
use inode_table::FullBlocks;
use name_index::NameIndex;
use rio_base::Ino;
use std::alloc::Global;

/// What is held in memory of a volume: names of directories, which blocks of inodes are full, and the path that was walked last. It
/// answers quicker what the blocks answer too, and is kept in step with them: each call that changes them is given it, and tells it.
/// Whoever does not know what the blocks have become has to let go of it.
#[derive(Drop)]
pub struct Memo {
    /// Names of directories.
    pub(crate) names: NameIndex,
    /// Blocks of inodes that are full.
    pub full: FullBlocks,
    /// The path that was walked last.
    pub(crate) path: LastPath,
}

impl Memo {
    /// Nothing, which takes no memory and stays nothing but for the blocks of inodes and the path that was walked last.
    pub fn none() -> Memo
        ensures { (shape : ShapeOf) (f : BlockWords) → InStep shape f result }
    {
        Memo {
            names: NameIndex::none(),
            full: FullBlocks::new(),
            path: LastPath::nothing(),
        }
    }

    /// Nothing yet.
    pub fn new(alloc: Global) -> Memo
        ensures { (shape : ShapeOf) (f : BlockWords) → InStep shape f result }
    {
        Memo {
            names: NameIndex::new(alloc),
            full: FullBlocks::new(),
            path: LastPath::nothing(),
        }
    }

    /// Lets go of all that is held, as where it is not known what the blocks have become.
    pub fn forget(&mut self)
        ensures { (shape : ShapeOf) (f : BlockWords) → InStep shape f self.new }
    {
        self.names.forget_all();
        self.full = FullBlocks::new();
        self.path.let_go();
    }

    /// Is told that a node was made under a name of a directory.
    pub fn made(&mut self, dir: Ino, name: &[u8], i: Ino)
        ensures { (shape : ShapeOf) (f g : BlockWords) (s t : State) → InStep shape f self.old → ReadsAs shape f s → ReadsAs shape g t → t.names ≡ insert s.names (dir.0, name.now) i.0 → StayThere s t → InStep shape g self.new }
    {
        self.path.let_go();
        self.names.put(dir, name, i);
    }

    /// Is told that a name of a directory went, and the node that it named.
    pub fn gone(&mut self, dir: Ino, name: &[u8], i: Ino)
        ensures { (shape : ShapeOf) (f g : BlockWords) (s t : State) → InStep shape f self.old → ReadsAs shape f s → ReadsAs shape g t → t.names ≡ remove s.names (dir.0, name.now) → StayBut i.0 s t → InStep shape g self.new }
    {
        self.path.let_go();
        self.names.remove(dir, name);
        self.names.forget(i);
        self.full.freed(i);
    }

    /// Is told that a name of a directory gave way to another one, which no node had.
    pub fn moved(&mut self, dir: Ino, name: &[u8], to_dir: Ino, to: &[u8], i: Ino)
        ensures { (shape : ShapeOf) (f g : BlockWords) (s t : State) → InStep shape f self.old → ReadsAs shape f s → ReadsAs shape g t → AreTwo (to_dir.0, to.now) (dir.0, name.now) → t.names ≡ insert (remove s.names (dir.0, name.now)) (to_dir.0, to.now) i.0 → StayThere s t → InStep shape g self.new }
    {
        self.path.let_go();
        self.names.rename(dir, name, to_dir, to, i);
    }

    /// Is told that a name of a directory gave way to another one, whose node `over` went.
    pub fn replaced(&mut self, dir: Ino, name: &[u8], to_dir: Ino, to: &[u8], i: Ino, over: Ino)
        ensures { (shape : ShapeOf) (f g : BlockWords) (s t : State) → InStep shape f self.old → ReadsAs shape f s → ReadsAs shape g t → AreTwo (to_dir.0, to.now) (dir.0, name.now) → t.names ≡ insert (remove s.names (dir.0, name.now)) (to_dir.0, to.now) i.0 → StayBut over.0 s t → InStep shape g self.new }
    {
        self.path.let_go();
        self.names.rename(dir, name, to_dir, to, i);
        self.full.freed(over);
    }
}
