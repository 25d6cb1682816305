//! The names of several directories, by directory.

ghost use Rattle.std.specs.Prelude.{◌≡◌, None, Some, is_some, IfSome};
ghost use Rattle.std.specs.FinMap.{empty, get, insert, remove};
ghost use Rattle.rio_model.specs.Names.{Names};
ghost use Rattle.name_index.specs.Agreeing.{Agrees, AreNames, AreTwo, HeldAgree, Says, names_held};

use crate::dir_names::{DirNames, NotKept};
use indexmap::IndexMap;
use rio_base::Ino;
use std::alloc::Global;

/// The names of directories, by inode.
type Dirs = IndexMap<u32, DirNames>;

/// What an index says of a name of a directory.
#[derive(Clone, Copy, Debug, PartialEq, Eq)]
pub enum Lookup {
    /// Nothing: the directory has to be read.
    Unknown,
    /// The directory has no such name.
    Absent,
    /// It names this inode. That its entry is in this slot is a hint.
    Present(Ino, u32),
}

/// What is held of one name.
fn look(dirs: &Dirs, dir: Ino, name: &[u8]) -> Lookup
    ensures { (names : Names) → HeldAgree dirs.now names → Says result (get names (dir.0, name.now)) }
{
    let Some(held) = dirs.get(&dir.0) else {
        return Lookup::Unknown;
    };
    match held.find(name) {
        Ok(Some((ino, slot))) => Lookup::Present(ino, slot),
        Ok(None) => Lookup::Absent,
        Err(NotKept) => Lookup::Unknown,
    }
}

/// Holds these as the names of a directory. Where there is no memory, what was held of it stays.
fn hold_in(dirs: &mut Dirs, dir: Ino, held: DirNames) -> Result<(), NotKept>
    ensures { (names : Names) → HeldAgree dirs.old names → AreNames held dir.0 names → HeldAgree dirs.new names }
{
    let added = dirs.insert(dir.0, held);
    if added.is_err() {
        return Err(NotKept);
    }
    Ok(())
}

/// Lets a name of a directory name an inode. Where that is not kept, no name of the directory is held any more.
fn put_in(dirs: &mut Dirs, dir: Ino, name: &[u8], ino: Ino) -> Result<(), NotKept>
    ensures { (names : Names) → HeldAgree dirs.old names → HeldAgree dirs.new (insert names (dir.0, name.now) ino.0) }
{
    let Some(mut held) = dirs.swap_remove(&dir.0) else {
        return Ok(());
    };
    held.put(name, ino)?;
    hold_in(dirs, dir, held)
}

/// Lets a name of a directory name nothing. Where that is not kept, no name of the directory is held any more.
fn remove_in(dirs: &mut Dirs, dir: Ino, name: &[u8]) -> Result<(), NotKept>
    ensures { (names : Names) → HeldAgree dirs.old names → HeldAgree dirs.new (remove names (dir.0, name.now)) }
{
    let Some(mut held) = dirs.swap_remove(&dir.0) else {
        return Ok(());
    };
    held.remove(name)?;
    hold_in(dirs, dir, held)
}

/// Names of directories that are held in memory. It is asked before a directory is looked through, and told of each change of
/// names. It takes memory by the names that it holds. Where none is left it lets names of a directory go, does not tell, and makes
/// no room for those of another one from then on.
#[derive(Drop)]
pub struct NameIndex {
    dirs: Option<Dirs>,
    /// Whether memory was refused.
    full: bool,
}

impl NameIndex {
    /// An index that holds no names, whatever it is given.
    pub fn none() -> NameIndex
        ensures { (names : Names) → Agrees result names }
    {
        NameIndex {
            dirs: None,
            full: true,
        }
    }

    /// An index that holds no names yet.
    pub fn new(alloc: Global) -> NameIndex
        ensures { (names : Names) → Agrees result names }
    {
        NameIndex {
            dirs: Some(IndexMap::new(alloc)),
            full: false,
        }
    }

    /// Room for the names of a directory, to be filled and then held. `None` where none are to be held any more.
    pub fn blank(&self) -> Option<DirNames>
        ensures { IfSome result (λ names. names ≡ empty) }
    {
        if self.full {
            return None;
        }
        let Some(dirs) = &self.dirs else {
            return None;
        };
        Some(DirNames::new(*dirs.allocator()))
    }

    /// Makes no room for the names of another directory from now on, as where memory was refused.
    pub fn close(&mut self)
        ensures { self.new.dirs ≡ self.old.dirs }
    {
        self.full = true;
    }

    /// Whether the names of a directory are held.
    pub fn has(&self, dir: Ino) -> bool
        ensures { result ≡ is_some (names_held self.now dir.0) }
    {
        let Some(dirs) = &self.dirs else {
            return false;
        };
        dirs.contains_key(&dir.0)
    }

    /// What is held of a name of a directory.
    pub fn find(&self, dir: Ino, name: &[u8]) -> Lookup
        ensures { (names : Names) → Agrees self.now names → Says result (get names (dir.0, name.now)) }
    {
        let Some(dirs) = &self.dirs else {
            return Lookup::Unknown;
        };
        look(dirs, dir, name)
    }

    /// Holds these as the names of a directory from now on: all of them and no others.
    pub fn hold(&mut self, dir: Ino, held: DirNames)
        ensures { (names : Names) → Agrees self.old names → AreNames held dir.0 names → Agrees self.new names }
    {
        let Some(dirs) = &mut self.dirs else {
            return;
        };
        let kept = hold_in(dirs, dir, held);
        self.full |= kept.is_err();
    }

    /// Lets go of the names of a directory, as of one that is removed.
    pub fn forget(&mut self, dir: Ino)
        ensures agrees { (names : Names) → Agrees self.old names → Agrees self.new names }
        ensures gone { names_held self.new dir.0 ≡ None }
    {
        let Some(dirs) = &mut self.dirs else {
            return;
        };
        dirs.swap_remove(&dir.0);
    }

    /// Lets go of all names, as where it is not known what stands.
    pub fn forget_all(&mut self)
        ensures { (names : Names) → Agrees self.new names }
    {
        self.dirs = None;
    }

    /// Is told that a name of a directory names an inode from now on.
    pub fn put(&mut self, dir: Ino, name: &[u8], ino: Ino)
        ensures { (names : Names) → Agrees self.old names → Agrees self.new (insert names (dir.0, name.now) ino.0) }
    {
        let Some(dirs) = &mut self.dirs else {
            return;
        };
        let kept = put_in(dirs, dir, name, ino);
        self.full |= kept.is_err();
    }

    /// Is told that a name of a directory names nothing any more.
    pub fn remove(&mut self, dir: Ino, name: &[u8])
        ensures { (names : Names) → Agrees self.old names → Agrees self.new (remove names (dir.0, name.now)) }
    {
        let Some(dirs) = &mut self.dirs else {
            return;
        };
        let kept = remove_in(dirs, dir, name);
        self.full |= kept.is_err();
    }

    /// Is told that a name gave way to another one, which names this inode from now on, in the same directory or in another.
    ///
    /// The new name is put before the old one goes, as a directory gives the entry of a name to the one that it is renamed to.
    pub fn rename(&mut self, dir: Ino, name: &[u8], to_dir: Ino, to: &[u8], ino: Ino)
        ensures { (names : Names) → Agrees self.old names → AreTwo (to_dir.0, to.now) (dir.0, name.now) → Agrees self.new (insert (remove names (dir.0, name.now)) (to_dir.0, to.now) ino.0) }
    {
        self.put(to_dir, to, ino);
        self.remove(dir, name);
    }
}
