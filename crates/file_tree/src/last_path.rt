//! The path that was walked last.

ghost use Rattle.std.specs.Prelude.{◌≡◌, Ok, IfSome};
ghost use Rattle.rio_model.specs.Paths.{names_of, walk};
ghost use Rattle.rio_model.specs.declared.state.State.{State};
ghost use Rattle.file_tree.specs.Memos.{LeadsThere};

use rio_base::Ino;

/// The longest path that is held, in bytes. A longer one is walked each time.
const LONGEST: usize = 64;

/// The path that was walked last, and the node that it led to. Whoever changes a name lets go of it.
#[derive(Drop)]
pub struct LastPath {
    room: [u8; LONGEST],
    /// How many bytes of the room are the path. None where no path is held.
    len: usize,
    ino: Ino,
}

impl LastPath {
    /// No path.
    pub(crate) fn nothing() -> LastPath
        ensures { (s : State) → LeadsThere result s }
    {
        LastPath {
            room: [0; LONGEST],
            len: 0,
            ino: Ino(0),
        }
    }

    /// Lets go of the path.
    pub(crate) fn let_go(&mut self)
        ensures { (s : State) → LeadsThere self.new s }
    {
        self.len = 0;
    }

    /// The node that this path leads to, where it is the one that is held.
    pub(crate) fn find(&self, path: &[u8]) -> Option<Ino>
        ensures { IfSome result (λ i. (s : State) → LeadsThere self.now s → walk s 1 (names_of path.now) ≡ Ok i.0) }
    {
        let len = path.len();
        if len == 0 || len > LONGEST {
            return None;
        }
        if len != self.len {
            return None;
        }
        if path != &self.room[..len] {
            return None;
        }
        Some(self.ino)
    }

    /// Holds a path that was walked, in place of the one before. The root's is none to hold: it has no step.
    pub(crate) fn keep(&mut self, path: &[u8], i: Ino)
        ensures { (s : State) → LeadsThere self.old s → walk s 1 (names_of path.now) ≡ Ok i.0 → LeadsThere self.new s }
    {
        let len = path.len();
        if len <= 1 || len > LONGEST {
            return;
        }
        self.room[..len].copy_from_slice(path);
        self.len = len;
        self.ino = i;
    }
}
