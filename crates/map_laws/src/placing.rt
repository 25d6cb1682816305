//! Which places the nodes of a tree have after a change.

ghost use Rattle.std.specs.Prelude.{◌≡◌, ◌+◌, ℕ, Some, None, cond, nat_eq};
ghost use Rattle.map_laws.specs.Changes.{inserted, removed};
ghost use Rattle.map_laws.specs.Trees.{LevelsOk, Tree, looked_up, place_at, times};

/// A new key takes its place `c`, a key that is there takes none, and a key that goes gives back the place of its node. Each other
/// place is as often there as before.
pub fn places()
    ensures new_key { (a c k v : ℕ) (t : Tree) → looked_up k t ≡ None → times a (inserted c k v t) ≡ cond (nat_eq c a) 1 0 + times a t }
    ensures old_key { (a c k v w : ℕ) (t : Tree) → looked_up k t ≡ Some w → times a (inserted c k v t) ≡ times a t }
    ensures given_back { (a k v : ℕ) (t : Tree) → LevelsOk t → looked_up k t ≡ Some v → cond (nat_eq (place_at k t) a) 1 0 + times a (removed k t) ≡ times a t }
{}
