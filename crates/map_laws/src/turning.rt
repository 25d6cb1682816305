//! What turns of a tree keep.

ghost use Rattle.std.specs.Prelude.{◌≡◌, ◌≤◌, ℕ, suc};
ghost use Rattle.map_laws.specs.Changes.{lowered, settled, skew, skewed, split};
ghost use Rattle.map_laws.specs.Trees.{LevelsOk, Tree, highest, level, pairs, times};

/// A turn keeps the pairs in their order, and each node keeps its place.
pub fn turns()
    ensures skew_pairs { (t : Tree) → pairs (skew t) ≡ pairs t }
    ensures split_pairs { (t : Tree) → pairs (split t) ≡ pairs t }
    ensures settled_pairs { (t : Tree) → pairs (settled t) ≡ pairs t }
    ensures skew_places { (a : ℕ) (t : Tree) → times a (skew t) ≡ times a t }
    ensures split_places { (a : ℕ) (t : Tree) → times a (split t) ≡ times a t }
    ensures settled_places { (a : ℕ) (t : Tree) → times a (settled t) ≡ times a t }
{}

/// Where the levels are right already nothing is turned, so that a way out as soon as a side is as it was is no change.
pub fn nothing_to_turn()
    ensures skew { (t : Tree) → LevelsOk t → skew t ≡ t }
    ensures split { (t : Tree) → LevelsOk t → split t ≡ t }
    ensures settled { (t : Tree) → LevelsOk t → settled t ≡ t }
{}

/// No level rises while a tree is made right, but by one in a split. The highest one of right levels is the root's.
pub fn levels_stay_low()
    ensures root { (t : Tree) → LevelsOk t → highest t ≤ level t }
    ensures skew { (t : Tree) → highest (skew t) ≤ highest t }
    ensures split { (t : Tree) → highest (split t) ≤ suc (highest t) }
    ensures settling { (t : Tree) → highest (skewed (lowered t)) ≤ highest t }
{}
