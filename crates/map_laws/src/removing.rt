//! What a removal does to a tree.

ghost use Rattle.std.specs.Prelude.{◌≡◌, ◌⊎◌, ℕ, suc, Some, None};
ghost use Rattle.map_laws.specs.Changes.{removed};
ghost use Rattle.map_laws.specs.Lists.{KeysRise, taken};
ghost use Rattle.map_laws.specs.Trees.{LevelsOk, Tree, level, looked_up, pairs, size};

/// A removal takes the pair of the key from the list. The keys go on rising, the levels are right again, and the root is on its old
/// level or one below. A key that is there is a node less, and one that is not changes nothing.
pub fn removal()
    ensures pairs { (k : ℕ) (t : Tree) → LevelsOk t → KeysRise (pairs t) → pairs (removed k t) ≡ taken k (pairs t) }
    ensures keys { (k : ℕ) (t : Tree) → LevelsOk t → KeysRise (pairs t) → KeysRise (pairs (removed k t)) }
    ensures levels { (k : ℕ) (t : Tree) → LevelsOk t → LevelsOk (removed k t) }
    ensures root { (k : ℕ) (t : Tree) → LevelsOk t → (level (removed k t) ≡ level t) ⊎ (suc (level (removed k t)) ≡ level t) }
    ensures present { (k v : ℕ) (t : Tree) → LevelsOk t → looked_up k t ≡ Some v → suc (size (removed k t)) ≡ size t }
    ensures absent { (k : ℕ) (t : Tree) → LevelsOk t → looked_up k t ≡ None → removed k t ≡ t }
{}
