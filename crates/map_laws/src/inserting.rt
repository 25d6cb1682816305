//! What an insertion does to a tree.

ghost use Rattle.std.specs.Prelude.{◌≡◌, ◌⊎◌, ℕ, suc, Some, None};
ghost use Rattle.map_laws.specs.Changes.{inserted};
ghost use Rattle.map_laws.specs.Lists.{KeysRise, put};
ghost use Rattle.map_laws.specs.Trees.{LevelsOk, Tree, level, looked_up, pairs, size};

/// An insertion puts the pair into the list, in place of the pair of its key if there is one. The keys go on rising, the levels are
/// right again, and the root is on its old level or one above. A new key is a node more.
pub fn insertion()
    ensures pairs { (c k v : ℕ) (t : Tree) → KeysRise (pairs t) → pairs (inserted c k v t) ≡ put k v (pairs t) }
    ensures keys { (c k v : ℕ) (t : Tree) → KeysRise (pairs t) → KeysRise (pairs (inserted c k v t)) }
    ensures levels { (c k v : ℕ) (t : Tree) → LevelsOk t → LevelsOk (inserted c k v t) }
    ensures root { (c k v : ℕ) (t : Tree) → LevelsOk t → (level (inserted c k v t) ≡ level t) ⊎ (level (inserted c k v t) ≡ suc (level t)) }
    ensures new_key { (c k v : ℕ) (t : Tree) → looked_up k t ≡ None → size (inserted c k v t) ≡ suc (size t) }
    ensures old_key { (c k v w : ℕ) (t : Tree) → looked_up k t ≡ Some w → size (inserted c k v t) ≡ size t }
{}
