//! What is found in a tree and in its list.

ghost use Rattle.std.specs.Prelude.{◌≡◌, ◌≢◌, ℕ, List, Some, None};
ghost use Rattle.map_laws.specs.Lists.{KeysRise, found, put, taken};
ghost use Rattle.map_laws.specs.Trees.{Tree, looked_up, pairs};

/// The way down finds what the list has.
pub fn looking_up()
    ensures { (k : ℕ) (t : Tree) → KeysRise (pairs t) → looked_up k t ≡ found k (pairs t) }
{}

/// A list with rising keys is a map: what was put is found, what was taken is not, and each other key has what it had.
pub fn list_is_a_map()
    ensures put { (k v : ℕ) (l : List (ℕ × ℕ)) → found k (put k v l) ≡ Some v }
    ensures put_beside { (j k v : ℕ) (l : List (ℕ × ℕ)) → j ≢ k → found j (put k v l) ≡ found j l }
    ensures taken { (k : ℕ) (l : List (ℕ × ℕ)) → KeysRise l → found k (taken k l) ≡ None }
    ensures taken_beside { (j k : ℕ) (l : List (ℕ × ℕ)) → j ≢ k → found j (taken k l) ≡ found j l }
{}
