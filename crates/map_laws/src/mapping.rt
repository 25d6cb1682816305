//! What words and blocks say of their map, and what they are a map after.

ghost use Rattle.std.specs.Prelude.{◌≡◌, ◌+◌, ◌*◌, ◌/◌, ◌^◌, ◌<◌, ◌≤◌, ℕ, List, None, Some, length, suc};
ghost use Rattle.rio_model.specs.Heap.{block_size};
ghost use Rattle.map_laws.specs.Changes.{inserted, removed};
ghost use Rattle.map_laws.specs.Lists.{KeysRise};
ghost use Rattle.map_laws.specs.Maps.{HasPairs, IsMap, IsRootBlock, NowStands, OneMore};
ghost use Rattle.map_laws.specs.Trees.{Leaf, Tree, looked_up, place_at, times};
ghost use Rattle.map_laws.specs.Words.{Keeps, Stands, tree_of};

/// Words and blocks have at most one list of pairs, with rising keys, and one depth `d`, where `2 ^ d` is at most the number of
/// pairs and one. The words alone say the tree.
pub fn one_map()
    ensures one { (words : ℕ → ℕ) (blocks l m : List (ℕ × ℕ)) (d e : ℕ) → HasPairs words blocks l d → HasPairs words blocks m e → (l ≡ m) × (d ≡ e) }
    ensures keys { (words : ℕ → ℕ) (blocks l : List (ℕ × ℕ)) (d : ℕ) → HasPairs words blocks l d → KeysRise l }
    ensures depth { (words : ℕ → ℕ) (blocks l : List (ℕ × ℕ)) (d : ℕ) → HasPairs words blocks l d → 2 ^ d ≤ length l + 1 }
    ensures tree { (words : ℕ → ℕ) (blocks : List (ℕ × ℕ)) (t : Tree) → IsMap words blocks t → words 2 < 2 ^ 64 → tree_of words ≡ t }
{}

/// The node of a key has the key and its value in its words.
pub fn node_of_key()
    ensures { (words : ℕ → ℕ) (k v : ℕ) (t : Tree) → Stands words t → looked_up k t ≡ Some v → (words (place_at k t / 8) ≡ k) × (words (place_at k t / 8 + 1) ≡ v) }
{}

/// Words and blocks are a map again after a change from the words `f` to `g`. `made`: there is a root block alone, which names no
/// node. `inserted`: a new key has the block `u`, which was not there. `replaced`: a key has a new value. `removed`: a key is gone,
/// with the block `u` of its node. Word 2 is the number of pairs.
pub fn map_changes()
    ensures made { (g : ℕ → ℕ) (blocks : List (ℕ × ℕ)) → IsRootBlock g blocks 0 0 → ((u n : ℕ) → block_size blocks u ≡ Some n → u ≡ 0) → IsMap g blocks Leaf }
    ensures inserted { (f g : ℕ → ℕ) (former blocks : List (ℕ × ℕ)) (u k v : ℕ) (t : Tree) → IsMap f former t → looked_up k t ≡ None → 0 < u → OneMore former u blocks → NowStands f g (inserted (64 * u) k v t) → g 2 ≡ suc (f 2) → IsMap g blocks (inserted (64 * u) k v t) }
    ensures replaced { (f g : ℕ → ℕ) (blocks : List (ℕ × ℕ)) (c k v w : ℕ) (t : Tree) → IsMap f blocks t → looked_up k t ≡ Some w → NowStands f g (inserted c k v t) → g 2 ≡ f 2 → IsMap g blocks (inserted c k v t) }
    ensures removed { (f g : ℕ → ℕ) (former blocks : List (ℕ × ℕ)) (u k v : ℕ) (t : Tree) → IsMap f former t → looked_up k t ≡ Some v → place_at k t ≡ 64 * u → OneMore blocks u former → NowStands f g (removed k t) → suc (g 2) ≡ f 2 → IsMap g blocks (removed k t) }
{}

/// What changes only words of blocks that are owned keeps a tree that has none of these, and a map if the root block is none
/// of them either.
pub fn map_stays()
    ensures tree { (own f g : ℕ → ℕ) (t : Tree) → ((a : ℕ) → 1 ≤ times a t → own a ≡ 0) → Keeps own f g → Stands f t → Stands g t }
    ensures map { (own f g : ℕ → ℕ) (blocks : List (ℕ × ℕ)) (t : Tree) → own 0 ≡ 0 → ((a : ℕ) → 1 ≤ times a t → own a ≡ 0) → Keeps own f g → IsMap f blocks t → IsMap g blocks t }
{}
