//! Small trees, worked by hand.

ghost use Rattle.std.specs.Prelude.{◌≡◌, ◌∷◌, []};
ghost use Rattle.map_laws.specs.Changes.{inserted};
ghost use Rattle.map_laws.specs.Rows.{alone, node, seven, with_keys, without_keys};
ghost use Rattle.map_laws.specs.Trees.{Leaf, Node};

/// What keys make of an empty tree, put in one after the other: rising ones, falling ones, and fifteen that turn it in each way.
/// A key that is there gets its value and keeps its place.
pub fn rows_of_insertion()
    ensures first { with_keys (1 ∷ []) Leaf ≡ alone 1 }
    ensures to_the_right { with_keys (1 ∷ 2 ∷ []) Leaf ≡ node 1 Leaf 1 (alone 2) }
    ensures to_the_left { with_keys (2 ∷ 1 ∷ []) Leaf ≡ node 1 Leaf 1 (alone 2) }
    ensures rising { with_keys (1 ∷ 2 ∷ 3 ∷ 4 ∷ 5 ∷ 6 ∷ 7 ∷ []) Leaf ≡ seven }
    ensures falling { with_keys (7 ∷ 6 ∷ 5 ∷ 4 ∷ 3 ∷ 2 ∷ 1 ∷ []) Leaf ≡ seven }
    ensures mixed { with_keys (10 ∷ 85 ∷ 15 ∷ 70 ∷ 20 ∷ 60 ∷ 30 ∷ 50 ∷ 65 ∷ 80 ∷ 90 ∷ 40 ∷ 5 ∷ 55 ∷ 35 ∷ []) Leaf ≡ node 3 (node 2 (node 1 Leaf 5 (alone 10)) 15 (alone 20)) 30 (node 3 (node 2 (node 1 Leaf 35 (alone 40)) 50 (node 2 (alone 55) 60 (alone 65))) 70 (node 2 (alone 80) 85 (alone 90))) }
    ensures old_key { inserted 512 4 7 seven ≡ Node 3 256 (node 2 (alone 1) 2 (alone 3)) (4, 7) (node 2 (alone 5) 6 (alone 7)) }
{}

/// What is left of a tree without keys, taken one after the other: of either side, of the root, whose place the next key takes,
/// and of all. Each step that makes the levels right has a row that it changes.
pub fn rows_of_removal()
    ensures left { without_keys (1 ∷ []) seven ≡ node 2 (node 1 Leaf 2 (alone 3)) 4 (node 2 (alone 5) 6 (alone 7)) }
    ensures right { without_keys (7 ∷ []) seven ≡ node 2 (alone 1) 2 (node 2 (alone 3) 4 (node 1 Leaf 5 (alone 6))) }
    ensures root { without_keys (4 ∷ []) seven ≡ node 2 (alone 1) 2 (node 2 (alone 3) 5 (node 1 Leaf 6 (alone 7))) }
    ensures root_turned { without_keys (3 ∷ []) (node 2 (alone 1) 2 (alone 3)) ≡ node 1 Leaf 1 (alone 2) }
    ensures right_turned { without_keys (4 ∷ []) (node 2 (node 1 Leaf 1 (alone 2)) 3 (alone 4)) ≡ node 2 (alone 1) 2 (alone 3) }
    ensures right_lowered { without_keys (1 ∷ []) (node 2 (alone 1) 2 (node 2 (alone 3) 4 (alone 5))) ≡ node 2 (alone 2) 3 (node 1 Leaf 4 (alone 5)) }
    ensures far_turned { without_keys (1 ∷ []) (node 2 (alone 1) 2 (node 2 (node 1 Leaf 3 (alone 4)) 5 (alone 6))) ≡ node 2 (alone 2) 3 (node 2 (alone 4) 5 (alone 6)) }
    ensures far_split { without_keys (1 ∷ []) (node 2 (alone 1) 2 (node 2 (alone 3) 4 (node 1 Leaf 5 (alone 6)))) ≡ node 2 (alone 2) 3 (node 2 (alone 4) 5 (alone 6)) }
    ensures absent { without_keys (8 ∷ []) seven ≡ seven }
    ensures six_of_seven { without_keys (1 ∷ 2 ∷ 3 ∷ 4 ∷ 5 ∷ 6 ∷ []) seven ≡ alone 7 }
    ensures all { without_keys (1 ∷ 2 ∷ 3 ∷ 4 ∷ 5 ∷ 6 ∷ 7 ∷ []) seven ≡ Leaf }
{}
