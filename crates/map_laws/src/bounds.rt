//! What the levels of a tree say of its size and of its ways.

ghost use Rattle.std.specs.Prelude.{◌≡◌, ◌+◌, ◌*◌, ◌^◌, ◌<◌, ◌≤◌, ◌↔◌, ℕ, length};
ghost use Rattle.map_laws.specs.Levels.{RulesOk};
ghost use Rattle.map_laws.specs.Trees.{LevelsOk, Tree, height, level, pairs, size};

/// The levels are right where each node keeps the five rules.
pub fn rules()
    ensures { (t : Tree) → RulesOk t ↔ LevelsOk t }
{}

/// A tree of depth `d` has at least `2 ^ d - 1` pairs, and no way down has more than `2 * d` nodes. So with fewer pairs than
/// there are keys of 64 bits no way has more than 128.
pub fn depth()
    ensures size { (t : Tree) → size t ≡ length (pairs t) }
    ensures full { (t : Tree) → LevelsOk t → 2 ^ level t ≤ size t + 1 }
    ensures ways { (t : Tree) → LevelsOk t → height t ≤ 2 * level t }
    ensures most { (t : Tree) → LevelsOk t → size t < 2 ^ 64 → height t ≤ 128 }
{}
