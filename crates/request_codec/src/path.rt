//! Paths in lines.

ghost use Rattle.std.specs.Prelude.{◌≡◌, ◌≢◌, ◌↔◌, ◌∷◌, ℕ, List, IsTrue, MatchOption};
ghost use Rattle.rio_model.specs.Paths.{AreNames, IsPath};
ghost use Rattle.request_codec.specs.Fronts.{IsRun, HasName, IsNameCount};

use rio_model::{is_name_byte, may_be_name};

/// The most names of a path.
const PATH_NAMES: usize = 32;

/// Whether this is a path.
pub fn is_path(path: &[u8]) -> bool
    ensures { IsTrue result ↔ IsPath path.now }
{
    if path == b"/".as_slice() {
        return true;
    }
    let Some(count) = name_count(path) else {
        return false;
    };
    1 <= count && count <= PATH_NAMES
}

/// How many names these are, with a slash before each.
fn name_count(path: &[u8]) -> Option<usize>
    ensures { MatchOption result ((names : List (List ℕ)) → AreNames path.now names → ⊥) (λ count. IsNameCount path.now count) }
{
    let mut rest = path;
    let mut count = 0;
    while !rest.is_empty() {
        rest = behind_name(rest)?;
        count += 1;
    }
    Some(count)
}

/// What stands behind the slash and the name that a text begins with.
fn behind_name(text: &[u8]) -> Option<&[u8]>
    ensures { MatchOption result ((rest : List ℕ) → HasName text.now rest → ⊥) (λ rest. HasName text.now rest.now) }
{
    let text = behind_slash(text)?;
    let len = name_length(text);
    let (name, rest) = text.split_at(len);
    if may_be_name(name) { Some(rest) } else { None }
}

/// What stands behind the slash that a text begins with.
fn behind_slash(text: &[u8]) -> Option<&[u8]>
    ensures { MatchOption result ((rest : List ℕ) → text.now ≢ 47 ∷ rest) (λ rest. text.now ≡ 47 ∷ rest.now) }
{
    text.strip_prefix(b"/")
}

/// How many bytes of names a text begins with.
fn name_length(text: &[u8]) -> usize
    ensures { IsRun text.now result }
{
    match text.iter().position(|b| !is_name_byte(*b)) {
        Some(at) => at,
        None => text.len(),
    }
}
