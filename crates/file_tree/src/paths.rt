//! Paths: `/`, or names with a slash before each.

ghost use Rattle.std.specs.Prelude.{◌≡◌, ◌-◌, ◌<◌, ◌≤◌, ◌⊎◌, true, false, [], length, take, drop, slice_index};
ghost use Rattle.rio_base.specs.Bytes.{Lacks};
ghost use Rattle.rio_model.specs.States.{front_of, last_of};
ghost use Rattle.rio_model.specs.Paths.{IsName, IsPath, names_of};
ghost use Rattle.rio_requests.specs.Answers.{is_below as is_below_of};

use memchr::{memchr, memrchr};

/// What comes before each name.
const SLASH: u8 = b'/';

/// Where the name ends that begins at byte `at` of a path.
pub fn name_end(path: &[u8], at: usize) -> usize
    requires within { at ≤ length path.now }
    ensures from { at ≤ result }
    ensures to { result ≤ length path.now }
    ensures lacks { Lacks 47 (take (result - at) (drop at path.now)) }
    ensures ended { (result ≡ length path.now) ⊎ ((result < length path.now) × (slice_index path.now result ≡ 47)) }
{
    match memchr(SLASH, &path[at..]) {
        Some(len) => at + len,
        None => path.len(),
    }
}

/// Whether a path is that of the root.
pub fn is_root(path: &[u8]) -> bool
    requires path { IsPath path.now }
    ensures root { result ≡ true → names_of path.now ≡ [] }
    ensures not { result ≡ false → 0 < length (names_of path.now) }
{
    path.len() <= 1
}

/// A path of one name or more, cut: the path of the directory that holds the last name, and the name.
pub fn cut_last(path: &[u8]) -> (&[u8], &[u8])
    requires path { IsPath path.now }
    requires some { 0 < length (names_of path.now) }
    ensures front { front_of (names_of path.now) ≡ names_of result.0.now }
    ensures last { last_of (names_of path.now) ≡ result.1.now }
    ensures name { IsName result.1.now }
{
    let at = memrchr(SLASH, path).unwrap_or(0);
    (&path[..at], &path[at + 1..])
}

/// Whether a path lies below another one, which is not the root.
pub fn is_below(path: &[u8], top: &[u8]) -> bool
    requires path { IsPath path.now }
    requires top { IsPath top.now }
    requires some { 0 < length (names_of top.now) }
    ensures is { result ≡ is_below_of (names_of top.now) (names_of path.now) }
{
    if path.len() <= top.len() {
        return false;
    }
    path[top.len()] == SLASH && &path[..top.len()] == top
}
