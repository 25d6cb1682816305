//! Where names lie in a run of bytes, and their order.

ghost use Rattle.std.specs.Prelude.{◌≡◌, map};
ghost use Rattle.std.specs.Cmp.Lexicographic.{slice_cmp};
ghost use Rattle.std.specs.List.{All};
ghost use Rattle.std.specs.List.Sorted.{IsPermutation, IsSorted};
ghost use Rattle.std.specs.Ordering.{nat_cmp};
ghost use Rattle.name_list.specs.Spans.{IsNameSpan, bytes_at, span_cmp};

use std::cmp::Ordering;

/// Where a name lies in a run of bytes, and its front.
#[derive(Clone, Copy, Debug)]
pub(crate) struct Span {
    pub(crate) front: u64,
    pub(crate) start: u32,
    pub(crate) len: u32,
}

/// The name of any span: what of it lies within these bytes.
fn piece_at(bytes: &[u8], span: Span) -> &[u8]
    ensures { result.now ≡ bytes_at bytes.now span }
{
    let start = (span.start as usize).min(bytes.len());
    let (_, rest) = bytes.split_at(start);
    let len = (span.len as usize).min(rest.len());
    let (name, _) = rest.split_at(len);
    name
}

/// How the names of two spans compare. Those with different fronts compare as these do.
fn compare(bytes: &[u8], a: Span, b: Span) -> Ordering
    ensures { result ≡ span_cmp bytes.now a b }
{
    match a.front.cmp(&b.front) {
        Ordering::Equal => piece_at(bytes, a).cmp(piece_at(bytes, b)),
        unequal => unequal,
    }
}

/// Puts spans in the order of their names' bytes.
pub(crate) fn sort_spans(bytes: &[u8], spans: &mut Vec<Span>)
    requires { All (IsNameSpan bytes.now) spans.old.items }
    ensures all { IsPermutation spans.old.items spans.new.items }
    ensures order { IsSorted (slice_cmp nat_cmp) (map (bytes_at bytes.now) spans.new.items) }
{
    spans.sort_unstable_by(|a, b| compare(bytes, *a, *b));
}
