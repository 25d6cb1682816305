//! How serving lines over a pair of files ends.

ghost use Rattle.std.specs.Prelude.{◌≡◌};
ghost use Rattle.line_loop.specs.LinesEnds.{told_end};

use line_loop::{LinesEnd, ServeEnd};
use rio_base::WordAt;

/// How serving ended, by the end of the loop of lines and the place of the wild store that trapped, if one did.
pub(crate) fn end_of(end: ServeEnd, trapped: Option<WordAt>) -> LinesEnd
    ensures { result ≡ told_end end trapped }
{
    match (end, trapped) {
        (ServeEnd::Stopped, Some(at)) => LinesEnd::Trapped(at),
        (end, _) => LinesEnd::Ended(end),
    }
}
