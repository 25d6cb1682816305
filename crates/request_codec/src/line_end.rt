//! Where a line ends.

ghost use Rattle.memchr.specs.Find.{IsFirstByte, is_byte};

use crate::first_byte::first_byte;

/// The place of the first line end.
pub fn line_end(bytes: &[u8]) -> Option<usize>
    ensures { IsFirstByte (is_byte 10) bytes.now result }
{
    first_byte(b'\n', bytes)
}
