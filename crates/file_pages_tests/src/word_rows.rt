//! Bytes that begin or end within a word of their page.

use crate::calls::{Answer, Call};
use crate::rows::{File, Row};

/// The bytes of the page in three words.
const A: &[u8] = b"\xa0\xa1\xa2\xa3\xa4\xa5\xa6\xa7";

const AB: &[u8] = b"\xa0\xa1\xa2\xa3\xa4\xa5\xa6\xa7\xb0\xb1\xb2\xb3\xb4\xb5\xb6\xb7";

const A_TO_B: &[u8] =
    b"\xa0\xa1\xa2\xa3\xa4\xa5\xa6\xa7\xc0\xc1\xc2\xc3\xc4\xc5\xc6\xc7\xb0\xb1\xb2\xb3\xb4\xb5\xb6\xb7";

/// Writes that begin or end within a word, to a file of a page.
pub(crate) const BETWEEN: [Row; 28] = [
    Row::Make(File::First, Call::Resize(4096), Answer::Done(0)),
    Row::Write(File::First, 0, A, Answer::Done(8)),
    Row::Write(
        File::First,
        0,
        b"\x01\x02\x03\x04\x05\x06\x07\x08",
        Answer::Done(8),
    ),
    Row::Read(File::First, 0, 8, b"\x01\x02\x03\x04\x05\x06\x07\x08"),
    Row::Write(File::First, 0, A, Answer::Done(8)),
    Row::Write(File::First, 0, b"\x01\x02\x03", Answer::Done(3)),
    Row::Read(File::First, 0, 8, b"\x01\x02\x03\xa3\xa4\xa5\xa6\xa7"),
    Row::Write(File::First, 0, A, Answer::Done(8)),
    Row::Write(File::First, 3, b"\x01\x02", Answer::Done(2)),
    Row::Read(File::First, 0, 8, b"\xa0\xa1\xa2\x01\x02\xa5\xa6\xa7"),
    Row::Write(File::First, 4088, A, Answer::Done(8)),
    Row::Write(File::First, 4095, b"\x01", Answer::Done(1)),
    Row::Read(File::First, 4088, 8, b"\xa0\xa1\xa2\xa3\xa4\xa5\xa6\x01"),
    Row::Write(File::First, 0, AB, Answer::Done(16)),
    Row::Write(File::First, 5, b"\x01\x02\x03\x04\x05", Answer::Done(5)),
    Row::Read(
        File::First,
        0,
        16,
        b"\xa0\xa1\xa2\xa3\xa4\x01\x02\x03\x04\x05\xb2\xb3\xb4\xb5\xb6\xb7",
    ),
    Row::Write(File::First, 8, AB, Answer::Done(16)),
    Row::Write(
        File::First,
        13,
        b"\x01\x02\x03\x04\x05\x06\x07\x08\x09\x0a\x0b",
        Answer::Done(11),
    ),
    Row::Read(
        File::First,
        8,
        16,
        b"\xa0\xa1\xa2\xa3\xa4\x01\x02\x03\x04\x05\x06\x07\x08\x09\x0a\x0b",
    ),
    Row::Write(File::First, 8, AB, Answer::Done(16)),
    Row::Write(
        File::First,
        8,
        b"\x01\x02\x03\x04\x05\x06\x07\x08\x09\x0a\x0b\x0c\x0d\x0e\x0f\x10",
        Answer::Done(16),
    ),
    Row::Read(
        File::First,
        8,
        16,
        b"\x01\x02\x03\x04\x05\x06\x07\x08\x09\x0a\x0b\x0c\x0d\x0e\x0f\x10",
    ),
    Row::Write(File::First, 8, AB, Answer::Done(16)),
    Row::Write(
        File::First,
        8,
        b"\x01\x02\x03\x04\x05\x06\x07\x08\x09",
        Answer::Done(9),
    ),
    Row::Read(
        File::First,
        8,
        16,
        b"\x01\x02\x03\x04\x05\x06\x07\x08\x09\xb1\xb2\xb3\xb4\xb5\xb6\xb7",
    ),
    Row::Write(File::First, 0, A_TO_B, Answer::Done(24)),
    Row::Write(
        File::First,
        6,
        b"\x01\x02\x03\x04\x05\x06\x07\x08\x09\x0a\x0b\x0c\x0d\x0e",
        Answer::Done(14),
    ),
    Row::Read(
        File::First,
        0,
        24,
        b"\xa0\xa1\xa2\xa3\xa4\xa5\x01\x02\x03\x04\x05\x06\x07\x08\x09\x0a\x0b\x0c\x0d\x0e\xb4\xb5\xb6\xb7",
    ),
];
