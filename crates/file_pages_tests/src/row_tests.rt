//! Worked calls on one volume after the other, with each answer as it must be.

use crate::calls::{Answer, Call};
use crate::rows::{File, Row, check_fresh};
use crate::volumes::Size;
use crate::word_rows::BETWEEN;

/// Tables of calls, each on a volume of its own with two files without bytes.
static TABLES: [(&str, Size, &[Row]); 8] = [
    (
        "a gap of zeros",
        Size::Usual,
        &[
            Row::Write(File::First, 0, b"hello", Answer::Done(5)),
            Row::Read(File::First, 0, 100, b"hello"),
            Row::Used(5),
            Row::Write(File::First, 9, b"", Answer::Done(0)),
            Row::Read(File::First, 5, 10, b""),
            Row::Write(File::First, 10_000, b"a", Answer::Done(1)),
            Row::Read(File::First, 4, 3, b"o\0\0"),
            Row::Read(File::First, 9999, 5, b"\0a"),
        ],
    ),
    (
        "the 25th page",
        Size::Usual,
        &[
            Row::Make(File::First, Call::Resize(0), Answer::Done(0)),
            Row::Used(4),
            Row::Blocks(File::First, 0),
            Row::Make(File::First, Call::Resize(1), Answer::Done(0)),
            Row::Used(5),
            Row::Blocks(File::First, 1),
            Row::Make(File::First, Call::Resize(98_304), Answer::Done(0)),
            Row::Used(28),
            Row::Blocks(File::First, 24),
            Row::Make(File::First, Call::Resize(98_305), Answer::Done(0)),
            Row::Used(30),
            Row::Blocks(File::First, 26),
            Row::Make(File::First, Call::Resize(98_304), Answer::Done(0)),
            Row::Used(28),
            Row::Blocks(File::First, 24),
            Row::Make(File::First, Call::Resize(1), Answer::Done(0)),
            Row::Used(5),
            Row::Blocks(File::First, 1),
            Row::Make(File::First, Call::Resize(0), Answer::Done(0)),
            Row::Used(4),
            Row::Blocks(File::First, 0),
        ],
    ),
    (
        "the largest file",
        Size::Large,
        &[
            Row::Make(File::First, Call::Resize(4_292_608), Answer::Done(0)),
            Row::Used(4 + 1049),
            Row::Make(File::First, Call::Resize(4_292_609), Answer::TooLarge),
            Row::Write(File::First, 4_292_608, b"a", Answer::TooLarge),
            Row::Write(File::First, 4_292_607, b"ab", Answer::TooLarge),
            Row::Write(File::First, u64::MAX, b"ab", Answer::TooLarge),
            Row::Write(File::First, u64::MAX, b"", Answer::Done(0)),
            Row::Write(File::First, 4_292_607, b"a", Answer::Done(1)),
            Row::Read(File::First, 4_292_605, 9, b"\0\0a"),
        ],
    ),
    (
        "a file that was cut",
        Size::Usual,
        &[
            Row::Make(File::First, Call::Write(0, 5000, 0xaa), Answer::Done(5000)),
            Row::Make(File::First, Call::Resize(100), Answer::Done(0)),
            Row::Write(File::First, 4000, b"\xbb", Answer::Done(1)),
            Row::Read(File::First, 98, 4, b"\xaa\xaa\0\0"),
            Row::Read(File::First, 3998, 10, b"\0\0\xbb"),
        ],
    ),
    (
        "a full volume",
        Size::Usual,
        &[
            Row::Write(File::Second, 0, b"a", Answer::Done(1)),
            // 252 blocks are wanted, and 251 are free
            Row::Write(File::First, 1_024_000, b"a", Answer::NoSpace),
            Row::Write(File::First, 1_023_999, b"a", Answer::Done(1)),
            Row::Used(256),
            Row::Write(File::Second, 4096, b"a", Answer::NoSpace),
            Row::Make(File::Second, Call::Resize(4097), Answer::NoSpace),
            Row::Write(File::Second, 4095, b"b", Answer::Done(1)),
            Row::Blocks(File::Second, 1),
        ],
    ),
    (
        "both sides of page 24",
        Size::Usual,
        &[
            Row::Write(File::First, 98_300, b"abcdefgh", Answer::Done(8)),
            Row::Read(File::First, 98_298, 99, b"\0\0abcdefgh"),
            Row::Write(File::First, 98_302, b"CDEF", Answer::Done(4)),
            Row::Read(File::First, 98_300, 99, b"abCDEFgh"),
            Row::Make(File::First, Call::Resize(98_303), Answer::Done(0)),
            Row::Read(File::First, 98_300, 99, b"abC"),
            Row::Make(File::First, Call::Resize(98_306), Answer::Done(0)),
            Row::Read(File::First, 98_300, 99, b"abC\0\0\0"),
        ],
    ),
    (
        "the largest file is made and cut",
        Size::Large,
        &[
            Row::Write(File::First, 98_300, b"abcdefgh", Answer::Done(8)),
            Row::Write(File::First, 4_292_606, b"yz", Answer::Done(2)),
            Row::Used(4 + 1049),
            Row::Read(File::First, 4_292_605, 99, b"\0yz"),
            Row::Read(File::First, 98_300, 9, b"abcdefgh\0"),
            Row::Make(File::First, Call::Resize(98_305), Answer::Done(0)),
            Row::Used(4 + 26),
            Row::Make(File::First, Call::Resize(4_292_608), Answer::Done(0)),
            Row::Read(File::First, 98_300, 9, b"abcde\0\0\0\0"),
            Row::Read(File::First, 4_292_605, 99, b"\0\0\0"),
        ],
    ),
    ("within words", Size::Small, &BETWEEN),
];

#[test]
fn calls_answer_as_their_rows_say(rt: HostRuntime) {
    for (table, size, rows) in TABLES.iter() {
        check_fresh(&rt, rt.alloc(), *size, *table, rows);
    }
}
