//! Bytes that begin or end within a word, and how many bytes there are in stored words.

use crate::compare::{At, holds};
use file_pages::{fill_words, stored_bytes};

/// The words of the page in which bytes begin and end.
const FIRST: u64 = 0xA7A6_A5A4_A3A2_A1A0;

const LAST: u64 = 0xB7B6_B5B4_B3B2_B1B0;

/// Bytes that are put into words.
const BYTES: [u8; 16] = [1, 2, 3, 4, 5, 6, 7, 8, 9, 10, 11, 12, 13, 14, 15, 16];

/// From which byte of a page on, how many of these bytes, the words that they make, and how many those are.
static MADE: [(usize, usize, [u64; 3], usize); 9] = [
    (0, 8, [0x0807_0605_0403_0201, 0, 0], 1),
    (0, 3, [0xA7A6_A5A4_A303_0201, 0, 0], 1),
    (3, 2, [0xA7A6_A502_01A2_A1A0, 0, 0], 1),
    (4095, 1, [0x01A6_A5A4_A3A2_A1A0, 0, 0], 1),
    (5, 5, [0x0302_01A4_A3A2_A1A0, 0xB7B6_B5B4_B3B2_0504, 0], 2),
    (13, 11, [0x0302_01A4_A3A2_A1A0, 0x0B0A_0908_0706_0504, 0], 2),
    (8, 16, [0x0807_0605_0403_0201, 0x100F_0E0D_0C0B_0A09, 0], 2),
    (8, 9, [0x0807_0605_0403_0201, 0xB7B6_B5B4_B3B2_B109, 0], 2),
    (
        6,
        14,
        [
            0x0201_A5A4_A3A2_A1A0,
            0x0A09_0807_0605_0403,
            0xB7B6_B5B4_0E0D_0C0B,
        ],
        3,
    ),
];

/// Whether bytes make these words, which are so many: at most three, with zeros behind them.
fn makes(at: usize, bytes: &[u8], due: &[u64; 3], words: usize) -> bool {
    if bytes.is_empty() || at > 4095 || bytes.len() > 4096 - at {
        return false;
    }
    let count = (at + bytes.len()).div_ceil(8) - at / 8;
    if count > 3 || count != words {
        return false;
    }
    // One word alone is the first and the last.
    let last = if count == 1 { FIRST } else { LAST };
    let mut made = [0; 3];
    fill_words(FIRST, last, at, bytes, &mut made[..count]);
    made == *due
}

#[test]
fn words_are_made_of_bytes_and_those_of_the_page(rt: HostRuntime) {
    for (row, (first, len, words, count)) in MADE.iter().enumerate() {
        let so = match BYTES.as_slice().get(..*len) {
            Some(bytes) => makes(*first, bytes, words, *count),
            None => false,
        };
        let at = At {
            table: "words of bytes",
            row: row as u64,
        };
        holds(&rt, "these words", at, so);
    }
}

/// From which byte of a page on, how many bytes, how many words are stored, and how many of the bytes those have.
static STORED: [(usize, usize, usize, u64); 6] = [
    (0, 16, 1, 8),
    (3, 10, 0, 0),
    (3, 10, 1, 5),
    (3, 10, 2, 10),
    (5, 2, 1, 2),
    (4090, 6, 1, 6),
];

/// Whether so many of some bytes are in stored words.
fn are_stored(at: usize, len: usize, words: usize, due: u64) -> bool {
    if at > 4096 || len > 4096 - at || words > 512 {
        return false;
    }
    stored_bytes(at, len, words) == due
}

#[test]
fn bytes_in_stored_words_are_counted(rt: HostRuntime) {
    for (row, (at, len, words, due)) in STORED.iter().enumerate() {
        let place = At {
            table: "stored bytes",
            row: row as u64,
        };
        holds(&rt, "so many", place, are_stored(*at, *len, *words, *due));
    }
}
