//! Windows on boards of two protected pages.

use crate::board_rows::Case;
use crate::machines::Mishap;
use crate::rig::{Call, Came, Memory};

/// Words that are put through windows.
pub(crate) static WINDOWS: [Case; 4] = [
    // a window puts words of its page
    (
        "two words, and one",
        Memory::Small,
        Mishap::Nothing,
        &[
            (Call::PutTwo(1, 7), Came::Done),
            (Call::PutOne(1, 3, 8), Came::Done),
            (Call::Word(511), Came::Number(0)),
            (Call::Word(512), Came::Number(7)),
            (Call::Word(515), Came::Number(8)),
            (Call::Word(1023), Came::Number(7)),
        ],
    ),
    (
        "a stop keeps the old word",
        Memory::Small,
        Mishap::Stop(1),
        &[
            (Call::PutTwo(1, 7), Came::Stopped),
            (Call::Word(512), Came::Number(7)),
            (Call::Word(1023), Came::Number(0)),
            (Call::PutOne(1, 3, 8), Came::Stopped),
            (Call::Word(515), Came::Number(0)),
        ],
    ),
    // a run is put up to the end of its page
    (
        "at the end",
        Memory::Small,
        Mishap::Nothing,
        &[
            (Call::PutRun(0, 509, &[7, 8, 9]), Came::Done),
            (Call::Word(508), Came::Number(0)),
            (Call::Word(509), Came::Number(7)),
            (Call::Word(511), Came::Number(9)),
            (Call::Word(512), Came::Number(0)),
            (Call::Steps, Came::Number(3)),
        ],
    ),
    (
        "a stopped run leaves its front",
        Memory::Small,
        Mishap::Stop(2),
        &[
            (Call::PutRun(1, 0, &[7, 8, 9]), Came::Stopped),
            (Call::Word(512), Came::Number(7)),
            (Call::Word(513), Came::Number(8)),
            (Call::Word(514), Came::Number(0)),
            (Call::PutRun(1, 2, &[9]), Came::Stopped),
            (Call::PutRun(1, 512, &[]), Came::Done),
        ],
    ),
];
