//! Copies, runs of words and pages that are lent, on boards whose words are their own places.

use crate::board_rows::Case;
use crate::machines::Mishap;
use crate::rig::{Call, Came, Memory};
use rio_base::{Wild, WordAt};

/// Copies of pages.
pub(crate) static COPIES: [Case; 8] = [
    // a page is copied word by word
    (
        "a whole page",
        Memory::Counted,
        Mishap::Nothing,
        &[
            (Call::Open(2), Came::Done),
            (Call::Copy(1, 2), Came::Done),
            (Call::Word(1023), Came::Number(1023)),
            (Call::Word(1024), Came::Number(512)),
            (Call::Word(1535), Came::Number(1023)),
            (Call::Word(1536), Came::Number(1536)),
            (Call::Steps, Came::Number(512)),
        ],
    ),
    (
        "a stop leaves a front of the copy",
        Memory::Counted,
        Mishap::Stop(5),
        &[
            (Call::Open(2), Came::Done),
            (Call::Copy(1, 2), Came::Stopped),
            (Call::Word(1024), Came::Number(512)),
            (Call::Word(1028), Came::Number(516)),
            (Call::Word(1029), Came::Number(1029)),
        ],
    ),
    (
        "a stop leaves five words copied",
        Memory::Counted,
        Mishap::Stop(5),
        &[
            (Call::Open(2), Came::Done),
            (Call::Copy(20, 2), Came::Stopped),
            (Call::Front(5), Came::Is(true)),
            (Call::Steps, Came::Number(5)),
        ],
    ),
    (
        "a stop comes before an armed store",
        Memory::Counted,
        Mishap::Stop(5),
        &[
            (Call::Open(2), Came::Done),
            (Call::Arm(5, 0, 9), Came::Done),
            (Call::Copy(20, 2), Came::Stopped),
            (Call::Trapped, Came::Place(None)),
        ],
    ),
    // an armed store falls within a copy or behind it
    (
        "it traps within a copy",
        Memory::Counted,
        Mishap::Nothing,
        &[
            (Call::Open(2), Came::Done),
            (Call::Arm(100, 0, 9), Came::Done),
            (Call::Copy(20, 2), Came::Stopped),
            (Call::Front(100), Came::Is(true)),
            (Call::Steps, Came::Number(100)),
            (Call::Trapped, Came::Place(Some(WordAt(0)))),
        ],
    ),
    (
        "it falls on scratch within a copy",
        Memory::Counted,
        Mishap::Nothing,
        &[
            (Call::Open(2), Came::Done),
            (Call::Arm(100, 41_984, 9), Came::Done),
            (Call::Copy(20, 2), Came::Done),
            (Call::Front(512), Came::Is(true)),
            (Call::Word(41_984), Came::Number(9)),
            (Call::Word(41_985), Came::Number(41_985)),
            (Call::Steps, Came::Number(512)),
        ],
    ),
    (
        "it is spared within a copy",
        Memory::Counted,
        Mishap::Nothing,
        &[
            (Call::Open(2), Came::Done),
            (Call::Arm(100, 1024, 9), Came::Done),
            (Call::Copy(20, 2), Came::Done),
            (Call::Front(512), Came::Is(true)),
            (Call::Spared, Came::Number(1)),
            (Call::Steps, Came::Number(512)),
        ],
    ),
    (
        "it waits behind a copy",
        Memory::Counted,
        Mishap::Nothing,
        &[
            (Call::Open(2), Came::Done),
            (Call::Arm(512, 0, 9), Came::Done),
            (Call::Copy(20, 2), Came::Done),
            (Call::Trapped, Came::Place(None)),
            (Call::Copy(21, 2), Came::Stopped),
            (Call::Front(512), Came::Is(true)),
            (Call::Trapped, Came::Place(Some(WordAt(0)))),
        ],
    ),
];

/// Copies of a page of scratch.
pub(crate) static SCRATCH_COPIES: [Case; 6] = [
    // a page of scratch is copied as it is when its words are read
    (
        "a whole page of scratch",
        Memory::Counted,
        Mishap::Nothing,
        &[
            (Call::Open(2), Came::Done),
            (Call::Copy(82, 2), Came::Done),
            (Call::Word(1024), Came::Number(41_984)),
            (Call::Word(1535), Came::Number(42_495)),
            (Call::Steps, Came::Number(512)),
        ],
    ),
    (
        "a store before its word",
        Memory::Counted,
        Mishap::Nothing,
        &[
            (Call::Open(2), Came::Done),
            (Call::Arm(100, 42_184, 9), Came::Done),
            (Call::Copy(82, 2), Came::Done),
            (Call::Word(1223), Came::Number(42_183)),
            (Call::Word(1224), Came::Number(9)),
        ],
    ),
    (
        "a store behind its word",
        Memory::Counted,
        Mishap::Nothing,
        &[
            (Call::Open(2), Came::Done),
            (Call::Arm(100, 42_034, 9), Came::Done),
            (Call::Copy(82, 2), Came::Done),
            (Call::Word(1074), Came::Number(42_034)),
            (Call::Word(42_034), Came::Number(9)),
        ],
    ),
    (
        "a store before the first word",
        Memory::Counted,
        Mishap::Nothing,
        &[
            (Call::Open(2), Came::Done),
            (Call::Arm(0, 41_984, 9), Came::Done),
            (Call::Copy(82, 2), Came::Done),
            (Call::Word(1024), Came::Number(9)),
            (Call::Word(1025), Came::Number(41_985)),
        ],
    ),
    (
        "a store before the step of its word",
        Memory::Counted,
        Mishap::Nothing,
        &[
            (Call::Open(2), Came::Done),
            (Call::Arm(100, 42_084, 9), Came::Done),
            (Call::Copy(82, 2), Came::Done),
            (Call::Word(1124), Came::Number(9)),
        ],
    ),
    (
        "a store behind the step of its word",
        Memory::Counted,
        Mishap::Nothing,
        &[
            (Call::Open(2), Came::Done),
            (Call::Arm(101, 42_084, 9), Came::Done),
            (Call::Copy(82, 2), Came::Done),
            (Call::Word(1124), Came::Number(42_084)),
            (Call::Word(42_084), Came::Number(9)),
        ],
    ),
];

/// Runs of words, and pages that are lent.
pub(crate) static RUNS: [Case; 8] = [
    // a run at the end of a page is whole or stopped
    (
        "after no step",
        Memory::Counted,
        Mishap::Stop(0),
        &[
            (Call::Open(2), Came::Done),
            (Call::Run(1533, &[7, 8, 9]), Came::Stopped),
            (Call::Word(1533), Came::Number(1533)),
            (Call::Word(1534), Came::Number(1534)),
            (Call::Word(1535), Came::Number(1535)),
            (Call::Word(1536), Came::Number(1536)),
            (Call::Steps, Came::Number(0)),
        ],
    ),
    (
        "after 1 step",
        Memory::Counted,
        Mishap::Stop(1),
        &[
            (Call::Open(2), Came::Done),
            (Call::Run(1533, &[7, 8, 9]), Came::Stopped),
            (Call::Word(1533), Came::Number(7)),
            (Call::Word(1534), Came::Number(1534)),
            (Call::Word(1535), Came::Number(1535)),
            (Call::Word(1536), Came::Number(1536)),
            (Call::Steps, Came::Number(1)),
        ],
    ),
    (
        "after 2 steps",
        Memory::Counted,
        Mishap::Stop(2),
        &[
            (Call::Open(2), Came::Done),
            (Call::Run(1533, &[7, 8, 9]), Came::Stopped),
            (Call::Word(1533), Came::Number(7)),
            (Call::Word(1534), Came::Number(8)),
            (Call::Word(1535), Came::Number(1535)),
            (Call::Word(1536), Came::Number(1536)),
            (Call::Steps, Came::Number(2)),
        ],
    ),
    (
        "after 3 steps",
        Memory::Counted,
        Mishap::Stop(3),
        &[
            (Call::Open(2), Came::Done),
            (Call::Run(1533, &[7, 8, 9]), Came::Done),
            (Call::Word(1533), Came::Number(7)),
            (Call::Word(1534), Came::Number(8)),
            (Call::Word(1535), Came::Number(9)),
            (Call::Word(1536), Came::Number(1536)),
            (Call::Steps, Came::Number(3)),
        ],
    ),
    (
        "after 4 steps",
        Memory::Counted,
        Mishap::Stop(4),
        &[
            (Call::Open(2), Came::Done),
            (Call::Run(1533, &[7, 8, 9]), Came::Done),
            (Call::Word(1533), Came::Number(7)),
            (Call::Word(1534), Came::Number(8)),
            (Call::Word(1535), Came::Number(9)),
            (Call::Word(1536), Came::Number(1536)),
            (Call::Steps, Came::Number(3)),
        ],
    ),
    // a run goes on behind an armed store and an empty one is no step
    (
        "it goes on behind an armed store",
        Memory::Counted,
        Mishap::Nothing,
        &[
            (Call::Open(2), Came::Done),
            (Call::Arm(1, 41_984, 5), Came::Done),
            (Call::Run(1533, &[7, 8, 9]), Came::Done),
            (Call::Word(1533), Came::Number(7)),
            (Call::Word(1534), Came::Number(8)),
            (Call::Word(1535), Came::Number(9)),
            (Call::Word(1536), Came::Number(1536)),
            (Call::Word(41_984), Came::Number(5)),
        ],
    ),
    (
        "an empty run is no step",
        Memory::Counted,
        Mishap::Nothing,
        &[
            (Call::Wild(0, 9), Came::Met(Wild::Trapped)),
            (Call::Open(2), Came::Done),
            (Call::Run(1030, &[]), Came::Done),
            (Call::Steps, Came::Number(0)),
        ],
    ),
    // pages are lent as they read
    (
        "the first, a middle and the last word",
        Memory::Counted,
        Mishap::Nothing,
        &[
            (Call::PageLen(3), Came::Number(512)),
            (Call::PageWord(3, 7), Came::Number(1543)),
            (Call::PageWord(82, 511), Came::Number(42_495)),
        ],
    ),
];
