//! The words of a script.

/// What a line of a script says.
#[derive(Clone, Copy)]
pub enum Word {
    Begin,
    Line,
    Reading,
    Undone,
    Sizes,
    Memory,
    Disk,
    BadBlock,
    Depth,
    Boot,
    TimedBoot,
    Examine,
    Run,
    Replies,
    Each,
    Whole,
    Faults,
    Drawn,
    MachinesOver,
    /// It is no word.
    Other,
}

/// The words, each behind what it is written as.
static NAMED: [(&str, Word); 19] = [
    ("==", Word::Begin),
    (">", Word::Line),
    ("?", Word::Reading),
    ("undone", Word::Undone),
    ("on", Word::Sizes),
    ("word", Word::Memory),
    ("block", Word::Disk),
    ("bad-block", Word::BadBlock),
    ("deep", Word::Depth),
    ("boot", Word::Boot),
    ("timed", Word::TimedBoot),
    ("examine", Word::Examine),
    ("run", Word::Run),
    ("replies", Word::Replies),
    ("each", Word::Each),
    ("whole", Word::Whole),
    ("faults", Word::Faults),
    ("drawn", Word::Drawn),
    ("machines-over", Word::MachinesOver),
];

impl Word {
    /// The word that is written so.
    pub fn named(name: &str) -> Word {
        for (written, word) in NAMED.iter() {
            if *written == name {
                return *word;
            }
        }
        Word::Other
    }
}
