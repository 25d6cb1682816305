//! The words of the script.

/// A fresh pair of an image with 64 frames and a volume of 256 blocks.
const FRESH: &str = "format m d --frames 64 --blocks 256 --inodes 64 --scratch 1";

/// A fresh pair of an image with 32 frames and a volume of 16 blocks.
const SMALL: &str = "format m d --frames 32 --blocks 16 --inodes 64 --scratch 1";

/// What a word says.
#[derive(Clone, Copy)]
pub enum Word {
    /// A session begins.
    Begin,
    /// A run follows after others over the same files.
    Next,
    /// A line of input, and what ends it.
    Line(&'static [u8]),
    /// A line that is read behind a stop.
    Reading,
    /// A fresh pair, as this command makes it.
    Fresh(&'static str),
    /// Something is run.
    Run(Run),
    /// Whether the last run without files wrote a block.
    Writes,
    /// How many calls of the host failed.
    HostFaults,
    /// Something is set for what follows.
    Set(Setting),
    /// Something is done with a file.
    File(FileWord),
    /// There is no such word.
    Unknown,
}

/// What is run, and what is told of it.
#[derive(Clone, Copy)]
pub enum Run {
    /// The program: what it wrote and its status.
    Whole,
    /// Its status alone.
    ForStatus,
    /// It is run twice.
    Twice,
    /// The files of the pair are looked at besides.
    Still,
    /// What becomes of its machine is looked at besides.
    Kept,
    /// Drawn lines are served in several runs.
    Walk,
    /// It is stopped before each of its steps.
    Stops,
    /// The lines are served without files.
    Serve,
    /// Its words find no memory.
    NoMemory,
}

/// What is set.
#[derive(Clone, Copy)]
pub enum Setting {
    Sizes,
    BadBlock,
    Pieces,
    SourceFails,
    SinkFails,
    HostFails,
}

/// What is done with a file, or asked about it.
#[derive(Clone, Copy)]
pub enum FileWord {
    Put,
    Patch,
    Cut,
    Lengthen,
    Keep,
    Remove,
    Same,
    Size,
    Bytes,
    Word,
}

/// Each word, and what it says.
static WORDS: [(&str, Word); 34] = [
    (">", Word::Line(b"\n")),
    ("run", Word::Run(Run::Whole)),
    ("patch", Word::File(FileWord::Patch)),
    ("==", Word::Begin),
    ("next", Word::Next),
    (">>", Word::Line(b"")),
    ("?", Word::Reading),
    ("fresh", Word::Fresh(FRESH)),
    ("small", Word::Fresh(SMALL)),
    ("status-of", Word::Run(Run::ForStatus)),
    ("twice", Word::Run(Run::Twice)),
    ("still", Word::Run(Run::Still)),
    ("run-kept", Word::Run(Run::Kept)),
    ("walk", Word::Run(Run::Walk)),
    ("stops", Word::Run(Run::Stops)),
    ("serve", Word::Run(Run::Serve)),
    ("writes", Word::Writes),
    ("no-memory", Word::Run(Run::NoMemory)),
    ("host-faults", Word::HostFaults),
    ("on", Word::Set(Setting::Sizes)),
    ("bad-block", Word::Set(Setting::BadBlock)),
    ("pieces", Word::Set(Setting::Pieces)),
    ("source-fails", Word::Set(Setting::SourceFails)),
    ("sink-fails", Word::Set(Setting::SinkFails)),
    ("host-fails", Word::Set(Setting::HostFails)),
    ("file", Word::File(FileWord::Put)),
    ("cut", Word::File(FileWord::Cut)),
    ("lengthen", Word::File(FileWord::Lengthen)),
    ("keep", Word::File(FileWord::Keep)),
    ("remove", Word::File(FileWord::Remove)),
    ("same", Word::File(FileWord::Same)),
    ("size", Word::File(FileWord::Size)),
    ("bytes", Word::File(FileWord::Bytes)),
    ("word", Word::File(FileWord::Word)),
];

impl Word {
    /// What this word says.
    pub fn of(word: &str) -> Word {
        for (name, said) in WORDS.iter() {
            if *name == word {
                return *said;
            }
        }
        Word::Unknown
    }
}
