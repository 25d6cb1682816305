//! The words of a script of runs.

use rio_os::FileLock;

/// What a word says.
#[derive(Clone, Copy)]
pub enum Word {
    /// A session begins.
    Begin,
    /// A line of input.
    Line,
    /// The lines of the next run follow.
    Next,
    /// The program is run, and what it wrote and its status are told.
    Run,
    /// The program is run to make a fresh pair, and what it wrote and its status are told.
    Fresh,
    /// Whether the file that is held open still reads as it did.
    Held,
    /// The lock that is held is let go of.
    Free,
    /// Something is done with what stands under a name.
    Name(NameWord),
    /// There is no such word.
    Unknown,
}

/// What is done with what stands under a name.
#[derive(Clone, Copy)]
pub enum NameWord {
    /// It is taken away.
    Gone,
    /// A folder is made there.
    Folder,
    /// A link is made there.
    Link,
    /// A link to a pipe is made there.
    Pipe,
    /// Its lock is taken and held, as another run would.
    Lock(FileLock),
    /// It is read.
    Read(ReadWord),
}

/// What is done with the bytes of a file.
#[derive(Clone, Copy)]
pub enum ReadWord {
    /// They are kept, and the file is held open.
    Hold,
    /// Whether they are those that were kept.
    Same,
    /// How many they are.
    Size,
}

/// Each word, and what it says.
static WORDS: [(&str, Word); 16] = [
    ("run", Word::Run),
    (">", Word::Line),
    ("fresh", Word::Fresh),
    ("==", Word::Begin),
    ("next", Word::Next),
    ("held", Word::Held),
    ("free", Word::Free),
    ("gone", Word::Name(NameWord::Gone)),
    ("folder", Word::Name(NameWord::Folder)),
    ("link", Word::Name(NameWord::Link)),
    ("pipe", Word::Name(NameWord::Pipe)),
    ("lock", Word::Name(NameWord::Lock(FileLock::Exclusive))),
    ("share", Word::Name(NameWord::Lock(FileLock::Shared))),
    ("hold", Word::Name(NameWord::Read(ReadWord::Hold))),
    ("same", Word::Name(NameWord::Read(ReadWord::Same))),
    ("size", Word::Name(NameWord::Read(ReadWord::Size))),
];

impl Word {
    /// What this word says.
    pub fn of(word: &str) -> Word {
        for (name, said) in WORDS.iter() {
            if *name == word {
                return *said;
            }
        }
        Word::Unknown
    }
}
