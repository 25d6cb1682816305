//! The words that lines begin with, by what follows them.

ghost use Rattle.std.specs.Prelude.{◌≡◌, ◌≢◌, ◌↔◌, IsTrue, MatchOption};
ghost use Rattle.rio_requests.specs.declared.request.Request.{Request as RequestOf};
ghost use Rattle.request_codec.specs.Words.{path_word, path_request, number_word, number_request, Takes, numbers_word, numbers_request, TakesBoth, data_word, data_request, other_word};

use rio_base::Octets;
use rio_requests::Request;

/// The most bytes that a request asks for.
const DATA_BYTES: u64 = 1_048_576;

/// A word before a path.
#[derive(Clone, Copy)]
pub enum PathWord {
    Mkdir,
    Create,
    Unlink,
    Rmdir,
    Stat,
    List,
    Begin,
    Commit,
    Abort,
}

impl PathWord {
    /// Reads the word.
    pub fn of(word: &[u8]) -> Option<PathWord>
        ensures { MatchOption result ((known : PathWord) → word.now ≢ path_word known) (λ known. word.now ≡ path_word known) }
    {
        match word {
            b"mkdir" => Some(PathWord::Mkdir),
            b"create" => Some(PathWord::Create),
            b"unlink" => Some(PathWord::Unlink),
            b"rmdir" => Some(PathWord::Rmdir),
            b"stat" => Some(PathWord::Stat),
            b"list" => Some(PathWord::List),
            b"begin" => Some(PathWord::Begin),
            b"commit" => Some(PathWord::Commit),
            b"abort" => Some(PathWord::Abort),
            _ => None,
        }
    }

    /// The request for this path.
    pub fn request(self, path: Octets) -> Request
        ensures { result ≡ path_request self path }
    {
        match self {
            PathWord::Mkdir => Request::Mkdir { path },
            PathWord::Create => Request::Create { path },
            PathWord::Unlink => Request::Unlink { path },
            PathWord::Rmdir => Request::Rmdir { path },
            PathWord::Stat => Request::Stat { path },
            PathWord::List => Request::List { path },
            PathWord::Begin => Request::Begin { path },
            PathWord::Commit => Request::Commit { path },
            PathWord::Abort => Request::Abort { path },
        }
    }
}

/// A word before a path and a number.
#[derive(Clone, Copy)]
pub enum NumberWord {
    Truncate,
    Alloc,
    Free,
}

impl NumberWord {
    /// Reads the word.
    pub fn of(word: &[u8]) -> Option<NumberWord>
        ensures { MatchOption result ((known : NumberWord) → word.now ≢ number_word known) (λ known. word.now ≡ number_word known) }
    {
        match word {
            b"truncate" => Some(NumberWord::Truncate),
            b"alloc" => Some(NumberWord::Alloc),
            b"free" => Some(NumberWord::Free),
            _ => None,
        }
    }

    /// Whether this number may stand there.
    pub fn takes(self, number: u64) -> bool
        ensures { IsTrue result ↔ Takes self number }
    {
        match self {
            NumberWord::Alloc => number > 0,
            NumberWord::Truncate | NumberWord::Free => true,
        }
    }

    /// The request for this path and this number.
    pub fn request(self, path: Octets, number: u64) -> Request
        ensures { result ≡ number_request self path number }
    {
        match self {
            NumberWord::Truncate => Request::Truncate { path, len: number },
            NumberWord::Alloc => Request::Alloc {
                path,
                units: number,
            },
            NumberWord::Free => Request::Free { path, at: number },
        }
    }
}

/// A word before a path and two numbers.
#[derive(Clone, Copy)]
pub enum NumbersWord {
    Region,
    Read,
    Range,
    Get,
}

impl NumbersWord {
    /// Reads the word.
    pub fn of(word: &[u8]) -> Option<NumbersWord>
        ensures { MatchOption result ((known : NumbersWord) → word.now ≢ numbers_word known) (λ known. word.now ≡ numbers_word known) }
    {
        match word {
            b"region" => Some(NumbersWord::Region),
            b"read" => Some(NumbersWord::Read),
            b"range" => Some(NumbersWord::Range),
            b"get" => Some(NumbersWord::Get),
            _ => None,
        }
    }

    /// Whether these numbers may stand there.
    pub fn takes(self, first: u64, second: u64) -> bool
        ensures { IsTrue result ↔ TakesBoth self first second }
    {
        match self {
            NumbersWord::Region => first > 0 && second > 0,
            NumbersWord::Range => true,
            NumbersWord::Read | NumbersWord::Get => second <= DATA_BYTES,
        }
    }

    /// The request for this path and these numbers.
    pub fn request(self, path: Octets, first: u64, second: u64) -> Request
        ensures { result ≡ numbers_request self path first second }
    {
        match self {
            NumbersWord::Region => Request::Region {
                path,
                data_pages: first,
                undo_pages: second,
            },
            NumbersWord::Read => Request::Read {
                path,
                off: first,
                len: second,
            },
            NumbersWord::Range => Request::Range {
                path,
                off: first,
                len: second,
            },
            NumbersWord::Get => Request::Get {
                path,
                off: first,
                len: second,
            },
        }
    }
}

/// A word before a path, a number and data.
#[derive(Clone, Copy)]
pub enum DataWord {
    Write,
    Put,
}

impl DataWord {
    /// Reads the word.
    pub fn of(word: &[u8]) -> Option<DataWord>
        ensures { MatchOption result ((known : DataWord) → word.now ≢ data_word known) (λ known. word.now ≡ data_word known) }
    {
        match word {
            b"write" => Some(DataWord::Write),
            b"put" => Some(DataWord::Put),
            _ => None,
        }
    }

    /// The request for this path, this offset and these bytes.
    pub fn request(self, path: Octets, off: u64, bytes: Octets) -> Request
        ensures { result ≡ data_request self path off bytes }
    {
        match self {
            DataWord::Write => Request::Write { path, off, bytes },
            DataWord::Put => Request::Put { path, off, bytes },
        }
    }
}

/// A word that something else follows.
#[derive(Clone, Copy)]
pub enum OtherWord {
    Rename,
    Flush,
    Wild,
    Arm,
}

impl OtherWord {
    /// Reads the word.
    pub fn of(word: &[u8]) -> Option<OtherWord>
        ensures { MatchOption result ((known : OtherWord) → word.now ≢ other_word known) (λ known. word.now ≡ other_word known) }
    {
        match word {
            b"rename" => Some(OtherWord::Rename),
            b"flush" => Some(OtherWord::Flush),
            b"wild" => Some(OtherWord::Wild),
            b"arm" => Some(OtherWord::Arm),
            _ => None,
        }
    }
}
