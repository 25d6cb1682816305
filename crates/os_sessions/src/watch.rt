//! A watch over calls of the system and of streams: it records them, and makes them fail where a script wants it.

use std::alloc::{AllocError, Global};
use std::cell::{Cell, RefCell};
use std::io::{self, ErrorKind};
use test_scripts::{number, tell_line};

/// A call that is recorded.
#[derive(Clone, Copy, PartialEq, Eq)]
pub enum Call {
    /// It asks what is under a name, or how long an open file is.
    Look,
    /// It opens a folder.
    OpenFolder,
    /// It opens what is no folder, and may be asked to make or to empty it.
    OpenFile,
    /// It makes a file where there was none, and opens it.
    MakeFile,
    /// It takes a file's lock.
    Lock,
    /// It goes to a place in a file.
    Seek,
    /// It reads.
    Read,
    /// It writes.
    Write,
    /// It changes a file's length.
    SetLength,
    /// It brings a file to the device.
    SyncFile,
    /// It brings a folder to the device.
    SyncFolder,
    /// It renames.
    Rename,
    /// It removes a file.
    Remove,
    /// It copies a file.
    Copy,
}

/// The calls, each behind its name.
static NAMED: [(&str, Call); 14] = [
    ("Look", Call::Look),
    ("OpenFolder", Call::OpenFolder),
    ("OpenFile", Call::OpenFile),
    ("MakeFile", Call::MakeFile),
    ("Lock", Call::Lock),
    ("Seek", Call::Seek),
    ("Read", Call::Read),
    ("Write", Call::Write),
    ("SetLength", Call::SetLength),
    ("SyncFile", Call::SyncFile),
    ("SyncFolder", Call::SyncFolder),
    ("Rename", Call::Rename),
    ("Remove", Call::Remove),
    ("Copy", Call::Copy),
];

impl Call {
    /// The call of this name.
    pub fn named(word: &str) -> Option<Call> {
        for (name, call) in NAMED.iter() {
            if *name == word {
                return Some(*call);
            }
        }
        None
    }

    /// Its name.
    fn name(self) -> &'static str {
        for (name, call) in NAMED.iter() {
            if *call == self {
                return *name;
            }
        }
        ""
    }
}

/// What a call does in place of all that it was asked for.
#[derive(Clone, Copy)]
pub enum Trouble {
    /// It does nothing and fails.
    Fails(ErrorKind),
    /// It does nothing and fails as a call of a closed terminal does.
    HangsUp,
    /// It reads or writes at most this many bytes.
    Moves(usize),
}

/// The number of the system's failure where a terminal was closed.
const HUNG_UP: i32 = 5;

/// Words for kinds of failure.
static KINDS: [(&str, ErrorKind); 8] = [
    ("other", ErrorKind::Other),
    ("broken-pipe", ErrorKind::BrokenPipe),
    ("would-block", ErrorKind::WouldBlock),
    ("unexpected-eof", ErrorKind::UnexpectedEof),
    ("write-zero", ErrorKind::WriteZero),
    ("interrupted", ErrorKind::Interrupted),
    ("storage-full", ErrorKind::StorageFull),
    ("permission-denied", ErrorKind::PermissionDenied),
];

impl Trouble {
    /// The trouble that a word says: a kind of failure, or else the number of bytes that are moved at most.
    pub fn said(word: &str) -> Result<Trouble, AllocError> {
        if word == "hang-up" {
            return Ok(Trouble::HangsUp);
        }
        for (name, kind) in KINDS.iter() {
            if *name == word {
                return Ok(Trouble::Fails(*kind));
            }
        }
        Ok(Trouble::Moves(number(word)? as usize))
    }
}

/// The calls so far, and the troubles to come, in their order. A trouble is for the next call of its kind.
#[derive(Drop)]
struct Log {
    troubles: Vec<(Call, Trouble)>,
    met: usize,
    /// What a call may move that meets no trouble.
    most: usize,
    calls: Vec<Call>,
    /// What each call was given to write, with `|` behind it.
    given: Vec<u8>,
}

impl Log {
    /// No call yet, and no trouble. A call that meets none may move so many bytes.
    fn new(alloc: Global, most: usize) -> Log {
        Log {
            troubles: Vec::new(alloc),
            met: 0,
            most,
            calls: Vec::new(alloc),
            given: Vec::new(alloc),
        }
    }

    /// A call of this kind does what each word says, one after the other.
    fn plan(&mut self, call: Call, words: &str) -> Result<(), AllocError> {
        if words.is_empty() {
            return Ok(());
        }
        for word in words.split(' ') {
            self.troubles.push((call, Trouble::said(word)?))?;
        }
        Ok(())
    }

    /// Records a call, and what it was given to write.
    fn keep(&mut self, call: Call, given: &[u8]) -> Result<(), AllocError> {
        self.calls.push(call)?;
        self.given.extend_from_slice(given)?;
        Ok(self.given.push(b'|')?)
    }

    /// What becomes of a call.
    fn next(&mut self, call: Call) -> Trouble {
        match self.troubles.get(self.met) {
            Some((due, trouble)) if *due == call => {
                self.met = self.met.saturating_add(1);
                *trouble
            }
            _ => Trouble::Moves(self.most),
        }
    }

    /// Tells the names of the calls, with a space between them.
    fn tell_calls(&self, out: &mut Vec<u8>) -> Result<(), AllocError> {
        let mut text = Vec::new(*out.allocator());
        for call in self.calls.iter() {
            if !text.is_empty() {
                text.push(b' ')?;
            }
            text.extend_from_slice(call.name().as_bytes())?;
        }
        tell_line(out, text.as_slice())
    }
}

/// A watch over calls. Before it begins, calls are as they are without it.
#[derive(Drop)]
pub struct Watch {
    is_on: Cell<bool>,
    /// Whether the next file that is opened loses its name to another one.
    overtakes: Cell<bool>,
    log: RefCell<Log>,
}

impl Watch {
    /// A watch over files, which has not begun.
    pub fn of_files(alloc: Global) -> Watch {
        Watch {
            is_on: Cell::new(false),
            overtakes: Cell::new(false),
            log: RefCell::new(Log::new(alloc, usize::MAX)),
        }
    }

    /// A watch over a stream, whose calls do what the words say, one after the other, and move nothing behind the last.
    pub fn of_stream(alloc: Global, call: Call, words: &str) -> Result<Watch, AllocError> {
        let mut log = Log::new(alloc, 0);
        log.plan(call, words)?;
        Ok(Watch {
            is_on: Cell::new(true),
            overtakes: Cell::new(false),
            log: RefCell::new(log),
        })
    }

    /// Begins.
    pub fn begin(&self) {
        self.is_on.set(true);
    }

    /// The next file that is opened loses its name.
    pub fn plan_overtaking(&self) {
        self.overtakes.set(true);
    }

    /// Whether the file that was opened now loses its name. The one behind it does not.
    pub fn overtakes(&self) -> bool {
        self.overtakes.replace(false)
    }

    /// One more trouble, behind those before.
    pub fn add_trouble(&self, call: Call, trouble: Trouble) -> Result<(), AllocError> {
        match self.log.try_borrow_mut() {
            Ok(mut log) => Ok(log.troubles.push((call, trouble))?),
            Err(_) => Err(AllocError),
        }
    }

    /// Records a call, and answers how many bytes it may move.
    pub fn record(&self, call: Call) -> io::Result<usize> {
        self.record_given(call, b"")
    }

    /// Records a call that was given bytes to write, and answers how many bytes it may move.
    pub fn record_given(&self, call: Call, given: &[u8]) -> io::Result<usize> {
        if !self.is_on.get() {
            return Ok(usize::MAX);
        }
        match self.next(call, given) {
            Trouble::Fails(kind) => Err(io::Error::from(kind)),
            Trouble::HangsUp => Err(io::Error::from_raw_os_error(HUNG_UP)),
            Trouble::Moves(most) => Ok(most),
        }
    }

    /// What becomes of a call.
    fn next(&self, call: Call, given: &[u8]) -> Trouble {
        match self.log.try_borrow_mut() {
            Ok(mut log) => match log.keep(call, given) {
                Ok(()) => log.next(call),
                Err(_) => Trouble::Fails(ErrorKind::OutOfMemory),
            },
            Err(_) => Trouble::Fails(ErrorKind::ResourceBusy),
        }
    }

    /// Tells the calls so far.
    pub fn tell_calls(&self, out: &mut Vec<u8>) -> Result<(), AllocError> {
        match self.log.try_borrow() {
            Ok(log) => log.tell_calls(out),
            Err(_) => Err(AllocError),
        }
    }

    /// How many calls there were.
    pub fn count(&mut self) -> usize {
        self.log.get_mut().calls.len()
    }

    /// What each call was given to write, with `|` behind it.
    pub fn given(&mut self) -> &[u8] {
        self.log.get_mut().given.as_slice()
    }
}
