//! A session: request lines that are answered one after the other, each in the state that the one before it left.

use crate::command_words::command_of;
use crate::input_lines::put_lines_of;
use crate::meanings::{let_go, put_each_of, put_parsed};
use crate::replies::{put_reply, put_texts, reply_of};
use crate::sinks::put_writing;
use crate::states::{doomed, root_alone};
use crate::words::{WORDS, Word, looked_up, small};
use plain_requests::answer;
use request_codec::parse_line;
use rio_model::State;
use rio_requests::{Answered, Reply, Request};
use std::alloc::{AllocError, Global};
use test_scripts::{expanded, first_word};

/// The blocks of the volume of a session that does not tell them.
const BLOCKS: u32 = 256;

/// Puts each line of a script, and below it what the line comes to.
pub(crate) fn tell_script(alloc: Global, script: &str, out: &mut String) -> Result<(), AllocError> {
    let mut session = Session::new(alloc)?;
    session.tell(script, out)
}

/// The state of the server, and the reply that the script told last.
#[derive(Drop)]
struct Session {
    alloc: Global,
    state: State,
    reply: Reply,
}

impl Session {
    fn new(alloc: Global) -> Result<Session, AllocError> {
        let state = root_alone(alloc, BLOCKS)?;
        Ok(Session {
            alloc,
            state,
            reply: Reply::Ok,
        })
    }

    /// Puts each line of a script, and below it what the line comes to.
    fn tell(&mut self, script: &str, out: &mut String) -> Result<(), AllocError> {
        for line in script.lines() {
            self.put_line(line, out)?;
        }
        Ok(())
    }

    /// Puts a line and what it comes to.
    fn put_line(&mut self, line: &str, out: &mut String) -> Result<(), AllocError> {
        out.push_str(line)?;
        out.push_str("\n")?;
        match command_of(self.alloc, line)? {
            Some(command) => put_told(command.as_str(), out),
            None => self.put_what_is_said(line, out),
        }
    }

    /// Puts what a line of a session, or a row, comes to.
    fn put_what_is_said(&mut self, line: &str, out: &mut String) -> Result<(), AllocError> {
        let (word, rest) = first_word(line);
        match looked_up(WORDS.as_slice(), word) {
            Some(word) => self.put_command(word, rest, out),
            None => out.push_str("    no such command\n"),
        }
    }

    /// Puts what a command comes to behind what was told.
    fn put_command(&mut self, word: Word, rest: &str, out: &mut String) -> Result<(), AllocError> {
        match word {
            Word::Nothing => Ok(()),
            Word::Volume => self.begin(small(rest)),
            Word::Doomed => self.doom(small(rest)),
            Word::Request => self.put_answer(rest, false, out),
            Word::GreatestRequest => self.put_answer(rest, true, out),
            Word::Reply => self.put_reply(rest, out),
            Word::Sink => put_writing(self.alloc, &self.reply, rest, out),
            Word::Parse => put_parsed(self.alloc, rest, out),
            Word::Each => put_each_of(self.alloc, rest, out),
            Word::Lines => put_lines_of(self.alloc, rest, out),
            Word::Texts => put_texts(self.alloc, rest, out),
        }
    }

    /// Begins anew, on a volume of so many blocks.
    fn begin(&mut self, blocks: u32) -> Result<(), AllocError> {
        self.state = root_alone(self.alloc, blocks)?;
        Ok(())
    }

    /// Opens a transaction that may only be aborted.
    fn doom(&mut self, ino: u32) -> Result<(), AllocError> {
        self.state.txns = doomed(self.alloc, ino)?;
        Ok(())
    }

    /// Puts the reply to a request line, whose last number is 2^64 - 1 where `greatest` holds.
    fn put_answer(
        &mut self,
        line: &str,
        greatest: bool,
        out: &mut String,
    ) -> Result<(), AllocError> {
        let line = expanded(self.alloc, line)?;
        self.put_answer_to(line.as_slice(), greatest, out)
    }

    /// Puts the reply to a line. One that is no request is refused.
    fn put_answer_to(
        &mut self,
        line: &[u8],
        greatest: bool,
        out: &mut String,
    ) -> Result<(), AllocError> {
        match parse_line(self.alloc, line)? {
            Some(request) => self.serve(request, greatest, out),
            None => put_refusal(self.alloc, out),
        }
    }

    /// Makes a request, which then goes, with its last number as it is or 2^64 - 1.
    fn serve(
        &mut self,
        request: Request,
        greatest: bool,
        out: &mut String,
    ) -> Result<(), AllocError> {
        let mut request = request;
        if greatest {
            set_greatest(&mut request);
        }
        let ended = self.make(&request, out);
        let_go(request);
        ended
    }

    /// Makes a request, and puts its reply.
    fn make(&mut self, request: &Request, out: &mut String) -> Result<(), AllocError> {
        let Answered { next, reply } = answer(self.alloc, &self.state, request)?;
        self.state = next;
        put_given(self.alloc, reply, out)
    }

    /// Puts a reply that the script tells as it is written.
    fn put_reply(&mut self, told: &str, out: &mut String) -> Result<(), AllocError> {
        self.reply = reply_of(self.alloc, told)?;
        put_reply(self.alloc, &self.reply, out)
    }
}

/// Puts a refusal of what is no request.
fn put_refusal(alloc: Global, out: &mut String) -> Result<(), AllocError> {
    put_reply(alloc, &Reply::Err(1), out)
}

/// Puts a reply as it is written, or that there is none.
fn put_given(alloc: Global, reply: Option<Reply>, out: &mut String) -> Result<(), AllocError> {
    match &reply {
        Some(reply) => put_reply(alloc, reply, out),
        None => out.push_str("    no reply\n"),
    }
}

/// A write or a change of a size is now at or to 2^64 - 1. No line has such a number.
fn set_greatest(request: &mut Request) {
    match request {
        Request::Write { off, .. } => *off = u64::MAX,
        Request::Truncate { len, .. } => *len = u64::MAX,
        _ => {}
    }
}

/// Puts a text on a line of its own, four spaces further in.
fn put_told(text: &str, out: &mut String) -> Result<(), AllocError> {
    out.push_str("    ")?;
    out.push_str(text)?;
    out.push_str("\n")
}
