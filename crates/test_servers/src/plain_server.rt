//! A server that answers by the plain definition, over the state alone.

use crate::served::Sizes;
use plain_requests::answer;
use request_codec::{parse_line, write_reply};
use rio_base::{Ino, Octets, VolumeShape};
use rio_model::{NameRows, Node, NodeRow, NodeRows, Refusal, State, TxnList};
use rio_requests::{Answered, Reply, Request};
use std::alloc::{AllocError, Global};
use test_objects::MemSink;

/// The state with the root directory alone.
fn root_alone(alloc: Global, sizes: Sizes) -> Result<State, AllocError> {
    let root = NodeRow {
        ino: Ino(1),
        node: Node::Dir,
    };
    Ok(State {
        names: NameRows::from(Vec::new(alloc)),
        nodes: NodeRows::from(vec![in alloc; root]?),
        txns: TxnList::from(Vec::new(alloc)),
        shape: VolumeShape {
            version: 1,
            blocks: sizes.blocks,
            inodes: sizes.inodes,
        },
        pages: sizes.frames.saturating_add(19),
        scratch: 1,
    })
}

/// The text of a reply.
pub fn text_of(alloc: Global, reply: &Reply) -> Result<Vec<u8>, AllocError> {
    let mut sink = MemSink::new(alloc);
    let _sent = write_reply(reply, &mut sink);
    Vec::from_slice(alloc, sink.bytes().as_slice())
}

/// The text of a reply, where there is one.
fn text_if_any(alloc: Global, reply: Option<Reply>) -> Result<Option<Vec<u8>>, AllocError> {
    match &reply {
        Some(reply) => Ok(Some(text_of(alloc, reply)?)),
        None => Ok(None),
    }
}

/// The state where the transaction on a region may only be aborted, if one is open.
fn with_doomed(s: State, ino: Ino) -> State {
    let State {
        names,
        nodes,
        txns,
        shape,
        pages,
        scratch,
    } = s;
    let mut txns = txns.into_vec();
    for txn in txns.iter_mut() {
        if txn.ino.0 == ino.0 {
            txn.doomed = true;
        }
    }
    State {
        names,
        nodes,
        txns: TxnList::from(txns),
        shape,
        pages,
        scratch,
    }
}

/// The inode that a reply to `stat` tells, where it is a region's.
fn region_told(reply: Option<Reply>) -> Option<Ino> {
    match reply {
        Some(Reply::Stat { ino, kind: 3, .. }) => Some(ino),
        _ => None,
    }
}

/// A server that holds a state, until a wild store on a protected word stops it.
#[derive(Drop)]
pub struct Plain {
    alloc: Global,
    s: State,
    stopped: bool,
}

impl Plain {
    /// It holds the root directory alone.
    pub fn new(alloc: Global, sizes: Sizes) -> Result<Plain, AllocError> {
        let s = root_alone(alloc, sizes)?;
        Ok(Plain {
            alloc,
            s,
            stopped: false,
        })
    }

    /// A server that holds the same state, and runs.
    pub fn copy(&self) -> Result<Plain, AllocError> {
        let s = self.s.clone()?;
        Ok(Plain {
            alloc: self.alloc,
            s,
            stopped: false,
        })
    }

    /// The reply to a request that is not made.
    fn reply_to(&self, request: &Request) -> Result<Option<Reply>, AllocError> {
        let Answered { next: _, reply } = answer(self.alloc, &self.s, request)?;
        Ok(reply)
    }

    /// Makes a request, and answers its reply.
    fn made(&mut self, request: &Request) -> Result<Option<Reply>, AllocError> {
        let Answered { next, reply } = answer(self.alloc, &self.s, request)?;
        self.s = next;
        Ok(reply)
    }

    /// The text of the reply to a request that is not made, where it has one.
    pub fn would_say(&self, request: &Request) -> Result<Option<Vec<u8>>, AllocError> {
        let reply = self.reply_to(request)?;
        text_if_any(self.alloc, reply)
    }

    /// Makes a request, and answers the text of its reply, where it has one.
    pub fn answer(&mut self, request: &Request) -> Result<Option<Vec<u8>>, AllocError> {
        let reply = self.made(request)?;
        text_if_any(self.alloc, reply)
    }

    /// The inode of the region at a path.
    pub fn region_at(&self, path: &Octets) -> Result<Option<Ino>, AllocError> {
        let path = path.clone()?;
        let reply = self.reply_to(&Request::Stat { path })?;
        Ok(region_told(reply))
    }

    /// The transaction on a region may only be aborted, if one is open.
    pub fn doom(&mut self, ino: Ino) -> Result<(), AllocError> {
        let s = self.s.clone()?;
        self.s = with_doomed(s, ino);
        Ok(())
    }

    /// Answers a line, and puts its reply behind those before it. A line that is no request is refused. A wild store on a
    /// protected word has no reply, and neither have the lines behind it. An armed store does not fall here.
    pub fn answer_line(&mut self, line: &str, replies: &mut Vec<u8>) -> Result<(), AllocError> {
        if self.stopped {
            return Ok(());
        }
        let request = parse_line(self.alloc, line.as_bytes())?;
        match &request {
            Some(request) => self.serve(request, replies),
            None => self.refuse(replies),
        }
    }

    /// Answers the request of a line.
    fn serve(&mut self, request: &Request, replies: &mut Vec<u8>) -> Result<(), AllocError> {
        match self.answer(request)? {
            Some(text) => replies.extend_from_slice(text.as_slice()),
            None => {
                self.stopped = true;
                Ok(())
            }
        }
    }

    /// Refuses what is not served.
    fn refuse(&self, replies: &mut Vec<u8>) -> Result<(), AllocError> {
        let text = text_of(self.alloc, &Reply::Err(Refusal::BadRequest as u8))?;
        replies.extend_from_slice(text.as_slice())
    }
}
