//! The plain definition of the server, beside what a boot answered.

use crate::plans::{BLOCKS, Drawn, INODES, SCRATCH};
use plain_requests::answer;
use rio_base::{Ino, VolumeShape};
use rio_model::{NameRows, Node, NodeRow, NodeRows, State, TxnList};
use rio_requests::{Answered, Reply, Request};
use std::alloc::{AllocError, Global};
use std::fmt::Debug;
use work_gen::Gen;

/// How many pages the memory of a drill has.
const PAGES: u32 = 280;

/// The plain definition at work on requests that are drawn from a seed.
#[derive(Drop)]
struct Defined {
    alloc: Global,
    draws: Gen,
    state: State,
}

impl Defined {
    /// On a fresh volume, before the first request.
    fn new(alloc: Global, seed: u32) -> Result<Defined, AllocError> {
        let state = fresh_state(alloc)?;
        Ok(Defined {
            alloc,
            draws: Gen::new(seed),
            state,
        })
    }

    /// The number, from 1, of the first of so many requests that is not among those answered, or not answered as defined.
    fn first_difference(
        &mut self,
        count: u64,
        answered: &[(Request, Reply)],
    ) -> Result<Option<u64>, AllocError> {
        for number in 0..count {
            if !self.next_is(answered.get(number as usize))? {
                return Ok(Some(number + 1));
            }
        }
        Ok(None)
    }

    /// Draws the next request and makes it. Tells whether it is the one that was asked, and its reply the one that came.
    fn next_is(&mut self, answered: Option<&(Request, Reply)>) -> Result<bool, AllocError> {
        let request = self.draws.next_request(self.alloc)?;
        self.makes(&request, answered)
    }

    /// Makes a request. Tells the same of it.
    fn makes(
        &mut self,
        request: &Request,
        answered: Option<&(Request, Reply)>,
    ) -> Result<bool, AllocError> {
        let reply = self.reply_to(request)?;
        is_answer(self.alloc, request, &reply, answered)
    }

    /// Makes a request, and answers what it is defined to answer.
    fn reply_to(&mut self, request: &Request) -> Result<Option<Reply>, AllocError> {
        let Answered { next, reply } = answer(self.alloc, &self.state, request)?;
        self.state = next;
        Ok(reply)
    }
}

/// The number, from 1, of the first of the drawn requests that is not among those answered, or not answered as defined. `None`:
/// there is none.
pub fn first_difference(
    drawn: &Drawn,
    answered: &[(Request, Reply)],
) -> Result<Option<u64>, AllocError> {
    let mut defined = Defined::new(drawn.alloc, drawn.seed)?;
    defined.first_difference(drawn.count, answered)
}

/// The state of a fresh volume: the root directory alone.
fn fresh_state(alloc: Global) -> Result<State, AllocError> {
    let root = NodeRow {
        ino: Ino(1),
        node: Node::Dir,
    };
    let nodes = NodeRows::from(vec![in alloc; root]?);
    Ok(State {
        names: NameRows::from(Vec::new(alloc)),
        nodes,
        txns: TxnList::from(Vec::new(alloc)),
        shape: VolumeShape {
            version: 1,
            blocks: BLOCKS,
            inodes: INODES,
        },
        pages: PAGES,
        scratch: SCRATCH,
    })
}

/// Tells whether a request and its defined reply are those that were asked and came.
fn is_answer(
    alloc: Global,
    request: &Request,
    reply: &Option<Reply>,
    answered: Option<&(Request, Reply)>,
) -> Result<bool, AllocError> {
    let (Some(reply), Some((asked, came))) = (reply, answered) else {
        return Ok(false);
    };
    if !are_alike(alloc, came, reply)? {
        return Ok(false);
    }
    are_alike(alloc, asked, request)
}

/// Tells whether two values are shown by one text.
pub fn are_alike<T: Debug>(alloc: Global, a: &T, b: &T) -> Result<bool, AllocError> {
    let shown = format!(in alloc; "{a:?}")?;
    is_shown(alloc, b, shown.as_str())
}

/// Tells whether a value is shown by this text.
fn is_shown<T: Debug>(alloc: Global, value: &T, text: &str) -> Result<bool, AllocError> {
    let shown = format!(in alloc; "{value:?}")?;
    Ok(shown.as_str() == text)
}
