//! Replies that wait to be written together.

ghost use Rattle.std.specs.Prelude.{◌≡◌, ◌⊎◌, [], true, IfOk, OnErr, OnOk};
ghost use Rattle.request_codec.specs.Sending.{Sends, Sent};
ghost use Rattle.line_loop.specs.Asking.{Refuses};

use crate::server::LineServer;
use request_codec::{ROOM_BYTES, send};
use rio_base::{Failed, Sink};
use std::alloc::{AllocError, Global};
use std::marker::Model;

/// A room with the texts of the replies that wait, in its front. Contracts see those bytes.
#[derive(Drop)]
pub struct Waiting {
    room: Vec<u8>,
    held: usize,
}

impl Model for Waiting {
    ghost use Rattle.std.specs.Prelude.{List, ℕ, ◌≡◌, ◌≤◌, length, take};

    ghost Value = { List ℕ };

    ghost view = { λ a. take a.held a.room.items };

    ghost invariant = { λ a. (a.held ≤ length a.room.items) × (length a.room.items ≡ 4096) };
}

impl Waiting {
    /// A room in which nothing waits.
    pub fn new(alloc: Global) -> Result<Waiting, AllocError>
        ensures { IfOk result (λ waiting. waiting ≡ []) }
    {
        let room = vec![in alloc; 0u8; ROOM_BYTES]?;
        Ok(Waiting { room, held: 0 })
    }

    /// Writes what waits, in one call where the sink takes it all.
    pub fn release<K: Sink>(&mut self, sink: &mut K) -> Result<(), Failed>
        ensures ok { OnOk result (Sent (K.written sink.old) (K.faults sink.old) self.old [] (K.written sink.new) (K.faults sink.new) []) }
        ensures none { OnOk result (self.new ≡ []) }
        ensures err { OnErr result (Refuses (K.written sink.old) (K.faults sink.old) self.old (K.written sink.new) (K.faults sink.new)) }
    {
        if self.held == 0 {
            return Ok(());
        }
        send(&self.room[..self.held], sink)?;
        self.held = 0;
        Ok(())
    }

    /// Writes a reply, or lets it wait behind those that do. It is written only where none waits.
    pub fn add<C: LineServer, K: Sink>(
        &mut self,
        reply: &C::Reply,
        waits: bool,
        sink: &mut K,
    ) -> Result<(), Failed>
        requires { (waits ≡ true) ⊎ (self.old ≡ []) }
        ensures sends { Sends result (K.written sink.old) (K.faults sink.old) self.old (C.protocol.text reply.now) (K.written sink.new) (K.faults sink.new) self.new }
        ensures none { OnOk result ((waits ≡ true) ⊎ (self.new ≡ [])) }
    {
        if waits {
            return self.put::<C, K>(reply, sink);
        }
        self.write::<C, K>(reply, sink)
    }

    /// Lets a reply wait behind those that do. Where the room is full, it writes.
    fn put<C: LineServer, K: Sink>(&mut self, reply: &C::Reply, sink: &mut K) -> Result<(), Failed>
        ensures { Sends result (K.written sink.old) (K.faults sink.old) self.old (C.protocol.text reply.now) (K.written sink.new) (K.faults sink.new) self.new }
    {
        self.held = C::put_reply(reply, self.room.as_mut_slice(), self.held, sink)?;
        Ok(())
    }

    /// Writes a reply, where none waits.
    fn write<C: LineServer, K: Sink>(
        &mut self,
        reply: &C::Reply,
        sink: &mut K,
    ) -> Result<(), Failed>
        requires { self.old ≡ [] }
        ensures sends { Sends result (K.written sink.old) (K.faults sink.old) [] (C.protocol.text reply.now) (K.written sink.new) (K.faults sink.new) [] }
        ensures none { self.new ≡ [] }
    {
        C::write_reply(reply, self.room.as_mut_slice(), sink)
    }
}
