//! Lines that are made of a core, one after another, beside the plain definition: over a disk whose calls fail, files and regions
//! are after each fault as the definition allows.

ghost use Rattle.std.specs.Prelude.{IfOk};
ghost use Rattle.rio_requests.specs.Requests.{IsRequest};
ghost use Rattle.rio_model.specs.declared.state.State.{State as StateOf};

use crate::beside::{Beside, WalkEnd};
use crate::walks::Run;
use line_loop::LineServer;
use request_codec::parse_line;
use rio_base::{Ino, Machine, Stopped};
use rio_core::{Core, answer_one};
use rio_requests::{Reply, Request};
use std::alloc::{AllocError, Global};
use test_servers::text_of;

/// What answers requests one after another, each while it holds some state.
pub trait AnswersRequests {
    /// It keeps its own rules.
    ghost sound: { Self → Type 0 };

    /// It runs, and this is the state that it serves.
    ghost holds: { Self → StateOf → Type 0 };

    /// Answers a request. After a reply it holds some state again.
    fn answer_to(&mut self, alloc: Global, request: &Request) -> Result<Reply, Stopped>
        requires sound { sound self.old }
        requires holds { (s : StateOf) × holds self.old s }
        requires request { IsRequest request.now }
        ensures sound { sound self.new }
        ensures holds { IfOk result (λ reply. (s : StateOf) × holds self.new s) };
}

impl<M: Machine> AnswersRequests for Core<M> {
    ghost sound = { ⟦<Core<M> as LineServer>⟧.sound };

    ghost holds = { ⟦<Core<M> as LineServer>⟧.holds };

    fn answer_to(&mut self, alloc: Global, request: &Request) -> Result<Reply, Stopped> {
        answer_one(alloc, self, request)
    }
}

/// After how many bytes the request met a fault that this is the reply to.
fn fault_told(reply: &Reply) -> Option<u64> {
    match reply {
        Reply::Fault(done) => Some(*done),
        _ => None,
    }
}

/// Puts the text of a reply behind others.
fn put_text(reply: &Reply, text: &mut Vec<u8>) -> Result<(), AllocError> {
    let told = text_of(*text.allocator(), reply)?;
    text.extend_from_slice(told.as_slice())
}

/// Puts the text of a reply behind others. Answers after how many bytes its request met a fault.
fn take_reply(reply: Reply, text: &mut Vec<u8>) -> Result<Option<u64>, AllocError> {
    match put_text(&reply, text) {
        Ok(()) => Ok(fault_told(&reply)),
        Err(fail) => Err(fail),
    }
}

/// Lets a request go. Where it went behind a call, each of its forms would be one more end of that.
fn let_go(_request: Request) {}

/// Makes a request, and puts the text of its reply behind others. Answers after how many bytes it met a fault.
fn make_request<C: AnswersRequests>(
    core: &mut C,
    request: Request,
    text: &mut Vec<u8>,
) -> Result<Option<u64>, WalkEnd>
    requires sound { C.sound core.old }
    requires holds { (s : StateOf) × C.holds core.old s }
    requires request { IsRequest request }
    ensures sound { C.sound core.new }
    ensures holds { IfOk result (λ done. (s : StateOf) × C.holds core.new s) }
{
    let answer = core.answer_to(*text.allocator(), &request);
    let_go(request);
    let reply = answer?;
    Ok(take_reply(reply, text)?)
}

/// Makes the request of a line. A line that is no request is passed over.
fn ask<C: AnswersRequests>(
    core: &mut C,
    line: &str,
    text: &mut Vec<u8>,
) -> Result<Option<u64>, WalkEnd>
    requires sound { C.sound core.old }
    requires holds { (s : StateOf) × C.holds core.old s }
    ensures sound { C.sound core.new }
    ensures holds { IfOk result (λ done. (s : StateOf) × C.holds core.new s) }
{
    match parse_line(*text.allocator(), line.as_bytes())? {
        Some(request) => make_request(core, request, text),
        None => Ok(None),
    }
}

/// Makes the request of a line, again where it met a fault. Its text is then that of its reply alone.
fn insist<C: AnswersRequests>(core: &mut C, line: &str, text: &mut Vec<u8>) -> Result<(), WalkEnd>
    requires sound { C.sound core.old }
    requires holds { (s : StateOf) × C.holds core.old s }
    ensures sound { C.sound core.new }
    ensures holds { IfOk result (λ done. (s : StateOf) × C.holds core.new s) }
{
    'tries: for _ in 0..9usize {
        text.clear();
        match ask(core, line, text)? {
            Some(_) => {}
            None => return Ok(()),
        }
    }
    Err(WalkEnd::Faults)
}

/// Looks whether a line that changes nothing is answered as the definition has it.
fn read_line<C: AnswersRequests>(
    core: &mut C,
    beside: &mut Beside,
    line: &str,
) -> Result<(), WalkEnd>
    requires sound { C.sound core.old }
    requires holds { (s : StateOf) × C.holds core.old s }
    ensures sound { C.sound core.new }
    ensures holds { IfOk result (λ done. (s : StateOf) × C.holds core.new s) }
{
    insist(core, line, &mut beside.came)?;
    beside.compare(line)?;
    Ok(())
}

/// Looks whether each of such lines is.
fn read_all<C: AnswersRequests>(
    core: &mut C,
    beside: &mut Beside,
    lines: &str,
) -> Result<(), WalkEnd>
    requires sound { C.sound core.old }
    requires holds { (s : StateOf) × C.holds core.old s }
    ensures sound { C.sound core.new }
    ensures holds { IfOk result (λ done. (s : StateOf) × C.holds core.new s) }
{
    for line in lines.lines() {
        read_line(core, beside, line)?;
    }
    Ok(())
}

/// Dooms the transaction of a region where the core refuses to read it.
fn doom<C: AnswersRequests>(core: &mut C, beside: &mut Beside, ino: Ino) -> Result<(), WalkEnd>
    requires sound { C.sound core.old }
    requires holds { (s : StateOf) × C.holds core.old s }
    ensures sound { C.sound core.new }
    ensures holds { IfOk result (λ done. (s : StateOf) × C.holds core.new s) }
{
    insist(core, beside.reading.as_str(), &mut beside.came)?;
    beside.doom_if_refused(ino)?;
    Ok(())
}

/// Dooms the transaction of a line that met a fault and changed no byte, where the core left it to be aborted.
fn follow_doom<C: AnswersRequests>(
    core: &mut C,
    beside: &mut Beside,
    line: &str,
) -> Result<(), WalkEnd>
    requires sound { C.sound core.old }
    requires holds { (s : StateOf) × C.holds core.old s }
    ensures sound { C.sound core.new }
    ensures holds { IfOk result (λ done. (s : StateOf) × C.holds core.new s) }
{
    match beside.region_in_doubt(line)? {
        Some(ino) => doom(core, beside, ino),
        None => Ok(()),
    }
}

/// Follows a line that met a fault after so many bytes, and reads what is to be read then.
fn follow_fault<C: AnswersRequests>(
    core: &mut C,
    beside: &mut Beside,
    line: &str,
    done: u64,
    readings: &str,
) -> Result<(), WalkEnd>
    requires sound { C.sound core.old }
    requires holds { (s : StateOf) × C.holds core.old s }
    ensures sound { C.sound core.new }
    ensures holds { IfOk result (λ done. (s : StateOf) × C.holds core.new s) }
{
    beside.make_part(line, done)?;
    follow_doom(core, beside, line)?;
    read_all(core, beside, readings)
}

/// Makes a line, and looks whether its reply is the definition's, or what is read after a fault as it allows.
fn make<C: AnswersRequests>(
    core: &mut C,
    beside: &mut Beside,
    line: &str,
    readings: &str,
) -> Result<(), WalkEnd>
    requires sound { C.sound core.old }
    requires holds { (s : StateOf) × C.holds core.old s }
    ensures sound { C.sound core.new }
    ensures holds { IfOk result (λ done. (s : StateOf) × C.holds core.new s) }
{
    beside.came.clear();
    match ask(core, line, &mut beside.came)? {
        Some(done) => follow_fault(core, beside, line, done, readings),
        None => {
            beside.compare(line)?;
            Ok(())
        }
    }
}

/// Makes a line, and compares its reply where replies are compared. Else its text is put behind those before it.
fn take_line<C: AnswersRequests>(
    core: &mut C,
    beside: &mut Beside,
    line: &str,
    readings: &str,
) -> Result<(), WalkEnd>
    requires sound { C.sound core.old }
    requires holds { (s : StateOf) × C.holds core.old s }
    ensures sound { C.sound core.new }
    ensures holds { IfOk result (λ done. (s : StateOf) × C.holds core.new s) }
{
    if beside.compares {
        return make(core, beside, line, readings);
    }
    ask(core, line, &mut beside.came)?;
    Ok(())
}

/// Makes the lines of a run of a core that serves a fresh volume, and counts those that were made.
fn walk<C: AnswersRequests>(core: &mut C, beside: &mut Beside, run: &Run) -> Result<(), WalkEnd>
    requires sound { C.sound core.old }
    requires holds { (s : StateOf) × C.holds core.old s }
    ensures sound { C.sound core.new }
{
    for line in run.lines.lines() {
        take_line(core, beside, line, run.readings.as_str())?;
        beside.made = beside.made.saturating_add(1);
    }
    Ok(())
}

/// Makes the lines of a run of such a core, and takes the machine back.
pub fn walked<M: Machine>(core: Core<M>, beside: &mut Beside, run: &Run) -> M
    requires sound { ⟦<Core<M> as LineServer>⟧.sound core }
    requires holds { (s : StateOf) × ⟦<Core<M> as LineServer>⟧.holds core s }
{
    let mut core = core;
    beside.end = walk(&mut core, beside, run);
    core.into_machine()
}
