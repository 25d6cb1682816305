//! What calls on files and on regions came to, as replies.

ghost use Rattle.std.specs.Prelude.{◌≡◌, ℕ, IsErr, IsErrOf, Ok, Err};
ghost use Rattle.request_ends.specs.Ends.{SaysBytes, SaysCount, SaysDone, SaysIno, SaysNames, SaysStat};
ghost use Rattle.request_ends.specs.Failures.{Faulted};
ghost use Rattle.rio_core.specs.CallEnds.{TellsAs, begin_told, get_told, reply_to, told};
ghost use Rattle.rio_core.specs.Replying.{Replies, RepliesFail, TellsTxns};
ghost use Rattle.rio_core.specs.Serving.{TellsFault};
ghost use Rattle.rio_requests.specs.declared.reply.Reply.TheVariants.{Ok as Done};
ghost use Rattle.vista_region.specs.Ends.{IsFault, says_bytes, says_done, says_number};
ghost use Rattle.vista_region.specs.declared.failures.TxnFail.TheVariants.{Fault as TxnFault};

use name_list::NameList;
use request_ends::FileFail;
use rio_base::{Ino, InoList, Octets, Stopped};
use rio_model::Refusal;
use rio_requests::Reply;
use std::alloc::AllocError;
use vista_region::{BeginFail, GetFail, TxnFail};

// ---- on files

/// The reply to a request that failed. A stopped machine gives none.
pub fn fail_reply(fail: FileFail) -> Result<Reply, Stopped>
    ensures tells { RepliesFail fail result }
    ensures fault { TellsFault result → Faulted {T = ℕ} (Err fail) }
    ensures stop { IsErr result → fail ≡ FileFail.Stopped }
    ensures stopped { fail ≡ FileFail.Stopped → IsErr result }
{
    match fail {
        FileFail::Refused(number) => Ok(Reply::Err(number)),
        FileFail::Fault(done) => Ok(Reply::Fault(done)),
        FileFail::Memory => Ok(Reply::Err(Refusal::NoMemory as u8)),
        FileFail::Stopped => Err(Stopped),
    }
}

/// The reply to a request that makes a node.
pub fn ino_reply(answer: Result<Ino, FileFail>) -> Result<Reply, Stopped>
    ensures { Replies SaysIno answer result }
{
    match answer {
        Ok(i) => Ok(Reply::Number(i.0 as u64)),
        Err(fail) => fail_reply(fail),
    }
}

/// The reply to a request that counts bytes.
pub fn count_reply(answer: Result<u64, FileFail>) -> Result<Reply, Stopped>
    ensures { Replies SaysCount answer result }
{
    match answer {
        Ok(count) => Ok(Reply::Number(count)),
        Err(fail) => fail_reply(fail),
    }
}

/// The reply to a request that has nothing to tell.
pub fn done_reply(answer: Result<(), FileFail>) -> Result<Reply, Stopped>
    ensures { Replies SaysDone answer result }
{
    match answer {
        Ok(()) => Ok(Reply::Ok),
        Err(fail) => fail_reply(fail),
    }
}

/// The reply to a request for bytes.
pub fn bytes_reply(answer: Result<Octets, FileFail>) -> Result<Reply, Stopped>
    ensures { Replies SaysBytes answer result }
{
    match answer {
        Ok(bytes) => Ok(Reply::Bytes(bytes)),
        Err(fail) => fail_reply(fail),
    }
}

/// The reply to a request for what stands at a path.
pub fn stat_reply(answer: Result<(Ino, u8, u64), FileFail>) -> Result<Reply, Stopped>
    ensures { Replies SaysStat answer result }
{
    match answer {
        Ok((ino, kind, size)) => Ok(Reply::Stat { ino, kind, size }),
        Err(fail) => fail_reply(fail),
    }
}

/// The reply to a request for names.
pub fn names_reply(answer: Result<NameList, FileFail>) -> Result<Reply, Stopped>
    ensures { Replies SaysNames answer result }
{
    match answer {
        Ok(names) => Ok(Reply::Names(names)),
        Err(fail) => fail_reply(fail),
    }
}

// ---- on regions

/// The reply to a request for the open transactions.
pub fn txns_reply(list: Result<InoList, AllocError>) -> Reply
    ensures { TellsTxns list result }
{
    match list {
        Ok(inos) => Reply::Inos(inos),
        Err(_) => Reply::Err(Refusal::NoMemory as u8),
    }
}

/// The reply to a call on a transaction that failed. A stopped machine gives none.
fn txn_fail_reply(fail: TxnFail) -> Result<Reply, Stopped>
    ensures tells { TellsAs (reply_to fail) result }
    ensures fault { TellsFault result → (k : ℕ) × (fail ≡ TxnFault k) }
    ensures stop { IsErr result → fail ≡ TxnFail.Stopped }
    ensures stopped { fail ≡ TxnFail.Stopped → IsErr result }
{
    match fail {
        TxnFail::NoTransaction => Ok(Reply::Err(Refusal::NoTransaction as u8)),
        TxnFail::NotCovered => Ok(Reply::Err(Refusal::NotCovered as u8)),
        TxnFail::UndoFull => Ok(Reply::Err(Refusal::UndoFull as u8)),
        TxnFail::HeapFull => Ok(Reply::Err(Refusal::HeapFull as u8)),
        TxnFail::NotBlock => Ok(Reply::Err(Refusal::NotBlock as u8)),
        TxnFail::OutOfRange => Ok(Reply::Err(Refusal::OutOfRange as u8)),
        TxnFail::NotAligned => Ok(Reply::Err(Refusal::NotAligned as u8)),
        TxnFail::Doomed => Ok(Reply::Err(Refusal::Doomed as u8)),
        TxnFail::Fault(done) => Ok(Reply::Fault(done)),
        TxnFail::Stopped => Err(Stopped),
    }
}

/// The reply to a call on a transaction that has nothing to tell.
pub fn txn_reply(answer: Result<(), TxnFail>) -> Result<Reply, Stopped>
    ensures tells { TellsAs (told says_done answer) result }
    ensures fault { TellsFault result → IsFault answer }
    ensures stop { IsErr result → IsErrOf answer TxnFail.Stopped }
    ensures stopped { IsErrOf answer TxnFail.Stopped → IsErr result }
{
    match answer {
        Ok(()) => Ok(Reply::Ok),
        Err(fail) => txn_fail_reply(fail),
    }
}

/// The reply to a call on a transaction that counts.
pub fn number_reply(answer: Result<u64, TxnFail>) -> Result<Reply, Stopped>
    ensures tells { TellsAs (told says_number answer) result }
    ensures fault { TellsFault result → IsFault answer }
    ensures stop { IsErr result → IsErrOf answer TxnFail.Stopped }
    ensures stopped { IsErrOf answer TxnFail.Stopped → IsErr result }
{
    match answer {
        Ok(n) => Ok(Reply::Number(n)),
        Err(fail) => txn_fail_reply(fail),
    }
}

/// The reply to a call that reads a region's bytes.
pub fn get_reply(answer: Result<Octets, GetFail>) -> Result<Reply, Stopped>
    ensures tells { TellsAs (get_told says_bytes answer) result }
    ensures fault { TellsFault result → IsErrOf answer GetFail.Fault }
    ensures stop { IsErr result → IsErrOf answer GetFail.Stopped }
    ensures stopped { IsErrOf answer GetFail.Stopped → IsErr result }
{
    match answer {
        Ok(bytes) => Ok(Reply::Bytes(bytes)),
        Err(GetFail::OutOfRange) => Ok(Reply::Err(Refusal::OutOfRange as u8)),
        Err(GetFail::Doomed) => Ok(Reply::Err(Refusal::Doomed as u8)),
        Err(GetFail::Memory) => Ok(Reply::Err(Refusal::NoMemory as u8)),
        Err(GetFail::Fault) => Ok(Reply::Fault(0)),
        Err(GetFail::Stopped) => Err(Stopped),
    }
}

/// The reply to a call that begins a transaction.
pub fn begin_reply(answer: Result<(), BeginFail>) -> Reply
    ensures tells { TellsAs (begin_told Done answer) (Ok result) }
    ensures fault { TellsFault (Ok result) → ⊥ }
{
    match answer {
        Ok(()) => Reply::Ok,
        Err(BeginFail::Busy) => Reply::Err(Refusal::Busy as u8),
        Err(BeginFail::Memory) => Reply::Err(Refusal::NoMemory as u8),
    }
}
