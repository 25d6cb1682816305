//! What a drill's summary counts: boots that stopped, and replies by their kind.

ghost use Rattle.std.specs.Prelude.{◌≡◌, ◌<◌, ◌^◌, count_by, length};
ghost use Rattle.boots.specs.Summaries.{is_ok as ok, is_refusal as refusal, is_stopped as stopped, passing_count, reply_count};

use crate::{BootEnd, BootRun};
use rio_requests::{FAULT_NUMBER, Reply, Request};

/// How many of the boots stopped.
pub fn stopped_boots(runs: &[BootRun]) -> u64
    ensures { result ≡ count_by (λ run. stopped run.end) runs.now }
{
    runs.iter().filter(|run| has_stopped(run)).count() as u64
}

fn has_stopped(run: &BootRun) -> bool
    ensures { result ≡ stopped run.now.end }
{
    matches!(run.end, BootEnd::Stopped)
}

/// How many replies there are in all boots.
pub fn all_replies(runs: &[BootRun]) -> u64
    requires { reply_count runs.now < 2 ^ 64 }
    ensures { result ≡ reply_count runs.now }
{
    runs.iter().map(|run| replies_in(run)).sum()
}

/// How many requests a boot answered.
fn replies_in(run: &BootRun) -> u64
    ensures { result ≡ length run.now.answered }
{
    run.answered.as_slice().len() as u64
}

/// How many replies begin with `ok`.
pub fn ok_replies(runs: &[BootRun]) -> u64
    requires { passing_count ok runs.now < 2 ^ 64 }
    ensures { result ≡ passing_count ok runs.now }
{
    runs.iter().map(|run| ok_in(run)).sum()
}

/// How many replies of a boot begin with `ok`.
fn ok_in(run: &BootRun) -> u64
    ensures { result ≡ count_by (λ answer. ok answer.1) run.now.answered }
{
    ok_among(run.answered.as_slice())
}

/// How many of these replies begin with `ok`.
fn ok_among(answered: &[(Request, Reply)]) -> u64
    ensures { result ≡ count_by (λ answer. ok answer.1) answered.now }
{
    answered.iter().filter(|answer| is_ok(&answer.1)).count() as u64
}

fn is_ok(reply: &Reply) -> bool
    ensures { result ≡ ok reply.now }
{
    !matches!(reply, Reply::Err(_) | Reply::Fault(_))
}

/// How many replies have this refusal number, which is 30 for a device fault.
pub fn refusals(runs: &[BootRun], number: u8) -> u64
    requires { passing_count (refusal number) runs.now < 2 ^ 64 }
    ensures { result ≡ passing_count (refusal number) runs.now }
{
    runs.iter()
        .map(|run| refusals_in(run.answered.as_slice(), number))
        .sum()
}

/// How many of these replies have this refusal number.
fn refusals_in(answered: &[(Request, Reply)], number: u8) -> u64
    ensures { result ≡ count_by (λ answer. refusal number answer.1) answered.now }
{
    answered
        .iter()
        .filter(|answer| is_refusal(&answer.1, number))
        .count() as u64
}

fn is_refusal(reply: &Reply, number: u8) -> bool
    ensures { result ≡ refusal number reply.now }
{
    match reply {
        Reply::Err(n) => *n == number,
        Reply::Fault(_) => number == FAULT_NUMBER,
        _ => false,
    }
}
