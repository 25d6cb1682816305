//! What the generator draws.

use crate::request_text::request_text;
use std::alloc::{AllocError, Global};
use test_scripts::number;
use work_gen::Gen;

/// What a line of the script draws, as text: nothing where its word draws nothing.
pub fn drawn(alloc: Global, draws: &mut Gen, word: &str, rest: &str) -> Result<String, AllocError> {
    match word {
        "seed" => {
            *draws = Gen::new(u32::try_from(number(rest)?).unwrap_or(0));
            Ok(String::new(alloc))
        }
        "draws" => drawn_numbers(alloc, draws, number(rest)?),
        "requests" => drawn_requests(alloc, draws, number(rest)?),
        "ends" => drawn_ends(alloc, draws, number(rest)?),
        _ => Ok(String::new(alloc)),
    }
}

/// So many numbers, on one line.
fn drawn_numbers(alloc: Global, draws: &mut Gen, count: u64) -> Result<String, AllocError> {
    let mut told = String::from_str(alloc, "   ")?;
    for _ in 0..count {
        told.push_str(format!(in alloc; " {}", draws.draw())?.as_str())?;
    }
    told.push_str("\n")?;
    Ok(told)
}

/// So many requests, a line each.
fn drawn_requests(alloc: Global, draws: &mut Gen, count: u64) -> Result<String, AllocError> {
    let mut told = String::new(alloc);
    for _ in 0..count {
        told.push_str("    ")?;
        told.push_str(drawn_text(alloc, draws)?.as_str())?;
        told.push_str("\n")?;
    }
    Ok(told)
}

/// The next request as text. It is let go here, where nothing else lives.
fn drawn_text(alloc: Global, draws: &mut Gen) -> Result<String, AllocError> {
    let request = draws.next_request(alloc)?;
    request_text(alloc, &request)
}

/// The ends of so many boots, a line each.
fn drawn_ends(alloc: Global, draws: &mut Gen, count: u64) -> Result<String, AllocError> {
    let mut told = String::new(alloc);
    for _ in 0..count {
        let boot = draws.next_boot();
        let line = format!(in alloc;
            "    stop {} arm {} at {} choice {:?}\n",
            boot.stop_after, boot.arm_step, boot.arm_at, boot.choice
        )?;
        told.push_str(line.as_str())?;
    }
    Ok(told)
}
