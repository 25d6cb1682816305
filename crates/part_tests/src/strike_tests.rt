//! Tests of wild stores on each word of a board, now and armed.

use crate::same::same;
use crate::wild_boards::{SCRATCH, STORED, Struck, WILD, WORDS, after_armed, after_wild};
use rio_base::{Wild, WordAt};
use std::alloc::{AllocError, Global};
use std::process::Abort;
use std::test::Fail;

/// What a wild store to this place has to come to now, while this page is open.
fn due_now(at: u32, open: Option<u32>) -> Struck {
    let met = if SCRATCH <= at {
        Wild::Changed
    } else if open == Some(at / 512) {
        Wild::Spared
    } else {
        Wild::Trapped
    };
    let changes = met == Wild::Changed;
    let traps = met == Wild::Trapped;
    Struck {
        met: Some(met),
        stored: None,
        word: if changes { WILD } else { 0 },
        changed: if changes { 1 } else { 0 },
        stopped: traps,
        trapped: if traps { Some(WordAt(at)) } else { None },
        spared: if met == Wild::Spared { 1 } else { 0 },
    }
}

/// What an armed store to this place has to come to, which falls before the store to the first word of the open page.
fn due_before_store(at: u32, page: u32) -> Struck {
    let scratch = SCRATCH <= at;
    let open = at / 512 == page;
    let traps = !scratch && !open;
    let word = if scratch {
        WILD
    } else if open && at % 512 == 0 {
        STORED
    } else {
        0
    };
    Struck {
        met: None,
        stored: Some(!traps),
        word,
        changed: if traps {
            0
        } else if scratch {
            2
        } else {
            1
        },
        stopped: traps,
        trapped: if traps { Some(WordAt(at)) } else { None },
        spared: if open { 1 } else { 0 },
    }
}

/// Strikes each word of a board on which this page is open, or none.
fn strike_each(rt: &impl Abort, alloc: Global, open: Option<u32>) -> Result<(), AllocError> {
    for at in 0..WORDS {
        let came = after_wild(alloc, at, open)?;
        same(rt, "wild stores", at as usize, &came, &due_now(at, open));
    }
    Ok(())
}

/// Arms a store to each word of a board, and stores the first word of this page.
fn arm_each(rt: &impl Abort, alloc: Global, page: u32) -> Result<(), AllocError> {
    for at in 0..WORDS {
        let came = after_armed(alloc, at, page)?;
        let due = due_before_store(at, page);
        same(rt, "armed stores", at as usize, &came, &due);
    }
    Ok(())
}

#[test]
fn each_word_is_met_as_its_page_is_while_none_is_open(rt: HostRuntime) -> Result<(), Fail> {
    strike_each(&rt, rt.alloc(), None)?;
    Ok(())
}

#[test]
fn each_word_is_met_as_its_page_is_while_one_is_open(rt: HostRuntime) -> Result<(), Fail> {
    strike_each(&rt, rt.alloc(), Some(0))?;
    strike_each(&rt, rt.alloc(), Some(1))?;
    Ok(())
}

#[test]
fn each_word_is_met_before_a_step_that_it_is_armed_for(rt: HostRuntime) -> Result<(), Fail> {
    arm_each(&rt, rt.alloc(), 0)?;
    arm_each(&rt, rt.alloc(), 1)?;
    Ok(())
}
