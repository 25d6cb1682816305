//! Tables of calls on boards, each call with what must come of it.

use crate::machines::Mishap;
use crate::rig::{Call, Came, Memory, Rig};
use crate::same::same;
use std::alloc::Global;
use std::process::Abort;

/// A call, and what must come of it.
pub(crate) type Row = (Call, Came);

/// A board: what it is to show, its memory, what befalls it, and the calls on it.
pub(crate) type Case = (&'static str, Memory, Mishap, &'static [Row]);

/// The board of this case, as its calls leave it.
pub(crate) fn check_board(rt: &impl Abort, alloc: Global, case: &Case) -> Rig {
    let (name, memory, mishap, rows) = *case;
    let mut rig = Rig::new(rt, alloc, memory, mishap);
    for k in 0..rows.len() {
        let (call, due) = rows[k];
        same(rt, name, k, &rig.make(call), &due);
    }
    rig
}

/// Goes through the boards of a table.
pub(crate) fn check_each(rt: &impl Abort, alloc: Global, cases: &[Case]) {
    for case in cases.iter() {
        let _rig = check_board(rt, alloc, case);
    }
}
