//! Tables of volumes: words are changed, and then the volume is looked at by `volume_check` and by the plain check.

use crate::plain_check::first_broken;
use crate::same::same;
use crate::volumes::{BLOCKS, Put, TestVolume};
use std::alloc::{AllocError, Global};
use std::process::Abort;
use std::test::Fail;
use volume_check::CheckFail;

/// A step of a table.
#[derive(Clone, Copy, Debug, PartialEq, Eq)]
pub(crate) enum Step {
    /// This word becomes so.
    Word(u32, u16, u64),
    /// This rule is the first that fails, with this block. The words become what they were.
    Fails(u8, u64),
    /// No rule fails. The words become what they were.
    Sound,
}

use Step::{Fails, Sound, Word};

/// What looking at the volume tells. An answer that tells no rule comes as rule 0.
pub(crate) fn told(alloc: Global, v: &mut TestVolume) -> Step {
    match v.look(alloc) {
        Ok(_) => Sound,
        Err(CheckFail::BadVolume(rule, b)) => Fails(rule, u64::from(b.0)),
        Err(_) => Fails(0, 0),
    }
}

/// What the plain check tells of it.
pub(crate) fn plainly_told(alloc: Global, v: &TestVolume) -> Result<Step, AllocError> {
    match first_broken(alloc, v.words(), u64::from(BLOCKS))? {
        Some((rule, b)) => Ok(Fails(rule, b)),
        None => Ok(Sound),
    }
}

/// Looks at the volumes of a table, in both ways.
pub(crate) fn look_at_all(
    rt: &impl Abort,
    alloc: Global,
    table: &str,
    steps: &[Step],
) -> Result<(), Fail> {
    let mut v = TestVolume::new(alloc)?;
    let mut old = Vec::new(alloc);
    for (row, step) in steps.iter().enumerate() {
        match *step {
            Word(b, w, value) => old.push(v.put(Put(b, w, value))?)?,
            due => {
                same(rt, table, row, &told(alloc, &mut v), &due);
                same(rt, "plain check", row, &plainly_told(alloc, &v)?, &due);
                v.put_back(&old)?;
                old.clear();
            }
        }
    }
    Ok(())
}
