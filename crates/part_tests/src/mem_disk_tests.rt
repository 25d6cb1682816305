//! What no clause says of the disk in memory: that its calls succeed.

ghost use Rattle.std.specs.Prelude.{◌≡◌, ◌<◌, IfOk, length};
ghost use Rattle.block_disk.specs.MemDisks.{state_of};

use crate::same::same;
use block_disk::{DiskChoice, MemDisk};
use rio_base::{Block, DiskBlocks, Failed};
use std::alloc::{AllocError, Global};
use std::process::Abort;

/// One of the two blocks of a disk.
#[derive(Clone, Copy)]
enum At {
    First,
    Second,
}

impl At {
    /// Its block.
    fn block(self) -> Block
        ensures { result.0 < 2 }
    {
        match self {
            At::First => Block(0),
            At::Second => Block(1),
        }
    }
}

/// A call of a disk of two blocks.
#[derive(Clone, Copy)]
enum Call {
    /// Writes a block of words that are all this one.
    Write(At, u64),
    Read(At),
    Sync,
    Tear(At),
    /// The call of this number from now fails; with 0 it is not made.
    FailCall(u64),
    FailReads(At, u64),
    DropFails,
    Crash(DiskChoice),
}

/// What it answers. Of a block that is read: the first word, those on both sides of the middle, and the last.
#[derive(Debug, Drop, PartialEq)]
enum Said {
    Done,
    Failed,
    Words([u64; 4]),
}

/// The answer of a call that answers nothing else.
fn done(answer: Result<(), Failed>) -> Said {
    match answer {
        Ok(()) => Said::Done,
        Err(Failed) => Said::Failed,
    }
}

/// Writes a block of words that are all this one. `room` has the size of a block.
fn write(disk: &mut MemDisk, room: &mut Vec<u64>, at: At, word: u64) -> Said
    requires blocks { length (state_of disk.old).blocks ≡ 2 }
    requires room { length room.old.items ≡ 512 }
    ensures blocks { length (state_of disk.new).blocks ≡ 2 }
    ensures room { length room.new.items ≡ 512 }
{
    room.as_mut_slice().fill(word);
    done(disk.write(at.block(), room))
}

/// Reads a block over 9s. `room` has the size of a block.
fn read(disk: &mut MemDisk, room: &mut Vec<u64>, at: At) -> Said
    requires blocks { length (state_of disk.old).blocks ≡ 2 }
    requires room { length room.old.items ≡ 512 }
    ensures blocks { length (state_of disk.new).blocks ≡ 2 }
    ensures room { length room.new.items ≡ 512 }
{
    room.as_mut_slice().fill(9);
    match disk.read(at.block(), room) {
        Ok(()) => Said::Words([room[0], room[255], room[256], room[511]]),
        Err(Failed) => Said::Failed,
    }
}

/// Makes a call.
fn make(disk: &mut MemDisk, room: &mut Vec<u64>, call: Call) -> Result<Said, AllocError>
    requires blocks { length (state_of disk.old).blocks ≡ 2 }
    requires room { length room.old.items ≡ 512 }
    ensures blocks { length (state_of disk.new).blocks ≡ 2 }
    ensures room { length room.new.items ≡ 512 }
{
    match call {
        Call::Write(at, word) => return Ok(write(disk, room, at, word)),
        Call::Read(at) => return Ok(read(disk, room, at)),
        Call::Sync => return Ok(done(disk.sync())),
        Call::Tear(at) => disk.tear(at.block()),
        Call::FailCall(n) => {
            if 0 < n {
                disk.fail_call(n)?;
            }
        }
        Call::FailReads(at, n) => disk.fail_reads(at.block(), n),
        Call::DropFails => disk.drop_fails(),
        Call::Crash(choice) => disk.after_crash(choice),
    }
    Ok(Said::Done)
}

/// A call and its answer.
type Row = (Call, Said);

/// Makes calls, of which each must answer as its row says.
fn make_all(
    rt: &impl Abort,
    table: &str,
    disk: &mut MemDisk,
    room: &mut Vec<u64>,
    rows: &[Row],
) -> Result<(), AllocError>
    requires blocks { length (state_of disk.old).blocks ≡ 2 }
    requires room { length room.old.items ≡ 512 }
    ensures blocks { length (state_of disk.new).blocks ≡ 2 }
    ensures room { length room.new.items ≡ 512 }
{
    for row in 0..rows.len() {
        let came = make(disk, room, rows[row].0)?;
        same(rt, table, row, &came, &rows[row].1);
    }
    Ok(())
}

/// Makes calls on a disk, with a room of their own.
fn make_on(
    rt: &impl Abort,
    alloc: Global,
    table: &str,
    disk: &mut MemDisk,
    rows: &[Row],
) -> Result<(), AllocError>
    requires { length (state_of disk.old).blocks ≡ 2 }
{
    let mut room = vec![in alloc; 9; 512]?;
    make_all(rt, table, disk, &mut room, rows)
}

/// Makes calls on a disk of their own, of two blocks of zeros.
fn make_anew(rt: &impl Abort, alloc: Global, table: &str, rows: &[Row]) -> Result<(), AllocError> {
    let mut disk = MemDisk::new(alloc, 2)?;
    make_on(rt, alloc, table, &mut disk, rows)
}

/// Tables of calls, each on a disk of its own.
static TABLES: [(&str, &[Row]); 12] = [
    (
        "a new disk reads as zeros",
        &[(Call::Read(At::Second), Said::Words([0, 0, 0, 0]))],
    ),
    (
        "a block reads as it was written",
        &[
            (Call::Write(At::Second, 7), Said::Done),
            (Call::Read(At::Second), Said::Words([7, 7, 7, 7])),
            (Call::Sync, Said::Done),
            (Call::Read(At::Second), Said::Words([7, 7, 7, 7])),
            (Call::Read(At::First), Said::Words([0, 0, 0, 0])),
        ],
    ),
    (
        "calls fail where they are to fail",
        &[
            (Call::FailCall(2), Said::Done),
            (Call::FailCall(3), Said::Done),
            (Call::Sync, Said::Done),
            (Call::Write(At::First, 7), Said::Failed),
            (Call::Sync, Said::Failed),
            (Call::Sync, Said::Done),
        ],
    ),
    (
        "reads of one block fail",
        &[
            (Call::FailReads(At::First, 9), Said::Done),
            (Call::FailReads(At::Second, 2), Said::Done),
            (Call::Read(At::Second), Said::Failed),
            (Call::Read(At::First), Said::Words([0, 0, 0, 0])),
            (Call::Read(At::Second), Said::Failed),
            (Call::Read(At::Second), Said::Words([0, 0, 0, 0])),
        ],
    ),
    (
        "calls that were to fail are dropped",
        &[
            (Call::FailCall(1), Said::Done),
            (Call::FailCall(2), Said::Done),
            (Call::FailReads(At::Second, 2), Said::Done),
            (Call::DropFails, Said::Done),
            (Call::Read(At::Second), Said::Words([0, 0, 0, 0])),
            (Call::Sync, Said::Done),
        ],
    ),
    (
        "a write that was cut off reads as before",
        &[
            (Call::Write(At::Second, 7), Said::Done),
            (Call::Sync, Said::Done),
            (Call::Tear(At::Second), Said::Done),
            (Call::Read(At::Second), Said::Words([7, 7, 7, 7])),
            (Call::Crash(DiskChoice::Filled(0xab)), Said::Done),
            (
                Call::Read(At::Second),
                Said::Words([FILLED, FILLED, FILLED, FILLED]),
            ),
        ],
    ),
    (
        "a pending block is left as it read",
        &[
            (Call::Write(At::First, 7), Said::Done),
            (Call::Write(At::Second, 7), Said::Done),
            (Call::Sync, Said::Done),
            (Call::Write(At::Second, 8), Said::Done),
            (Call::Crash(DiskChoice::AsRead), Said::Done),
            (Call::Crash(DiskChoice::Filled(0)), Said::Done),
            (Call::Read(At::First), Said::Words([7, 7, 7, 7])),
            (Call::Read(At::Second), Said::Words([8, 8, 8, 8])),
        ],
    ),
    (
        "a pending block is left as it was synced",
        &[
            (Call::Write(At::First, 7), Said::Done),
            (Call::Write(At::Second, 7), Said::Done),
            (Call::Sync, Said::Done),
            (Call::Write(At::Second, 8), Said::Done),
            (Call::Crash(DiskChoice::AsSynced), Said::Done),
            (Call::Crash(DiskChoice::Filled(0)), Said::Done),
            (Call::Read(At::First), Said::Words([7, 7, 7, 7])),
            (Call::Read(At::Second), Said::Words([7, 7, 7, 7])),
        ],
    ),
    (
        "a pending block is filled",
        &[
            (Call::Write(At::First, 7), Said::Done),
            (Call::Write(At::Second, 7), Said::Done),
            (Call::Sync, Said::Done),
            (Call::Write(At::Second, 8), Said::Done),
            (Call::Crash(DiskChoice::Filled(0xab)), Said::Done),
            (Call::Crash(DiskChoice::Filled(0)), Said::Done),
            (Call::Read(At::First), Said::Words([7, 7, 7, 7])),
            (
                Call::Read(At::Second),
                Said::Words([FILLED, FILLED, FILLED, FILLED]),
            ),
        ],
    ),
    (
        "a failed write leaves half of a block",
        &[
            (Call::Write(At::Second, 7), Said::Done),
            (Call::Sync, Said::Done),
            (Call::FailCall(1), Said::Done),
            (Call::Write(At::Second, 8), Said::Failed),
            (Call::Crash(DiskChoice::AsRead), Said::Done),
            (Call::Read(At::Second), Said::Words([8, 8, 7, 7])),
        ],
    ),
    (
        "a failed write leaves the block that was synced",
        &[
            (Call::Write(At::Second, 7), Said::Done),
            (Call::Sync, Said::Done),
            (Call::FailCall(1), Said::Done),
            (Call::Write(At::Second, 8), Said::Failed),
            (Call::Crash(DiskChoice::AsSynced), Said::Done),
            (Call::Read(At::Second), Said::Words([7, 7, 7, 7])),
        ],
    ),
    (
        "a failed write leaves a block that is filled",
        &[
            (Call::Write(At::Second, 7), Said::Done),
            (Call::Sync, Said::Done),
            (Call::FailCall(1), Said::Done),
            (Call::Write(At::Second, 8), Said::Failed),
            (Call::Crash(DiskChoice::Filled(0)), Said::Done),
            (Call::Read(At::Second), Said::Words([0, 0, 0, 0])),
        ],
    ),
];

/// A word of 0xab bytes.
const FILLED: u64 = 0xabab_abab_abab_abab;

#[test]
fn calls_answer_as_their_rows_say(rt: HostRuntime) -> Result<(), AllocError> {
    for (table, rows) in TABLES.iter() {
        make_anew(&rt, rt.alloc(), table, rows)?;
    }
    Ok(())
}

#[test]
fn disks_tell_how_many_blocks_they_have(rt: HostRuntime) -> Result<(), AllocError> {
    for blocks in [2, 0] {
        let disk = MemDisk::new(rt.alloc(), blocks)?;
        same(&rt, "blocks", blocks as usize, &disk.count(), &blocks);
    }
    Ok(())
}

/// Words that are their own places: two blocks, and a part of a third.
fn counted(alloc: Global) -> Result<Vec<u64>, AllocError>
    ensures { IfOk result (λ words. length words.items ≡ 1030) }
{
    let mut words = vec![in alloc; 0; 1030]?;
    for (at, word) in words.iter_mut().enumerate() {
        *word = at as u64;
    }
    Ok(words)
}

/// A disk of them.
#[tactic(auto, using(rio_base::proofs::WordBlocks::blocks_many))]
fn counted_disk(alloc: Global) -> Result<MemDisk, AllocError>
    ensures { IfOk result (λ d. length (state_of d).blocks ≡ 2) }
{
    let words = counted(alloc)?;
    MemDisk::from_words(alloc, &words)
}

/// What its two blocks read as.
static COUNTED: [Row; 2] = [
    (Call::Read(At::Second), Said::Words([512, 767, 768, 1023])),
    (Call::Read(At::First), Said::Words([0, 255, 256, 511])),
];

#[test]
fn a_disk_of_words_reads_as_they_stand(rt: HostRuntime) -> Result<(), AllocError> {
    let mut disk = counted_disk(rt.alloc())?;
    same(&rt, "blocks of words", 0, &disk.count(), &2);
    make_on(&rt, rt.alloc(), "words", &mut disk, &COUNTED)
}
