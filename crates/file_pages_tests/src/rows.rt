//! Tables of calls on the files of a test, each with the answer that must come.

ghost use Rattle.std.specs.Prelude.{OnOk};
ghost use Rattle.file_pages_tests.specs.TestFiles.{FilesReady, IsTestFile};

use crate::calls::{Answer, Call, has_blocks, has_len, make, put, reads};
use crate::compare::all_answered;
use crate::volumes::{FILE, OTHER, Size, shape_of, used_count, with_files};
use rio_base::{Ino, Stopped, Volume, VolumeShape};
use std::alloc::Global;
use std::process::Abort;

/// One of the two files of a test.
#[derive(Clone, Copy)]
pub(crate) enum File {
    First,
    Second,
}

/// A call on a file or its volume, with what must come of it.
#[derive(Clone, Copy)]
pub(crate) enum Row {
    /// Bytes are written from an offset on.
    Write(File, u64, &'static [u8], Answer),
    /// So many bytes of one value are written, or the file gets another size.
    Make(File, Call, Answer),
    /// So many bytes are read from an offset on.
    Read(File, u64, u64, &'static [u8]),
    /// The file has so many bytes.
    Len(File, usize),
    /// The file has so many blocks.
    Blocks(File, usize),
    /// So many blocks of the volume are used.
    Used(u32),
}

/// The node of a file.
fn ino_of(file: File) -> Ino
    ensures { IsTestFile result.0 }
{
    match file {
        File::First => FILE,
        File::Second => OTHER,
    }
}

/// Makes the call of a row, and says whether it answers as it must.
pub(crate) fn answers<V: Volume>(
    alloc: Global,
    v: &mut V,
    shape: &VolumeShape,
    row: Row,
) -> Result<bool, Stopped>
    requires sound { V.sound v.old }
    requires files { FilesReady shape.now (V.seen v.old) (V.kept v.old) }
    ensures files { OnOk result (FilesReady shape.now (V.seen v.new) (V.kept v.new)) }
    ensures sound { V.sound v.new }
{
    match row {
        Row::Write(file, off, bytes, due) => {
            let Ok(came) = put(alloc, v, shape, ino_of(file), off, bytes) else {
                return Err(Stopped);
            };
            Ok(came == due)
        }
        Row::Make(file, call, due) => {
            let Ok(came) = make(alloc, v, shape, ino_of(file), call) else {
                return Err(Stopped);
            };
            Ok(came == due)
        }
        Row::Read(file, off, len, due) => {
            Ok(reads(alloc, v, shape, ino_of(file), off, len, due))
        }
        Row::Len(file, due) => Ok(has_len(alloc, v, shape, ino_of(file), due)),
        Row::Blocks(file, due) => Ok(has_blocks(alloc, v, shape, ino_of(file), due)),
        Row::Used(due) => Ok(used_count(v, shape) == due),
    }
}

/// Makes calls one after the other, up to the first that answers otherwise than it must, or is stopped, and tells which that
/// is, if any.
pub(crate) fn first_other<V: Volume>(
    alloc: Global,
    v: &mut V,
    shape: &VolumeShape,
    rows: &[Row],
) -> Option<usize>
    requires sound { V.sound v.old }
    requires files { FilesReady shape.now (V.seen v.old) (V.kept v.old) }
{
    for k in 0..rows.len() {
        let Ok(true) = answers(alloc, v, shape, rows[k]) else {
            return Some(k);
        };
    }
    None
}

/// Makes the calls of a table on a volume with two files without bytes.
pub(crate) fn check_fresh(
    rt: &impl Abort,
    alloc: Global,
    size: Size,
    table: &'static str,
    rows: &[Row],
) {
    let shape = shape_of(size);
    let mut v = with_files(rt, alloc, &shape);
    all_answered(rt, table, first_other(alloc, &mut v, &shape, rows));
}
