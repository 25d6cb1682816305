//! The calls of tests, after which the files of a test are there, read and standing.

ghost use Rattle.std.specs.Prelude.{◌≡◌, ◌↔◌, ◌⊎◌, IsErr, IsErrOf, OnOk};
ghost use Rattle.file_pages_tests.specs.TestFiles.{FilesReady, FilesStand, IsTestFile};

use file_pages::{read, resize, write};
use inode_table::LARGEST_SIZE;
use node_pages::{SizeFail, WriteFail, blocks_of};
use rio_base::{BlockList, Ino, Octets, ReadFail, Stopped, Volume, VolumeShape};
use std::alloc::Global;

/// What a call on a file answers where it is not stopped.
#[derive(Clone, Copy, PartialEq, Eq)]
pub(crate) enum Answer {
    /// It is done. A write says how many bytes it wrote.
    Done(u64),
    NoSpace,
    TooLarge,
    /// The disk failed after so many bytes.
    Fault(u64),
    /// No memory was left, which no row asks for.
    Memory,
}

/// A call on a file.
#[derive(Clone, Copy)]
pub(crate) enum Call {
    /// So many bytes of one value are written from an offset on.
    Write(u64, usize, u8),
    Resize(u64),
}

/// Writes bytes to a file of a test.
fn write_file<V: Volume>(
    alloc: Global,
    v: &mut V,
    shape: &VolumeShape,
    i: Ino,
    off: u64,
    bytes: &[u8],
) -> Result<u64, WriteFail>
    requires sound { V.sound v.old }
    requires files { FilesReady shape.now (V.seen v.old) (V.kept v.old) }
    requires file { IsTestFile i.0 }
    ensures files { IsErrOf result WriteFail.Stopped ⊎ FilesReady shape.now (V.seen v.new) (V.kept v.new) }
    ensures stand { FilesStand shape.now (V.seen v.new) (V.kept v.new) }
    ensures sound { V.sound v.new }
{
    write(alloc, v, shape, i, off, bytes)
}

/// Gives a file of a test another size.
fn resize_file<V: Volume>(
    alloc: Global,
    v: &mut V,
    shape: &VolumeShape,
    i: Ino,
    len: u64,
) -> Result<(), SizeFail>
    requires sound { V.sound v.old }
    requires files { FilesReady shape.now (V.seen v.old) (V.kept v.old) }
    requires file { IsTestFile i.0 }
    ensures files { IsErrOf result SizeFail.Stopped ⊎ FilesReady shape.now (V.seen v.new) (V.kept v.new) }
    ensures stand { FilesStand shape.now (V.seen v.new) (V.kept v.new) }
    ensures sound { V.sound v.new }
{
    resize(alloc, v, shape, i, len)
}

/// What a write answers; or the stop that came in its place.
fn written(came: Result<u64, WriteFail>) -> Result<Answer, Stopped>
    ensures { IsErr result ↔ IsErrOf came WriteFail.Stopped }
{
    match came {
        Ok(n) => Ok(Answer::Done(n)),
        Err(fail) => not_written(fail),
    }
}

/// What a write that failed answers; or the stop that came in its place.
fn not_written(fail: WriteFail) -> Result<Answer, Stopped>
    ensures { IsErr result ↔ (fail ≡ WriteFail.Stopped) }
{
    match fail {
        WriteFail::NoSpace => Ok(Answer::NoSpace),
        WriteFail::TooLarge => Ok(Answer::TooLarge),
        WriteFail::Fault { done } => Ok(Answer::Fault(done)),
        WriteFail::Stopped => Err(Stopped),
        WriteFail::Memory => Ok(Answer::Memory),
    }
}

/// What a change of size answers; or the stop that came in its place.
fn resized(came: Result<(), SizeFail>) -> Result<Answer, Stopped>
    ensures { IsErr result ↔ IsErrOf came SizeFail.Stopped }
{
    match came {
        Ok(()) => Ok(Answer::Done(0)),
        Err(fail) => not_resized(fail),
    }
}

/// What a change of size that failed answers; or the stop that came in its place.
fn not_resized(fail: SizeFail) -> Result<Answer, Stopped>
    ensures { IsErr result ↔ (fail ≡ SizeFail.Stopped) }
{
    match fail {
        SizeFail::NoSpace => Ok(Answer::NoSpace),
        SizeFail::TooLarge => Ok(Answer::TooLarge),
        SizeFail::Fault => Ok(Answer::Fault(0)),
        SizeFail::Stopped => Err(Stopped),
        SizeFail::Memory => Ok(Answer::Memory),
    }
}

/// Writes bytes to a file.
pub(crate) fn put<V: Volume>(
    alloc: Global,
    v: &mut V,
    shape: &VolumeShape,
    i: Ino,
    off: u64,
    bytes: &[u8],
) -> Result<Answer, Stopped>
    requires sound { V.sound v.old }
    requires files { FilesReady shape.now (V.seen v.old) (V.kept v.old) }
    requires file { IsTestFile i.0 }
    ensures files { OnOk result (FilesReady shape.now (V.seen v.new) (V.kept v.new)) }
    ensures stand { FilesStand shape.now (V.seen v.new) (V.kept v.new) }
    ensures sound { V.sound v.new }
{
    let came = write_file(alloc, v, shape, i, off, bytes);
    written(came)
}

/// Gives a file another size.
pub(crate) fn set_size<V: Volume>(
    alloc: Global,
    v: &mut V,
    shape: &VolumeShape,
    i: Ino,
    len: u64,
) -> Result<Answer, Stopped>
    requires sound { V.sound v.old }
    requires files { FilesReady shape.now (V.seen v.old) (V.kept v.old) }
    requires file { IsTestFile i.0 }
    ensures files { OnOk result (FilesReady shape.now (V.seen v.new) (V.kept v.new)) }
    ensures stand { FilesStand shape.now (V.seen v.new) (V.kept v.new) }
    ensures sound { V.sound v.new }
{
    let came = resize_file(alloc, v, shape, i, len);
    resized(came)
}

/// Makes a call on a file.
pub(crate) fn make<V: Volume>(
    alloc: Global,
    v: &mut V,
    shape: &VolumeShape,
    i: Ino,
    call: Call,
) -> Result<Answer, Stopped>
    requires sound { V.sound v.old }
    requires files { FilesReady shape.now (V.seen v.old) (V.kept v.old) }
    requires file { IsTestFile i.0 }
    ensures files { OnOk result (FilesReady shape.now (V.seen v.new) (V.kept v.new)) }
    ensures stand { FilesStand shape.now (V.seen v.new) (V.kept v.new) }
    ensures sound { V.sound v.new }
{
    match call {
        Call::Write(off, count, byte) => match vec![in alloc; byte; count] {
            Ok(bytes) => put(alloc, v, shape, i, off, &bytes),
            Err(_none) => Ok(Answer::Memory),
        },
        Call::Resize(len) => set_size(alloc, v, shape, i, len),
    }
}

/// Bytes of a file, `len` from `off` on or as many as it has.
pub(crate) fn some_of<V: Volume>(
    alloc: Global,
    v: &mut V,
    shape: &VolumeShape,
    i: Ino,
    off: u64,
    len: u64,
) -> Result<Octets, ReadFail>
    requires sound { V.sound v.old }
    requires files { FilesReady shape.now (V.seen v.old) (V.kept v.old) }
    requires file { IsTestFile i.0 }
    ensures files { FilesReady shape.now (V.seen v.new) (V.kept v.new) }
    ensures sound { V.sound v.new }
{
    read(alloc, v, shape, i, off, len)
}

/// Whether just these bytes come where `len` are read from `off` on.
pub(crate) fn reads<V: Volume>(
    alloc: Global,
    v: &mut V,
    shape: &VolumeShape,
    i: Ino,
    off: u64,
    len: u64,
    due: &[u8],
) -> bool
    requires sound { V.sound v.old }
    requires files { FilesReady shape.now (V.seen v.old) (V.kept v.old) }
    requires file { IsTestFile i.0 }
    ensures files { FilesReady shape.now (V.seen v.new) (V.kept v.new) }
    ensures sound { V.sound v.new }
{
    match some_of(alloc, v, shape, i, off, len) {
        Ok(bytes) => bytes.as_slice() == due,
        Err(_fail) => false,
    }
}

/// Whether a file has so many bytes.
pub(crate) fn has_len<V: Volume>(
    alloc: Global,
    v: &mut V,
    shape: &VolumeShape,
    i: Ino,
    due: usize,
) -> bool
    requires sound { V.sound v.old }
    requires files { FilesReady shape.now (V.seen v.old) (V.kept v.old) }
    requires file { IsTestFile i.0 }
    ensures files { FilesReady shape.now (V.seen v.new) (V.kept v.new) }
    ensures sound { V.sound v.new }
{
    match some_of(alloc, v, shape, i, 0, LARGEST_SIZE) {
        Ok(bytes) => bytes.as_slice().len() == due,
        Err(_fail) => false,
    }
}

/// All blocks of a file.
fn blocks_in<V: Volume>(
    alloc: Global,
    v: &mut V,
    shape: &VolumeShape,
    i: Ino,
) -> Result<BlockList, ReadFail>
    requires sound { V.sound v.old }
    requires files { FilesReady shape.now (V.seen v.old) (V.kept v.old) }
    requires file { IsTestFile i.0 }
    ensures files { FilesReady shape.now (V.seen v.new) (V.kept v.new) }
    ensures sound { V.sound v.new }
{
    blocks_of(alloc, v, shape, i)
}

/// Whether a file has so many blocks.
pub(crate) fn has_blocks<V: Volume>(
    alloc: Global,
    v: &mut V,
    shape: &VolumeShape,
    i: Ino,
    due: usize,
) -> bool
    requires sound { V.sound v.old }
    requires files { FilesReady shape.now (V.seen v.old) (V.kept v.old) }
    requires file { IsTestFile i.0 }
    ensures files { FilesReady shape.now (V.seen v.new) (V.kept v.new) }
    ensures sound { V.sound v.new }
{
    match blocks_in(alloc, v, shape, i) {
        Ok(blocks) => blocks.as_slice().len() == due,
        Err(_fail) => false,
    }
}
