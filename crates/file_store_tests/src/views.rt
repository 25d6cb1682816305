//! Views of regions on volumes in memory, and calls on their words, each of which must answer as its row says.

ghost use Rattle.std.specs.Prelude.{◌≡◌, ◌+◌, ◌≤◌, true, OnOk};
ghost use Rattle.test_objects.specs.ListVolumes.{ListSound, list_kept, list_seen};
ghost use Rattle.rio_model.specs.Heap.{IsSoundRegion};
ghost use Rattle.rio_model.specs.Paths.{IsPath};
ghost use Rattle.rio_model.specs.VolumeReady.{Ready};
ghost use Rattle.region_view.specs.Views.{KeepsInode, OnRegion};
ghost use Rattle.request_ends.specs.Ends.{CanServe};

use crate::asks::Row;
use crate::playing::volume_after;
use file_tree::Memo;
use node_making::stand_at;
use region_view::RegionView;
use request_codec::is_path;
use request_ends::FileFail;
use rio_base::{Ino, RegionWords, RunFail, VolFail};
use std::alloc::Global;
use std::process::Abort;
use test_objects::{FaultyVolume, ListVolume, SHAPE};

/// The text `VISTAREG` as a word.
pub(crate) const MAGIC: u64 = 5_135_601_390_627_014_998;

/// The most words that one call reads.
const MOST_WORDS: usize = 516;

/// A call on the words of a region.
#[derive(Clone, Copy)]
pub(crate) enum Call {
    Len,
    Word(u32),
    /// Reads so many words.
    Read(u32, usize),
    Set(u32, u64),
    SetRun(u32, &'static [u64]),
}

/// What it must answer.
#[derive(Clone, Copy)]
pub(crate) enum Due {
    Done,
    Word(u64),
    Words(&'static [u64]),
    /// A zero at each end, and this word at all places between.
    Between(u64),
    Fault,
    /// A fault after so many words.
    FaultAfter(u32),
    Stopped,
}

/// A view over a fresh volume on which these requests were made, each of which must answer as its row says. It stands on
/// no region yet.
pub(crate) fn view_after(rt: &impl Abort, alloc: Global, rows: &[Row]) -> RegionView<ListVolume>
    ensures sound { ListSound result.v }
    ensures can { CanServe result.shape (list_seen result.v) (list_kept result.v) }
{
    let v = volume_after(rt, alloc, &SHAPE, "before the view", rows);
    RegionView::over(v, SHAPE)
}

/// Makes a view stand on the region at a path, where no name is held.
pub(crate) fn stand_on(view: &mut RegionView<ListVolume>, path: &[u8]) -> Result<Ino, FileFail>
    requires sound { ListSound view.old.v }
    requires can { CanServe view.old.shape (list_seen view.old.v) (list_kept view.old.v) }
    requires path { IsPath path.now }
    ensures on { OnOk result (OnRegion view.new.shape (list_seen view.new.v) (list_kept view.new.v) view.new.ino.0 view.new.words) }
    ensures inode { OnOk result (KeepsInode (list_seen view.new.v).words view.new.ino.0 view.new.inode) }
    ensures shape { view.new.shape ≡ view.old.shape }
    ensures words { (list_seen view.new.v).words ≡ (list_seen view.old.v).words }
    ensures ready { Ready view.new.shape (list_seen view.new.v) (list_kept view.new.v) }
    ensures sound { ListSound view.new.v }
{
    let mut memo = Memo::none();
    stand_at(view, &mut memo, path)
}

/// A view that stands on the region at a path, which must be this node.
pub(crate) fn view_of(
    rt: &impl Abort,
    alloc: Global,
    rows: &[Row],
    path: &[u8],
    due: Ino,
) -> RegionView<ListVolume>
    ensures ready { ⟦<RegionView<ListVolume> as RegionWords>⟧.ready result }
    ensures sound { IsSoundRegion result.words (⟦<RegionView<ListVolume> as RegionWords>⟧.words result) }
{
    let mut view = view_after(rt, alloc, rows);
    if !is_path(path) {
        panic!(rt; "no path");
    }
    let ino = match stand_on(&mut view, path) {
        Ok(ino) => ino,
        Err(_fail) => panic!(rt; "no region"),
    };
    if ino.0 != due.0 {
        panic!(rt; "another region");
    }
    if view.ino.0 != ino.0 {
        panic!(rt; "it stands on another region");
    }
    view
}

/// Goes on with what stands, and stops after so many steps.
pub(crate) fn start_again(view: &mut RegionView<ListVolume>, stop_after: Option<u64>)
    requires ready { ⟦<RegionView<ListVolume> as RegionWords>⟧.ready view.old }
    ensures ready { ⟦<RegionView<ListVolume> as RegionWords>⟧.ready view.new }
    ensures many { view.new.words ≡ view.old.words }
    ensures words { ⟦<RegionView<ListVolume> as RegionWords>⟧.words view.new ≡ ⟦<RegionView<ListVolume> as RegionWords>⟧.words view.old }
{
    view.v.restart(stop_after);
}

/// The region of a view, on a volume whose `n`th call from now fails.
pub(crate) fn failing(view: RegionView<ListVolume>, n: u64) -> RegionView<FaultyVolume>
    requires ready { ⟦<RegionView<ListVolume> as RegionWords>⟧.ready view }
    ensures ready { ⟦<RegionView<FaultyVolume> as RegionWords>⟧.ready result }
    ensures many { result.words ≡ view.words }
{
    let shape = view.shape;
    let ino = view.ino;
    let words = view.words;
    let inode = view.inode;
    RegionView {
        v: FaultyVolume::new(view.into_volume(), n),
        shape,
        ino,
        words,
        inode,
    }
}

fn is_failure(fail: VolFail, due: Due) -> bool {
    match fail {
        VolFail::Fault => matches!(due, Due::Fault),
        VolFail::Stopped => matches!(due, Due::Stopped),
    }
}

fn is_done(answer: Result<(), VolFail>, due: Due) -> bool {
    match answer {
        Ok(()) => matches!(due, Due::Done),
        Err(fail) => is_failure(fail, due),
    }
}

fn is_run(answer: Result<(), RunFail>, due: Due) -> bool {
    match (answer, due) {
        (Ok(()), Due::Done) => true,
        (Err(RunFail::Fault(told)), Due::FaultAfter(count)) => told == count,
        (Err(RunFail::Stopped), Due::Stopped) => true,
        _ => false,
    }
}

fn is_word(answer: Result<u64, VolFail>, due: Due) -> bool {
    match (answer, due) {
        (Ok(word), Due::Word(wanted)) => word == wanted,
        (Err(fail), _) => is_failure(fail, due),
        _ => false,
    }
}

/// Whether a region has so many words from this one on.
fn has_words<R: RegionWords>(r: &R, at: u32, count: usize) -> bool
    ensures { result ≡ true → at + count ≤ R.count r.now }
{
    let len = r.len() as usize;
    if len < at as usize {
        return false;
    }
    count <= len - at as usize
}

/// Whether the first and the last of some words are zeros, and all between them are this word.
fn is_between(words: &[u64], word: u64) -> bool {
    let [first, middle @ .., last] = words else {
        return false;
    };
    *first == 0 && *last == 0 && middle.iter().all(|each| *each == word)
}

/// Whether words are read as they must.
fn is_read(answer: Result<(), VolFail>, words: &[u64], due: Due) -> bool {
    match (answer, due) {
        (Ok(()), Due::Words(wanted)) => words == wanted,
        (Ok(()), Due::Between(word)) => is_between(words, word),
        (Err(fail), _) => is_failure(fail, due),
        _ => false,
    }
}

fn reads<R: RegionWords>(r: &mut R, at: u32, count: usize, due: Due) -> bool
    requires ready { R.ready r.old }
    ensures ready { R.ready r.new }
{
    if count > MOST_WORDS {
        return false;
    }
    if !has_words(r, at, count) {
        return false;
    }
    let mut room = [9; MOST_WORDS];
    let answer = r.read_run(at, &mut room[..count]);
    is_read(answer, &room[..count], due)
}

fn word_is<R: RegionWords>(r: &mut R, at: u32, due: Due) -> bool
    requires ready { R.ready r.old }
    ensures ready { R.ready r.new }
{
    if !has_words(r, at, 1) {
        return false;
    }
    is_word(r.word(at), due)
}

fn sets<R: RegionWords>(r: &mut R, at: u32, word: u64, due: Due) -> bool
    requires ready { R.ready r.old }
    ensures ready { R.ready r.new }
{
    if !has_words(r, at, 1) {
        return false;
    }
    is_done(r.set(at, word), due)
}

fn sets_run<R: RegionWords>(r: &mut R, at: u32, words: &[u64], due: Due) -> bool
    requires ready { R.ready r.old }
    ensures ready { R.ready r.new }
{
    if !has_words(r, at, words.len()) {
        return false;
    }
    is_run(r.set_run(at, words), due)
}

/// Whether a call answers as it must.
fn answers<R: RegionWords>(r: &mut R, call: Call, due: Due) -> bool
    requires ready { R.ready r.old }
    ensures ready { R.ready r.new }
{
    match call {
        Call::Len => is_word(Ok(r.len() as u64), due),
        Call::Word(at) => word_is(r, at, due),
        Call::Read(at, count) => reads(r, at, count, due),
        Call::Set(at, word) => sets(r, at, word, due),
        Call::SetRun(at, words) => sets_run(r, at, words, due),
    }
}

/// Makes calls on the words of a region, each of which must answer as its row says. `table` says which they are.
pub(crate) fn on_words<R: RegionWords>(
    rt: &impl Abort,
    table: &str,
    r: &mut R,
    rows: &[(Call, Due)],
)
    requires ready { R.ready r.old }
    ensures ready { R.ready r.new }
{
    for t in 0..rows.len() {
        let (call, due) = rows[t];
        if !answers(r, call, due) {
            panic!(rt; "{table}: row {t} is answered otherwise");
        }
    }
}
