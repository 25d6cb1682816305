use crate::{DirNames, Lookup, NameIndex};
use rio_base::Ino;
use std::alloc::Global;
use std::process::Abort;

/// The directory that tests hold.
const DIR: Ino = Ino(7);

/// Names that are put in order, from inode 10 on.
static NAMES: [&str; 4] = ["a", "b", "c", "d"];

/// Holds these names of the directory.
fn hold(rt: &impl Abort, alloc: Global, index: &mut NameIndex) {
    let mut names = DirNames::new(alloc);
    for k in 0..NAMES.len() {
        names
            .put(NAMES[k].as_bytes(), Ino(10 + k as u32))
            .expect(rt, "a name is kept");
    }
    index.hold(DIR, names);
}

/// What is said of a name of the directory: its inode and its place, 0 and 0 where it has none, and 0 and 1 where nothing is known.
fn said(index: &NameIndex, name: &str) -> (u32, u32) {
    match index.find(DIR, name.as_bytes()) {
        Lookup::Unknown => (0, 1),
        Lookup::Absent => (0, 0),
        Lookup::Present(ino, slot) => (ino.0, slot),
    }
}

/// What is done with the names of the directory.
#[derive(Clone, Copy)]
enum Step {
    Nothing,
    Hold,
    Remove(&'static str),
    Rename(&'static str, &'static str, u32),
    Put(&'static str, u32),
}

/// Does it.
fn make(rt: &impl Abort, alloc: Global, index: &mut NameIndex, step: Step) {
    match step {
        Step::Nothing => {}
        Step::Hold => hold(rt, alloc, index),
        Step::Remove(name) => index.remove(DIR, name.as_bytes()),
        Step::Rename(name, to, ino) => {
            index.rename(DIR, name.as_bytes(), DIR, to.as_bytes(), Ino(ino));
        }
        Step::Put(name, ino) => index.put(DIR, name.as_bytes(), Ino(ino)),
    }
}

/// What is done, and what is said of a name after it.
static ROWS: [(Step, &str, (u32, u32)); 7] = [
    (Step::Nothing, "a", (0, 1)),
    (Step::Hold, "b", (11, 1)),
    (Step::Nothing, "e", (0, 0)),
    (Step::Remove("b"), "b", (0, 0)),
    (Step::Nothing, "d", (13, 1)),
    (Step::Rename("a", "e", 10), "e", (10, 0)),
    (Step::Put("f", 14), "f", (14, 3)),
];

/// Goes over the rows.
fn go_over(rt: &impl Abort, alloc: Global, index: &mut NameIndex) {
    for (step, name, due) in ROWS.iter() {
        make(rt, alloc, index, *step);
        assert_eq!(rt; said(index, name), *due);
    }
}

#[test]
fn names_keep_the_slots_of_their_entries(rt: HostRuntime) {
    let mut index = NameIndex::new(rt.alloc());
    go_over(&rt, rt.alloc(), &mut index);
}
