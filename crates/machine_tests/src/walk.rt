//! A walk of drawn calls on any volume of 64 blocks, beside the same calls on plain lists.

ghost use Rattle.std.specs.Prelude.{◌≡◌, ◌+◌, ◌<◌, ◌≤◌, false, true, IfOk, IsTrue, OnOk, length};
ghost use Rattle.rio_base.specs.Volume.{SameUpdate};
ghost use Rattle.machine_tests.specs.Walks.{Walks, walk_name};

use crate::draws::Draws;
use crate::plain_blocks::{PlainBlocks, Stands};
use rio_base::{Block, Ino, PageName, RunFail, Stopped, VolFail, Volume};

/// The most words of a run.
const RUN_WORDS: usize = 64;

/// Why a walk ended before its last call.
#[derive(Clone, Copy, Debug, PartialEq, Eq)]
pub(crate) enum WalkEnd {
    /// The volume stopped.
    Stopped,
    /// A word of this block read otherwise than the plain lists say.
    Differs(Block),
}

impl From<Stopped> for WalkEnd {
    fn from(_fail: Stopped) -> WalkEnd {
        WalkEnd::Stopped
    }
}

/// The name under which a walk asks for a block.
fn name_of(b: Block) -> Option<PageName>
    ensures { result ≡ walk_name b.0 }
{
    if b.0 < 40 {
        return None;
    }
    Some(PageName {
        file: Ino(2),
        index: b.0,
        size: 4096,
    })
}

/// Compares words that were read, from word `w` on.
fn compare(plain: &PlainBlocks, b: Block, w: u16, words: &[u64]) -> Result<(), WalkEnd>
    requires block { b.0 < 64 }
    requires run { w + length words.now ≤ 512 }
{
    if !plain.has(b, w, words) {
        return Err(WalkEnd::Differs(b));
    }
    Ok(())
}

/// How a walk goes on after a word was read: it ends where that is another one, and where the volume stopped.
fn word_end(
    plain: &PlainBlocks,
    b: Block,
    w: u16,
    came: Result<u64, VolFail>,
) -> Result<(), WalkEnd>
    requires block { b.0 < 64 }
    requires word { w < 512 }
{
    match came {
        Ok(word) => compare(plain, b, w, &[word]),
        Err(VolFail::Fault) => Ok(()),
        Err(VolFail::Stopped) => Err(WalkEnd::Stopped),
    }
}

/// Reads a run of words.
#[tactic(auto, using(crate::proofs::WalkNames::walk_span, crate::proofs::WalkNames::can_walk_as, crate::proofs::WalkNames::walks_looked, crate::proofs::WalkNames::same_update_passed))]
fn read_run<V: Volume>(
    v: &mut V,
    plain: &PlainBlocks,
    b: Block,
    w: u16,
    into: &mut [u64],
) -> Result<(), WalkEnd>
    requires sound { V.sound v.old }
    requires walks { Walks (V.seen v.old) }
    requires block { b.0 < 64 }
    requires run { w + length into.old ≤ 512 }
    ensures update { SameUpdate (V.kept v.old) (V.kept v.new) }
    ensures walks { Walks (V.seen v.new) }
    ensures sound { V.sound v.new }
{
    match v.read_run(b, name_of(b), w, into) {
        Ok(()) => compare(plain, b, w, into),
        Err(VolFail::Fault) => Ok(()),
        Err(VolFail::Stopped) => Err(WalkEnd::Stopped),
    }
}

/// How a walk goes on after a word was stored, which the plain lists were told.
fn store_end(plain: &mut PlainBlocks, came: Result<(), VolFail>) -> Result<(), WalkEnd> {
    match came {
        Ok(()) => plain.end(),
        Err(VolFail::Fault) => plain.end_with(0),
        Err(VolFail::Stopped) => return Err(WalkEnd::Stopped),
    }
    Ok(())
}

/// Tells the plain lists that a run of words is stored.
fn plan_run(plain: &mut PlainBlocks, b: Block, w: u16, words: &[u64])
    requires block { b.0 < 64 }
    requires run { w + length words.now ≤ 512 }
{
    plain.begin(Stands::Front);
    for i in 0..words.len() {
        plain.store(b, w + i as u16, words[i]);
    }
}

/// Stores a run of words.
#[tactic(auto, using(crate::proofs::WalkNames::walk_span, crate::proofs::WalkNames::can_walk_as, crate::proofs::WalkNames::walks_stored))]
fn store_run<V: Volume>(
    v: &mut V,
    plain: &mut PlainBlocks,
    b: Block,
    w: u16,
    words: &[u64],
) -> Result<(), WalkEnd>
    requires sound { V.sound v.old }
    requires walks { Walks (V.seen v.old) }
    requires idle { (V.kept v.old).updating ≡ false }
    requires block { b.0 < 64 }
    requires run { w + length words.now ≤ 512 }
    ensures idle { (V.kept v.new).updating ≡ false }
    ensures walks { Walks (V.seen v.new) }
    ensures sound { V.sound v.new }
{
    plan_run(plain, b, w, words);
    match v.store_run(b, name_of(b), w, words) {
        Ok(()) => plain.end(),
        Err(RunFail::Fault(n)) => plain.end_with(n as usize),
        Err(RunFail::Stopped) => return Err(WalkEnd::Stopped),
    }
    Ok(())
}

/// Forgets a block, and makes it anew.
#[tactic(auto, using(crate::proofs::WalkNames::can_walk_as, crate::proofs::WalkNames::walks_cached, crate::proofs::WalkNames::walks_dropped))]
fn renew<V: Volume>(v: &mut V, plain: &mut PlainBlocks, b: Block) -> Result<(), WalkEnd>
    requires sound { V.sound v.old }
    requires walks { Walks (V.seen v.old) }
    requires idle { (V.kept v.old).updating ≡ false }
    requires block { b.0 < 64 }
    ensures idle { (V.kept v.new).updating ≡ false }
    ensures walks { Walks (V.seen v.new) }
    ensures sound { V.sound v.new }
{
    plain.forget(b);
    v.forget(b)?;
    match v.fresh(b, name_of(b)) {
        Ok(()) => plain.renew(b),
        Err(VolFail::Fault) => {}
        Err(VolFail::Stopped) => return Err(WalkEnd::Stopped),
    }
    Ok(())
}

/// How a walk goes on after a flush: it ends where the volume stopped.
fn flush_end(came: Result<u32, VolFail>) -> Result<(), WalkEnd> {
    match came {
        Ok(_) | Err(VolFail::Fault) => Ok(()),
        Err(VolFail::Stopped) => Err(WalkEnd::Stopped),
    }
}

/// Edits a word of a touched block, and may read it back.
#[tactic(auto, using(crate::proofs::WalkNames::walk_place, crate::proofs::WalkNames::can_walk_as, crate::proofs::WalkNames::walks_looked, crate::proofs::WalkNames::walks_dropped, crate::proofs::WalkNames::same_update_passed, crate::proofs::WalkNames::same_update_trans))]
fn edit<V: Volume>(
    v: &mut V,
    plain: &mut PlainBlocks,
    draws: &mut Draws,
    b: Block,
) -> Result<(), WalkEnd>
    requires sound { V.sound v.old }
    requires walks { Walks (V.seen v.old) }
    requires block { b.0 < 64 }
    requires in_update { (V.kept v.old).updating ≡ true }
    requires touched { (V.kept v.old).touched b.0 ≡ true }
    ensures update { OnOk result (SameUpdate (V.kept v.old) (V.kept v.new)) }
    ensures walks { Walks (V.seen v.new) }
    ensures sound { V.sound v.new }
{
    let w = draws.word_place();
    let word = draws.word();
    plain.store(b, w, word);
    v.edit(b, w, word)?;
    if draws.below(2) == 0 {
        return Ok(());
    }
    let came = v.word(b, name_of(b), w);
    word_end(plain, b, w, came)
}

/// Edits one or two words of a touched block, and reads a word of any block.
#[tactic(auto, using(crate::proofs::WalkNames::walk_place, crate::proofs::WalkNames::can_walk_as, crate::proofs::WalkNames::walks_looked, crate::proofs::WalkNames::same_update_passed, crate::proofs::WalkNames::same_update_trans))]
fn edit_words<V: Volume>(
    v: &mut V,
    plain: &mut PlainBlocks,
    draws: &mut Draws,
    b: Block,
) -> Result<(), WalkEnd>
    requires sound { V.sound v.old }
    requires walks { Walks (V.seen v.old) }
    requires block { b.0 < 64 }
    requires in_update { (V.kept v.old).updating ≡ true }
    requires touched { (V.kept v.old).touched b.0 ≡ true }
    ensures update { OnOk result (SameUpdate (V.kept v.old) (V.kept v.new)) }
    ensures walks { Walks (V.seen v.new) }
    ensures sound { V.sound v.new }
{
    edit(v, plain, draws, b)?;
    if draws.below(2) == 0 {
        let other = draws.block();
        let w = draws.word_place();
        let came = v.word(other, name_of(other), w);
        return word_end(plain, other, w, came);
    }
    edit(v, plain, draws, b)
}

/// Touches a drawn block of metadata in the open update, and edits it. Answers whether it was touched.
#[tactic(auto, using(crate::proofs::WalkNames::can_touch, crate::proofs::WalkNames::walks_touched))]
fn edit_block<V: Volume>(
    v: &mut V,
    plain: &mut PlainBlocks,
    draws: &mut Draws,
) -> Result<bool, WalkEnd>
    requires sound { V.sound v.old }
    requires walks { Walks (V.seen v.old) }
    requires in_update { (V.kept v.old).updating ≡ true }
    requires room { (V.kept v.old).touches < 16 }
    ensures in_update { OnOk result ((V.kept v.new).updating ≡ true) }
    ensures touches { IfOk result (λ touched. IsTrue touched → (V.kept v.new).touches ≤ (V.kept v.old).touches + 1) }
    ensures walks { Walks (V.seen v.new) }
    ensures sound { V.sound v.new }
{
    let b = draws.metadata();
    match v.touch(b) {
        Ok(()) => {}
        Err(VolFail::Fault) => return Ok(false),
        Err(VolFail::Stopped) => return Err(WalkEnd::Stopped),
    }
    edit_words(v, plain, draws, b)?;
    Ok(true)
}

/// Edits up to `n` drawn blocks in the open update. Answers whether all were touched.
fn edit_blocks<V: Volume>(
    v: &mut V,
    plain: &mut PlainBlocks,
    draws: &mut Draws,
    n: u32,
) -> Result<bool, WalkEnd>
    requires sound { V.sound v.old }
    requires walks { Walks (V.seen v.old) }
    requires in_update { (V.kept v.old).updating ≡ true }
    requires room { (V.kept v.old).touches + n ≤ 16 }
    ensures in_update { OnOk result ((V.kept v.new).updating ≡ true) }
    ensures walks { Walks (V.seen v.new) }
    ensures sound { V.sound v.new }
{
    for _ in 0..n {
        if !edit_block(v, plain, draws)? {
            return Ok(false);
        }
    }
    Ok(true)
}

/// Ends the open update: commits it, or rolls it back.
#[tactic(auto, using(crate::proofs::WalkNames::walks_dropped))]
fn end_update<V: Volume>(v: &mut V, plain: &mut PlainBlocks, whole: bool) -> Result<(), WalkEnd>
    requires sound { V.sound v.old }
    requires walks { Walks (V.seen v.old) }
    requires in_update { (V.kept v.old).updating ≡ true }
    ensures idle { OnOk result ((V.kept v.new).updating ≡ false) }
    ensures walks { Walks (V.seen v.new) }
    ensures sound { V.sound v.new }
{
    if !whole {
        v.rollback()?;
        plain.end_with(0);
        return Ok(());
    }
    plain.turn(Stands::Whole);
    v.commit()?;
    plain.end();
    Ok(())
}

/// Edits some blocks of metadata by one update, which is committed, or rolled back: at a fault, and sometimes else.
#[tactic(auto, using(crate::proofs::WalkNames::walks_dropped))]
fn update<V: Volume>(v: &mut V, plain: &mut PlainBlocks, draws: &mut Draws) -> Result<(), WalkEnd>
    requires sound { V.sound v.old }
    requires walks { Walks (V.seen v.old) }
    requires idle { (V.kept v.old).updating ≡ false }
    ensures idle { OnOk result ((V.kept v.new).updating ≡ false) }
    ensures walks { Walks (V.seen v.new) }
    ensures sound { V.sound v.new }
{
    plain.begin(Stands::Nothing);
    v.begin()?;
    let n = 1 + draws.below(16);
    let edited = edit_blocks(v, plain, draws, n)?;
    end_update(v, plain, edited && draws.below(4) != 0)
}

/// Reads a word or a run of words.
#[tactic(auto, using(crate::proofs::WalkNames::walk_place, crate::proofs::WalkNames::can_walk_as, crate::proofs::WalkNames::walks_looked, crate::proofs::WalkNames::same_update_passed))]
fn look<V: Volume>(v: &mut V, plain: &PlainBlocks, draws: &mut Draws) -> Result<(), WalkEnd>
    requires sound { V.sound v.old }
    requires walks { Walks (V.seen v.old) }
    ensures update { SameUpdate (V.kept v.old) (V.kept v.new) }
    ensures walks { Walks (V.seen v.new) }
    ensures sound { V.sound v.new }
{
    let b = draws.block();
    let w = draws.word_place();
    if draws.below(4) != 0 {
        let came = v.word(b, name_of(b), w);
        return word_end(plain, b, w, came);
    }
    let mut room = [0; RUN_WORDS];
    let n = draws.run(w, RUN_WORDS);
    read_run(v, plain, b, w, &mut room[..n])
}

/// Stores a word or a run of words.
#[tactic(auto, using(crate::proofs::WalkNames::walk_place, crate::proofs::WalkNames::can_walk_as, crate::proofs::WalkNames::walks_stored))]
fn change<V: Volume>(v: &mut V, plain: &mut PlainBlocks, draws: &mut Draws) -> Result<(), WalkEnd>
    requires sound { V.sound v.old }
    requires walks { Walks (V.seen v.old) }
    requires idle { (V.kept v.old).updating ≡ false }
    ensures idle { (V.kept v.new).updating ≡ false }
    ensures walks { Walks (V.seen v.new) }
    ensures sound { V.sound v.new }
{
    let b = draws.block();
    let w = draws.word_place();
    if draws.below(2) != 0 {
        let word = draws.word();
        plain.begin(Stands::Front);
        plain.store(b, w, word);
        let came = v.store(b, name_of(b), w, word);
        return store_end(plain, came);
    }
    let mut words = [0; RUN_WORDS];
    draws.fill(&mut words);
    let n = draws.run(w, RUN_WORDS);
    store_run(v, plain, b, w, &words[..n])
}

/// Makes one drawn action. Each is one call, but for an update, and for a block that is forgotten and made anew.
#[tactic(auto, using(crate::proofs::WalkNames::walks_dropped))]
fn act<V: Volume>(v: &mut V, plain: &mut PlainBlocks, draws: &mut Draws) -> Result<(), WalkEnd>
    requires sound { V.sound v.old }
    requires walks { Walks (V.seen v.old) }
    requires idle { (V.kept v.old).updating ≡ false }
    ensures idle { OnOk result ((V.kept v.new).updating ≡ false) }
    ensures walks { Walks (V.seen v.new) }
    ensures sound { V.sound v.new }
{
    match draws.kind() {
        0..4 => look(v, plain, draws),
        4..7 => change(v, plain, draws),
        7 => update(v, plain, draws),
        8 => renew(v, plain, draws.block()),
        _ => flush_end(v.flush(draws.below(8) as u64)),
    }
}

/// Makes so many drawn actions, and compares each word that is read. The error says why the walk ended before.
pub(crate) fn walk<V: Volume>(
    v: &mut V,
    plain: &mut PlainBlocks,
    draws: &mut Draws,
    actions: u32,
) -> Result<(), WalkEnd>
    requires sound { V.sound v.old }
    requires walks { Walks (V.seen v.old) }
    requires idle { (V.kept v.old).updating ≡ false }
    ensures idle { OnOk result ((V.kept v.new).updating ≡ false) }
    ensures walks { Walks (V.seen v.new) }
    ensures sound { V.sound v.new }
{
    for _ in 0..actions {
        act(v, plain, draws)?;
    }
    Ok(())
}

/// Reads all blocks, and compares each word.
pub(crate) fn read_all<V: Volume>(v: &mut V, plain: &PlainBlocks) -> Result<(), WalkEnd>
    requires sound { V.sound v.old }
    requires walks { Walks (V.seen v.old) }
    ensures update { SameUpdate (V.kept v.old) (V.kept v.new) }
    ensures walks { Walks (V.seen v.new) }
    ensures sound { V.sound v.new }
{
    let mut room = [0; 512];
    for b in 0..64 {
        read_run(v, plain, Block(b), 0, &mut room)?;
    }
    Ok(())
}

/// Makes so many drawn actions, and where it is so set then reads all blocks. The error says why that ended before.
pub(crate) fn walk_through<V: Volume>(
    v: &mut V,
    plain: &mut PlainBlocks,
    draws: &mut Draws,
    actions: u32,
    reads: bool,
) -> Result<(), WalkEnd>
    requires sound { V.sound v.old }
    requires walks { Walks (V.seen v.old) }
    requires idle { (V.kept v.old).updating ≡ false }
    ensures sound { V.sound v.new }
{
    walk(v, plain, draws, actions)?;
    if !reads {
        return Ok(());
    }
    read_all(v, plain)
}
