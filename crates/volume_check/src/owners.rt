//! Rule 6: which node has each block.

ghost use Rattle.std.specs.Prelude.{◌≡◌, ◌<◌, ◌+◌, ◌^◌, ℕ, ◌≤◌, ◌⊎◌, IfErr, IfOk, IfSome, length, slice_index};
ghost use Rattle.rio_base.specs.Layout.{IsIno};
ghost use Rattle.rio_model.specs.Censuses.{HasOwners};
ghost use Rattle.rio_model.specs.Placed.{Layout};
ghost use Rattle.rio_model.specs.Sizes.{pages};
ghost use Rattle.rio_model.specs.VolumeRules.{NumberRule, OnceRule, SizeRule};
ghost use Rattle.volume_check.specs.Claims.{Claimed, IsBefore, Notes, is_owned, slot_at, slot_owner};
ghost use Rattle.volume_check.specs.Looking.{CanLook, Looked, Refuses};
ghost use Rattle.volume_check.specs.Inodes.{HasInodes, layout_of};
ghost use Rattle.volume_check.specs.NodeBlocks.{node_numbers, numbers};
ghost use Rattle.volume_check.specs.Rules.{FailsOnce};

use crate::failures::CheckFail;
use crate::inodes::Inodes;
use crate::numbers::read_numbers;
use rio_base::{Block, Blocks, Ino};
use rio_model::{Owner, VolumeRule};
use std::alloc::Global;

/// Whether this is a node.
pub fn has_owner(owner: Owner) -> bool
    ensures { result ≡ is_owned owner }
{
    match owner {
        Owner::Nobody => false,
        Owner::PageOf(_, _) => true,
        Owner::TableOf(_, _) => true,
    }
}

/// The owner of the block at place `at` among the blocks of node `i`, which has so many pages.
fn owner_at(i: Ino, count: u32, at: u32) -> Owner
    ensures { result ≡ slot_owner i (slot_at count at) }
{
    if at < count {
        Owner::PageOf(i, at)
    } else {
        Owner::TableOf(i, at - count)
    }
}

/// The lower of two blocks, of which there may be only the second.
fn lower(least: Option<Block>, b: Block) -> Block
    ensures most { result.0 ≤ b.0 }
    ensures least { IfSome least (λ twice. result.0 ≤ twice.0) }
    ensures one { (least ≡ Some result) ⊎ (result ≡ b) }
{
    match least {
        None => b,
        Some(twice) => { if twice.0 <= b.0 { twice } else { b } }
    }
}

/// Notes an owner of block `b`, which it has unless another was noted before. Then the block counts twice. The answer is the
/// least block that does.
fn claim(owners: &mut [Owner], b: Block, owner: Owner, least: Option<Block>) -> Option<Block>
    requires { b.0 < length owners.old }
    ensures { Notes b.0 owner owners.old owners.new least result }
{
    let place = b.0 as usize;
    if !has_owner(owners[place]) {
        owners[place] = owner;
        return least;
    }
    Some(lower(least, b))
}

/// Notes node `i` as the owner of its blocks.
fn claim_all(
    owners: &mut [Owner],
    i: Ino,
    count: u32,
    blocks: &[Block],
    least: Option<Block>,
) -> Option<Block>
    requires few { length blocks.now < 2 ^ 32 }
    requires range { (k : ℕ) → k < length blocks.now → slice_index (numbers blocks.now) k < length owners.old }
    ensures { (l : Layout) → IsIno l.shape i.0 → (0 < (l.node i.0).kind → count ≡ pages (l.node i.0).size) → numbers blocks.now ≡ node_numbers (l.node i.0) → Claimed l (IsBefore l i.0 0) owners.old least → Claimed l (IsBefore l (i.0 + 1) 0) owners.new result }
{
    let mut twice = least;
    for at in 0..blocks.len() {
        twice = claim(owners, blocks[at], owner_at(i, count, at as u32), twice);
    }
    twice
}

/// Looks at rule 6. The answer says which node has each block.
pub fn find_owners<V: Blocks>(
    alloc: Global,
    v: &mut V,
    inodes: &Inodes,
) -> Result<Vec<Owner>, CheckFail>
    requires can { CanLook V.seen V.sound V.passes v.old }
    requires inodes { HasInodes (V.seen v.old) inodes.now }
    requires sizes { SizeRule (layout_of (V.seen v.old) inodes.now) }
    requires numbers { NumberRule (layout_of (V.seen v.old) inodes.now) }
    ensures once { IfOk result (λ _. OnceRule (layout_of (V.seen v.old) inodes.now)) }
    ensures owners { IfOk result (λ owners. HasOwners (layout_of (V.seen v.old) inodes.now) owners.items) }
    ensures refused { IfErr result (Refuses (FailsOnce (layout_of (V.seen v.old) inodes.now))) }
    ensures looked { Looked V.seen V.health V.sound V.passes v.old v.new result }
{
    let mut owners = vec![in alloc; Owner::Nobody; inodes.shape.blocks as usize]?;
    let mut blocks = Vec::new(alloc);
    let mut least = None;
    for k in 0..inodes.shape.inodes {
        let i = Ino(k + 1);
        let count = read_numbers(v, inodes, i, &mut blocks)?;
        least = claim_all(&mut owners, i, count, &blocks, least);
    }
    match least {
        Some(b) => Err(CheckFail::BadVolume(VolumeRule::Once as u8, b)),
        None => Ok(owners),
    }
}
