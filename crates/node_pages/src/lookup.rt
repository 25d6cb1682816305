//! Where the pages of a node lie.

ghost use Rattle.std.specs.Prelude.{◌≡◌, ◌<◌, IfOk};
ghost use Rattle.rio_base.specs.Frames.{CanRead, ReadBy};
ghost use Rattle.rio_base.specs.Layout.{IsIno, half, inode_word};
ghost use Rattle.rio_model.specs.Placed.{AtPage, AtTable, HasSlot, placed_at, volume_layout, Owns};
ghost use Rattle.node_pages.specs.LookingUp.{CanLookUp, LooksUp};

use inode_table::DIRECT_PAGES;
use rio_base::{Block, Blocks, Ino, VolFail, VolumeShape};

/// The word of an inode that has the numbers of pages 0 and 1.
const FIRST_NUMBERS: u16 = 2;

/// The word of an inode that has the number of its indirect block.
const INDIRECT_NUMBER: u16 = 14;

/// Number `n` of a list with two numbers in a word, as its word has it.
#[tactic(auto, unfolding(rio_base::specs::Layout::half))]
pub fn number_in(word: u64, n: u32) -> u32
    ensures { result ≡ half word n }
{
    if n % 2 == 0 {
        (word % 4_294_967_296) as u32
    } else {
        (word >> 32) as u32
    }
}

/// Word `w` of inode `i`.
#[tactic(auto, using(crate::proofs::LookingUpRules::can_inode))]
fn inode_word<V: Blocks>(v: &mut V, shape: &VolumeShape, i: Ino, w: u16) -> Result<u64, VolFail>
    requires can { CanRead V.seen V.sound (CanLookUp shape.now) v.old }
    requires ino { IsIno shape.now i.0 }
    requires word { w < 16 }
    ensures value { IfOk result (λ word. word ≡ inode_word (V.seen v.old).words i.0 w) }
    ensures read { ReadBy V.seen V.health V.sound V.passes (LooksUp shape.now) v.old v.new result }
{
    let block = Block(2 + (i.0 - 1) / 32);
    let place = 16 * ((i.0 - 1) % 32);
    v.word(block, None, place as u16 + w)
}

/// Word `w` of the indirect block of node `i`.
#[tactic(auto, using(crate::proofs::LookingUpRules::can_table))]
pub fn table_word<V: Blocks>(
    v: &mut V,
    shape: &VolumeShape,
    i: Ino,
    table: Block,
    w: u16,
) -> Result<u64, VolFail>
    requires can { CanRead V.seen V.sound (CanLookUp shape.now) v.old }
    requires owns { Owns (volume_layout shape.now (V.seen v.old).words) i.0 (AtTable 0) }
    requires table { table.0 ≡ (placed_at (V.seen v.old).words i.0).block (AtTable 0) }
    requires word { w < 512 }
    ensures value { IfOk result (λ word. word ≡ (V.seen v.old).words ((placed_at (V.seen v.old).words i.0).block (AtTable 0)) w) }
    ensures read { ReadBy V.seen V.health V.sound V.passes (LooksUp shape.now) v.old v.new result }
{
    v.word(table, None, w)
}

/// The block of page `index` of node `i`. It is looked up in the inode, or in the indirect block that the inode names.
#[tactic(auto, using(crate::proofs::LookingUpRules::look_trans))]
pub fn block_of<V: Blocks>(
    v: &mut V,
    shape: &VolumeShape,
    i: Ino,
    index: u32,
) -> Result<Block, VolFail>
    requires can { CanRead V.seen V.sound (CanLookUp shape.now) v.old }
    requires ino { IsIno shape.now i.0 }
    requires page { HasSlot (placed_at (V.seen v.old).words i.0) (AtPage index) }
    ensures value { IfOk result (λ b. b.0 ≡ (placed_at (V.seen v.old).words i.0).block (AtPage index)) }
    ensures read { ReadBy V.seen V.health V.sound V.passes (LooksUp shape.now) v.old v.new result }
{
    if index < DIRECT_PAGES {
        let word = inode_word(v, shape, i, FIRST_NUMBERS + (index / 2) as u16)?;
        return Ok(Block(number_in(word, index)));
    }
    let table = inode_word(v, shape, i, INDIRECT_NUMBER)?;
    let place = (index - DIRECT_PAGES) / 2;
    let word = table_word(v, shape, i, Block(number_in(table, 0)), place as u16)?;
    Ok(Block(number_in(word, index)))
}
