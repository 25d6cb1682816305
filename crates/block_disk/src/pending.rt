//! Which blocks are pending.

ghost use Rattle.std.specs.Prelude.{◌≡◌, ◌<◌, ◌≤◌, ℕ, false, true, IfOk, length, replicate, slice_index, slice_set, vec_capacity};
ghost use Rattle.rio_base.specs.Disks.{is_pending};
ghost use Rattle.block_disk.specs.BlockLists.{Lists};

use rio_base::Block;
use std::alloc::{AllocError, Global};

/// A mark for each block, and a list of the marked ones, so that what goes over them looks at no other block. No call but
/// [`PendingBlocks::new`] takes memory: the list has room for all blocks from the beginning.
#[derive(Drop)]
pub struct PendingBlocks {
    marks: Vec<bool>,
    /// The numbers of the marked blocks, in the order in which they were marked.
    numbers: Vec<u32>,
    ghost room: { length marks.items ≤ vec_capacity numbers },
    ghost lists: { Lists numbers.items marks.items },
}

impl PendingBlocks {
    /// So many blocks, of which none is pending. The error means that there was no room for the marks or the list.
    pub fn new(alloc: Global, blocks: usize) -> Result<PendingBlocks, AllocError>
        ensures none { IfOk result (λ p. p.marks.items ≡ replicate blocks false) }
        ensures count { IfOk result (λ p. length p.marks.items ≡ blocks) }
    {
        let marks = vec![in alloc; false; blocks]?;
        let numbers = Vec::with_capacity(alloc, blocks)?;
        Ok(PendingBlocks { marks, numbers })
    }

    /// The numbers of the pending blocks.
    pub fn numbers(&self) -> &[u32]
        ensures { result.now ≡ self.now.numbers.items }
    {
        &self.numbers
    }

    /// Marks a block as pending.
    pub fn mark(&mut self, b: Block)
        requires { b.0 < length self.old.marks.items }
        ensures { self.new.marks.items ≡ slice_set self.old.marks.items b.0 true }
    {
        if self.marks[b.0 as usize] {
            return;
        }
        self.marks[b.0 as usize] = true;
        self.numbers.push_reserved(b.0);
    }

    /// Nothing is pending any more.
    pub fn clear(&mut self)
        ensures { self.new.marks.items ≡ replicate (length self.old.marks.items) false }
    {
        clear_marks(&self.numbers, &mut self.marks);
        self.numbers.clear();
    }
}

/// Takes the marks of these blocks away.
fn clear_marks(numbers: &[u32], marks: &mut Vec<bool>)
    requires within { (i : ℕ) → i < length numbers.now → slice_index numbers.now i < length marks.old.items }
    ensures count { length marks.new.items ≡ length marks.old.items }
    ensures cleared { (i : ℕ) → i < length numbers.now → is_pending marks.new.items (slice_index numbers.now i) ≡ false }
    ensures unmarked { (b : ℕ) → is_pending marks.old.items b ≡ false → is_pending marks.new.items b ≡ false }
{
    for i in 0..numbers.len() {
        marks[numbers[i] as usize] = false;
    }
}
