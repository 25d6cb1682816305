//! What one frame has: its block and its pin.

ghost use Rattle.std.specs.Prelude.{◌≡◌, ◌≢◌, ◌<◌, ℕ, length, option_map};
ghost use Rattle.frame_pool.specs.Frames.{block_at, pinned_at};
ghost use Rattle.frame_pool.specs.Rings.{KeepsLinks};

use crate::frame::Frame;
use rio_base::Block;

/// Gives frame `k` this block, or none.
pub fn set_block(frames: &mut [Frame], k: u32, block: Option<Block>)
    requires within { k < length frames.old }
    ensures block { block_at frames.new k ≡ option_map (λ b. b.0) block }
    ensures others { (j : ℕ) → j ≢ k → block_at frames.new j ≡ block_at frames.old j }
    ensures pins { (j : ℕ) → pinned_at frames.new j ≡ pinned_at frames.old j }
    ensures links { KeepsLinks frames.old frames.new }
{
    frames[k as usize].block = block;
}

/// Pins frame `k`, or lets it go.
pub fn set_pin(frames: &mut [Frame], k: u32, pinned: bool)
    requires within { k < length frames.old }
    ensures pin { pinned_at frames.new k ≡ pinned }
    ensures others { (j : ℕ) → j ≢ k → pinned_at frames.new j ≡ pinned_at frames.old j }
    ensures blocks { (j : ℕ) → block_at frames.new j ≡ block_at frames.old j }
    ensures links { KeepsLinks frames.old frames.new }
{
    frames[k as usize].pinned = pinned;
}
