//! Which frame has which block, in which order frames were used, and which have to stay.
#![tactic(auto)]

mod frame;
mod frame_pool;
mod records;
mod ring;

pub use frame_pool::FramePool;
