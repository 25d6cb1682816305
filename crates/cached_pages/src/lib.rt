//! The pages of a cache: blocks of a machine's disk in frames of its protected memory, and the tables that tell which.
#![tactic(auto)]

mod early;
mod fetching;
mod filling;
mod freeing;
mod leaving;
mod slots;
mod storing;
mod tables;
mod updating;

pub use fetching::{fetch, make_room};
pub use freeing::{bring_zeros, drop_frame};
pub use leaving::{has_all_frames, is_far_ahead, is_full, send_next};
pub use slots::EarlyWrites;
pub use storing::{put_frame, put_frame_run, ready};
pub use tables::{CacheTables, page_of};
pub use updating::{clear_list, listed, put_edit, shadow_frame, unpin_all};
