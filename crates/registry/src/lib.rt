//! The registry: which block each frame has, and what of it. Its entries are words of protected memory, so that they are
//! there after a stop.
#![tactic(auto)]

mod cover_view;
mod entry;
mod entry_changes;
mod image_rules;
mod pages;
mod tag;

pub use cover_view::CoverView;
pub use entry::{Entry, load_tag, read_entry};
pub use entry_changes::{clear, install, set_clean, set_dirty, set_shadow, set_size};
pub use image_rules::{BadImage, check_image};
pub use pages::{counted_page_of, frame_count, frame_page_of, shadow_page_of};
pub use tag::Tag;
