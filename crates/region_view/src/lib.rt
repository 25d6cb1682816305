//! The words of one region's file, read and stored in place through a volume.
#![tactic(auto)]

mod region_pages;
mod region_view;

pub use region_pages::region_words;
pub use region_view::RegionView;
