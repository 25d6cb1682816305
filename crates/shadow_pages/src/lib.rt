//! Updates of several pages that count at once.
//!
//! The header's gate says whether shadow pages count. While it is 1, an entry that has a shadow counts by its shadow page
//! and not by its frame, so that edits of its frame don't count yet. An update goes so: [`begin`] takes the shadows of an
//! earlier update away and stores 1 in the gate; [`shadow`] copies the frame of an entry to a shadow page, once for each
//! page that is edited; edits go to frames; and [`commit`] stores 0 in the gate. This one store makes all edits count.
//! [`undo`] copies the shadow pages back instead, before it stores 0.
#![tactic(auto)]

mod committing;
mod gate;
mod opening;
mod pages;
mod shadowing;
mod undoing;

pub use committing::commit;
pub use opening::begin;
pub use shadowing::shadow;
pub use undoing::undo;
