//! The undo list of a region: records of old words, newest first, in its undo pages. A place that a record covers may be
//! stored, and all records put back give the words of before.
#![tactic(auto)]

mod bits;
mod covering;
mod failures;
mod marks;
mod places;
mod ranges;
mod records;
mod rewinding;
mod runs;

pub use bits::{ones_from, with_bits, zeros_from};
pub use covering::{covered, covered_from_head};
pub use failures::{UndoFail, uncounted};
pub use places::{data_pages, put_covered_run, read_places, read_places_behind, word_at};
pub use ranges::{room, set_pair, set_range, set_range_by_header};
pub use records::{Header, read_header};
pub use rewinding::{drop_all, rewind};
