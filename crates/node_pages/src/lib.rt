//! The pages of a node: where they lie, how a change of its size is prepared, and how an update makes it.
#![tactic(auto)]

mod changes;
mod failures;
mod growing;
mod lookup;
mod numbers;
mod planning;
mod preparing;
mod shrinking;
mod sizes;
mod staging;
mod taking;
mod updating;

pub use changes::{Edit, EditList, SizeChange};
pub use failures::{SizeFail, WriteFail};
pub use lookup::block_of;
pub use numbers::{blocks_of, look_inode, only_direct, page_blocks};
pub use planning::plan_growth;
pub use preparing::plan_size;
pub use shrinking::plan_shrink;
pub use sizes::{page_count, wanted_count};
pub use staging::bytes_in_page;
pub use taking::take_lowest;
pub use updating::{make_update, make_words};
