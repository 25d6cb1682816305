//! The regions of a volume that was stopped in the middle of transactions: their words of before are put back.
#![tactic(auto)]

mod listing;
mod recovering;

pub use listing::list_regions;
pub use recovering::recover_regions;
