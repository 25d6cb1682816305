//! Tests of what stands on a region's words: its undo list; its heap, beside a plain heap; and transactions. The regions
//! are in memory, and their calls are stopped and fail one after the other.
#![tactic(auto)]

#[cfg(test)]
mod covering_tests;
#[cfg(test)]
mod heap_call_tests;
#[cfg(test)]
mod heap_calls;
#[cfg(test)]
mod heap_cut_tests;
#[cfg(test)]
mod heap_rows;
#[cfg(test)]
mod heap_walk_tests;
#[cfg(test)]
mod plain_heap;
#[cfg(test)]
mod region_call_tests;
#[cfg(test)]
mod region_calls;
#[cfg(test)]
mod region_cut_tests;
#[cfg(test)]
mod region_rows;
#[cfg(test)]
mod undo_call_tests;
#[cfg(test)]
mod undo_calls;
#[cfg(test)]
mod undo_cut_tests;
#[cfg(test)]
mod undo_rows;
