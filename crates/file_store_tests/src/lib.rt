//! Tests of requests by path, with the answers that must come, with and without what is held in memory, requests that are
//! stopped at each of their steps, and views of regions, also of one whose open transaction is undone after a stop.
#![tactic(auto)]

#[cfg(test)]
mod answers;
#[cfg(test)]
mod asks;
#[cfg(test)]
mod calls;
#[cfg(test)]
mod held_calls;
#[cfg(test)]
mod playing;
#[cfg(test)]
mod recovery_tests;
#[cfg(test)]
mod region_rows;
#[cfg(test)]
mod row_tests;
#[cfg(test)]
mod stop_tests;
#[cfg(test)]
mod view_tests;
#[cfg(test)]
mod views;
