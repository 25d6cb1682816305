//! The laws of an AA tree, for an ordered map whose nodes are blocks of a region's heap. The tree is that of A. Andersson,
//! "Balanced Search Trees Made Simple", WADS 1993: levels in place of colours, and two turns, skew and split.
//!
//! `specs/` has the tree, its list of pairs, its levels, insertion and removal, and what words and blocks are such a map.
//! Each function here does nothing. Its clauses are laws, on which a program that walks and turns the tree in words can rest.
#![tactic(auto)]

mod bounds;
mod inserting;
mod looking;
mod mapping;
mod placing;
mod removing;
mod rows;
mod turning;

pub use bounds::{depth, rules};
pub use inserting::insertion;
pub use looking::{list_is_a_map, looking_up};
pub use mapping::{map_changes, map_stays, node_of_key, one_map};
pub use placing::places;
pub use removing::removal;
pub use rows::{rows_of_insertion, rows_of_removal};
pub use turning::{levels_stay_low, nothing_to_turn, turns};
