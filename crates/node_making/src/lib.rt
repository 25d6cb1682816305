//! Requests by path that make nodes or tell of them, over any volume: directories, files and regions are made, nodes looked at,
//! names listed, and regions found. Each call is given what is held in memory of the volume, a [`file_tree::Memo`].
#![tactic(auto)]

mod looking;
mod making;
mod new_nodes;
mod regions;
mod standing;

pub use looking::{list, stat};
pub use making::{create, mkdir};
pub use regions::{make_region, region_at};
pub use standing::stand_at;
