//! Requests on files by path over any volume, each by a caller who holds nothing in memory of it. Each answers what the
//! call of the crates below answers that takes a [`file_tree::Memo`], given one that holds nothing.
#![tactic(auto)]

mod alone;

pub use alone::{
    create, list, make_region, mkdir, read, region_of, rename, rmdir, stat, truncate, unlink, write,
};
