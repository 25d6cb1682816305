//! Sizes of nodes: in bytes, in pages and in blocks.

ghost use Rattle.std.specs.Prelude.{◌≡◌, ◌≤◌};
ghost use Rattle.rio_model.specs.Sizes.{largest_size, pages, tables};
ghost use Rattle.node_pages.specs.Changes.{wanted_blocks};

use inode_table::DIRECT_PAGES;
use rio_base::PAGE_BYTES;

/// How many pages a node of so many bytes has.
pub fn page_count(size: u64) -> u32
    requires { size ≤ largest_size }
    ensures pages { result ≡ pages size }
    ensures most { result ≤ 1048 }
{
    size.div_ceil(PAGE_BYTES) as u32
}

/// How many tables a node of so many bytes has: an indirect block, or none.
pub fn table_count(size: u64) -> u32
    requires { size ≤ largest_size }
    ensures tables { result ≡ tables size }
    ensures most { result ≤ 1 }
{
    if page_count(size) > DIRECT_PAGES {
        1
    } else {
        0
    }
}

/// How many blocks a node takes to grow from one size to another.
#[tactic(auto, using(crate::proofs::Planned::more_tables, crate::proofs::Planned::wanted_count))]
pub fn wanted_count(size: u64, len: u64) -> u32
    requires grows { size ≤ len }
    requires most { len ≤ largest_size }
    ensures wanted { result ≡ wanted_blocks size len }
{
    (page_count(len) + table_count(len)) - (page_count(size) + table_count(size))
}
