//! What becomes of dirty pages.

/// What becomes of a dirty page.
#[derive(Clone, Copy, Debug, PartialEq, Eq)]
pub enum PageKind {
    /// It is of metadata, and is written first.
    Metadata,
    /// It is of a file or region that has it, and is written next.
    Wanted,
    /// No node has its block: it is dropped.
    Stale,
}

/// How many dirty pages there were of each kind.
#[derive(Clone, Copy, Debug, PartialEq, Eq)]
pub struct PageCounts {
    /// Of metadata, written.
    pub meta: u32,
    /// Of files and regions that have them, written.
    pub pages: u32,
    /// Stale, and dropped.
    pub stale: u32,
}
