//! Wild stores: stores of a program gone wrong.

/// What became of a wild store.
#[derive(Clone, Copy, Debug, PartialEq, Eq)]
pub enum Wild {
    /// It fell on a scratch page, and the word is changed.
    Changed,
    /// It fell on a protected page that is closed: no word is changed, and the machine is stopped.
    Trapped,
    /// It fell on the page that is open, and was skipped and counted.
    Spared,
}
