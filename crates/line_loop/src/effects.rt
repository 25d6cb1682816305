//! What requests do, as far as replies may wait for each other.

/// What a request may do besides being answered.
#[derive(Clone, Copy, Debug, PartialEq, Eq)]
pub enum Effect {
    /// Nothing: the state is the same afterwards, so its reply may wait.
    Nothing,
    /// It may change the state or the machine, but arms no store.
    Changes,
    /// It may arm a store, by which a later request may be stopped.
    Arms,
}
