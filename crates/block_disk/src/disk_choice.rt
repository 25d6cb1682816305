//! What a crash leaves of the blocks that were pending.

/// What each pending block reads as after a crash.
#[derive(Clone, Copy, Debug, PartialEq, Eq)]
pub enum DiskChoice {
    /// As it read before.
    AsRead,
    /// As it read at the last sync that succeeded, or zeros where there was none.
    AsSynced,
    /// Each of its bytes is this byte.
    Filled(u8),
}
