//! What a volume has, counted, and which node has each block.

use rio_base::{Ino, VolumeShape};

/// Counts of a volume's nodes and blocks.
#[derive(Clone, Copy, Debug, PartialEq, Eq)]
pub struct Census {
    /// The sizes of the volume.
    pub shape: VolumeShape,
    /// How many directories there are, the root among them.
    pub dirs: u32,
    /// How many files.
    pub files: u32,
    /// How many regions.
    pub regions: u32,
    /// How many blocks nodes have: pages and indirect blocks.
    pub used: u32,
    /// How many blocks are neither reserved nor some node's.
    pub free: u32,
}

/// Which node has a block.
#[derive(Clone, Copy, Debug, PartialEq, Eq)]
pub enum Owner {
    /// No node: the block is free or reserved.
    Nobody,
    /// This node has it as this page, counted from 0.
    PageOf(Ino, u32),
    /// This node has it as this block of block numbers. Block 0 of these is the indirect block.
    TableOf(Ino, u32),
}
