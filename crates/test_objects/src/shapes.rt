//! The sizes of volumes that more than one layer's tests begin with.

use rio_base::VolumeShape;

/// A volume of 256 blocks, four of them reserved.
pub const SHAPE: VolumeShape = VolumeShape {
    version: 1,
    blocks: 256,
    inodes: 64,
};

/// A volume that has room for the largest file.
pub const LARGE: VolumeShape = VolumeShape {
    version: 1,
    blocks: 2048,
    inodes: 64,
};
