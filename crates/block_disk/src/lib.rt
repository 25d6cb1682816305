//! Disks. The one in memory fails and crashes as it is told. The other is a file of a host.
#![tactic(auto)]

mod block_lists;
mod disk_choice;
mod disk_file;
mod host_disk;
mod host_disk_fail;
mod mem_disk;
mod pending;

pub use disk_choice::DiskChoice;
pub use host_disk::HostDisk;
pub use host_disk_fail::HostDiskFail;
pub use mem_disk::MemDisk;
