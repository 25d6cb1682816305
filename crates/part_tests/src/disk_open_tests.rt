//! Which files are disks, and what is told of one that is none.

use crate::disk_rig::{host_of, open};
use crate::same::same;
use block_disk::HostDiskFail;
use rio_base::{DiskBlocks, Host};
use std::test::Fail;

/// How many bytes the file has, or `None` for no file; which call of the host fails, or 0; how many blocks the disk has, or
/// why there is none; and how many faults were counted. The first call asks for the size, and the second reads: where the
/// second is to fail and no fault comes, nothing was read.
static ROWS: [(Option<usize>, u64, Result<u32, HostDiskFail>, u64); 14] = [
    (None, 0, Err(HostDiskFail::Absent), 0),
    (None, 2, Err(HostDiskFail::Absent), 0),
    (None, 1, Err(HostDiskFail::Fault), 1),
    (Some(0), 2, Err(HostDiskFail::BadLength), 0),
    (Some(12_288), 2, Err(HostDiskFail::BadLength), 0),
    (Some(16_383), 2, Err(HostDiskFail::BadLength), 0),
    (Some(16_384), 0, Ok(4), 0),
    (Some(16_384), 1, Err(HostDiskFail::Fault), 1),
    (Some(16_384), 2, Err(HostDiskFail::Fault), 1),
    (Some(16_384), 3, Ok(4), 0),
    (Some(16_385), 2, Err(HostDiskFail::BadLength), 0),
    (Some(1_048_576), 3, Ok(256), 0),
    (Some(1_052_672), 3, Err(HostDiskFail::Fault), 1),
    (Some(1_052_672), 4, Ok(257), 0),
];

#[test]
fn files_are_disks_by_their_length(rt: HostRuntime) -> Result<(), Fail> {
    let alloc = rt.alloc();
    for row in 0..ROWS.len() {
        let (size, failing, due, faults) = ROWS[row];
        let bytes = vec![in alloc; 7u8; size.unwrap_or(0)]?;
        let host = host_of(alloc, size.map(|_| bytes.as_slice()), &[failing])?;
        let came = match open(alloc, host)? {
            Ok(disk) => (Ok(disk.count()), disk.faults()),
            Err((host, fail)) => (Err(fail), host.faults()),
        };
        same(&rt, "opened", row, &came, &(due, faults));
    }
    Ok(())
}
