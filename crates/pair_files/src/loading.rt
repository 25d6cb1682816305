//! A pair of files, loaded.

ghost use Rattle.std.specs.Prelude.{◌≡◌, ◌≤◌, IfOk, IfErr};
ghost use Rattle.std.specs.String.{string_bytes};
ghost use Rattle.rio_base.specs.Failures.{Rose};
ghost use Rattle.pair_files.specs.Loads.{IsDiskLoaded, IsImageLoaded, Misses, MissesDisk, disk_failure};

use crate::failures::LoadFail;
use crate::image_file::{PairImage, load_image};
use crate::names::{PairFile, PairNames};
use block_disk::{HostDisk, HostDiskFail};
use rio_base::{DiskBlocks, Host};
use std::alloc::Global;

/// A pair of files that was loaded: the image, and the disk that has the host from then on.
pub struct LoadedPair<H: Host> {
    /// The image, which keeps its rules.
    pub image: PairImage,
    /// The disk. Nothing of it is pending.
    pub disk: HostDisk<H>,
}

/// Loads a pair of files. Nothing is asked of the disk's file before the image was found to keep its rules, and nothing is
/// looked at in it: of the volume's rules only its length is known. After an error the host is given back, and its files are as
/// before.
pub fn load_pair<H: Host>(
    alloc: Global,
    names: &PairNames<'_>,
    host: H,
) -> Result<LoadedPair<H>, (H, LoadFail)>
    ensures image { IfOk result (λ pair. IsImageLoaded (H.files host) (string_bytes names.now.image.now) pair.image.bytes.items pair.image.words.items pair.image.scratch) }
    ensures disk { IfOk result (λ pair. IsDiskLoaded (H.files host) (string_bytes names.now.disk.now) (⟦<HostDisk<H> as DiskBlocks>⟧.contents pair.disk)) }
    ensures later { IfOk result (λ pair. H.faults host ≤ (⟦<HostDisk<H> as DiskBlocks>⟧.contents pair.disk).faults.count) }
    ensures fails { IfErr result (λ e. Misses e.1 (string_bytes names.now.image.now) (string_bytes names.now.disk.now) (Rose (H.faults host) (H.faults e.0)) (H.files host)) }
    ensures back { IfErr result (λ e. H.files e.0 ≡ H.files host) }
    ensures counted { IfErr result (λ e. H.faults host ≤ H.faults e.0) }
{
    let mut host = host;
    let image = match load_image(alloc, names.image, &mut host) {
        Ok(image) => image,
        Err(fail) => return Err((host, fail)),
    };
    match load_disk(alloc, names.disk, host) {
        Ok(disk) => Ok(LoadedPair { image, disk }),
        Err((host, fail)) => Err((host, fail)),
    }
}

/// Loads the disk that is this file.
fn load_disk<H: Host>(alloc: Global, name: &String, host: H) -> Result<HostDisk<H>, (H, LoadFail)>
    ensures disk { IfOk result (λ disk. IsDiskLoaded (H.files host) (string_bytes name.now) (⟦<HostDisk<H> as DiskBlocks>⟧.contents disk)) }
    ensures later { IfOk result (λ disk. H.faults host ≤ (⟦<HostDisk<H> as DiskBlocks>⟧.contents disk).faults.count) }
    ensures fails { IfErr result (λ e. MissesDisk e.1 (string_bytes name.now) (Rose (H.faults host) (H.faults e.0)) (H.files host)) }
    ensures back { IfErr result (λ e. H.files e.0 ≡ H.files host) }
    ensures counted { IfErr result (λ e. H.faults host ≤ H.faults e.0) }
{
    let Ok(name) = String::from_str(alloc, name) else {
        return Err((host, LoadFail::Memory));
    };
    match HostDisk::new(alloc, host, name) {
        Ok(disk) => Ok(disk),
        Err((host, fail)) => Err((host, failure_of(fail))),
    }
}

/// Why no disk was loaded, by why none was made.
fn failure_of(fail: HostDiskFail) -> LoadFail
    ensures { result ≡ disk_failure fail }
{
    match fail {
        HostDiskFail::Absent => LoadFail::Absent(PairFile::Disk),
        HostDiskFail::BadLength => LoadFail::BadLength,
        HostDiskFail::Fault => LoadFail::Fault(PairFile::Disk),
        HostDiskFail::Memory => LoadFail::Memory,
    }
}
