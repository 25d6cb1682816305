//! The paths that drawn requests name.

ghost use Rattle.std.specs.Prelude.{◌≡◌, IfOk};
ghost use Rattle.work_gen.specs.Requests.{file_path, region_path};

use rio_base::Octets;
use std::alloc::{AllocError, Global};

/// The path of file `n`.
pub fn file_name(alloc: Global, n: u32) -> Result<Octets, AllocError>
    ensures { IfOk result (λ path. path ≡ file_path n) }
{
    Ok(Octets::from(format!(in alloc; "/f{n}")?.into_bytes()))
}

/// The path of region `n`.
pub fn region_name(alloc: Global, n: u32) -> Result<Octets, AllocError>
    ensures { IfOk result (λ path. path ≡ region_path n) }
{
    Ok(Octets::from(format!(in alloc; "/r{n}")?.into_bytes()))
}
