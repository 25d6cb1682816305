//! Requests on transactions of regions, drawn.

ghost use Rattle.std.specs.Prelude.{◌≡◌, IfOk};
ghost use Rattle.work_gen.specs.Requests.{on_region, range, put, alloc as alloc_of};

use crate::bytes::equal_bytes;
use crate::generator::Gen;
use crate::names::region_name;
use rio_requests::Request;
use std::alloc::{AllocError, Global};

/// A request on region `n`.
pub fn region_request(draws: &mut Gen, alloc: Global, n: u32) -> Result<Request, AllocError>
    ensures { IfOk result (λ r. on_region n draws.old ≡ (draws.new, r)) }
{
    match draws.draw() % 6 {
        0 => Ok(Request::Begin {
            path: region_name(alloc, n)?,
        }),
        1 => range_request(draws, alloc, n),
        2 => put_request(draws, alloc, n),
        3 => alloc_request(draws, alloc, n),
        4 => Ok(Request::Commit {
            path: region_name(alloc, n)?,
        }),
        _ => Ok(Request::Abort {
            path: region_name(alloc, n)?,
        }),
    }
}

/// A range of 64 bytes of region `n`.
fn range_request(draws: &mut Gen, alloc: Global, n: u32) -> Result<Request, AllocError>
    ensures { IfOk result (λ r. range n draws.old ≡ (draws.new, r)) }
{
    let off = u64::from(64 * (draws.draw() % 64));
    let path = region_name(alloc, n)?;
    Ok(Request::Range { path, off, len: 64 })
}

/// One byte eight times into region `n`.
fn put_request(draws: &mut Gen, alloc: Global, n: u32) -> Result<Request, AllocError>
    ensures { IfOk result (λ r. put n draws.old ≡ (draws.new, r)) }
{
    let off = u64::from(64 * (draws.draw() % 64));
    let byte = (draws.draw() % 256) as u8;
    let path = region_name(alloc, n)?;
    let bytes = equal_bytes(alloc, byte)?;
    Ok(Request::Put { path, off, bytes })
}

/// A block of 1 to 64 units of the heap of region `n`.
fn alloc_request(draws: &mut Gen, alloc: Global, n: u32) -> Result<Request, AllocError>
    ensures { IfOk result (λ r. alloc_of n draws.old ≡ (draws.new, r)) }
{
    let units = u64::from(1 + draws.draw() % 64);
    let path = region_name(alloc, n)?;
    Ok(Request::Alloc { path, units })
}
