//! Requests on files, drawn.

ghost use Rattle.std.specs.Prelude.{◌≡◌, IfOk};
ghost use Rattle.work_gen.specs.Requests.{read, rename, request, truncate, write};

use crate::bytes::rising_bytes;
use crate::generator::Gen;
use crate::names::{file_name, region_name};
use crate::region_requests::region_request;
use rio_requests::Request;
use std::alloc::{AllocError, Global};

/// How many files and regions the drawn requests name.
const FILES: u32 = 40;

const REGIONS: u32 = 4;

/// Draws a request.
pub fn drawn_request(draws: &mut Gen, alloc: Global) -> Result<Request, AllocError>
    ensures { IfOk result (λ r. request draws.old ≡ (draws.new, r)) }
{
    let kind = draws.draw() % 16;
    let n = draws.draw() % FILES;
    match kind {
        0..=2 => Ok(Request::Create {
            path: file_name(alloc, n)?,
        }),
        3..=7 => write_request(draws, alloc, n),
        8 | 9 => read_request(draws, alloc, n),
        10 => truncate_request(draws, alloc, n),
        11 => Ok(Request::Unlink {
            path: file_name(alloc, n)?,
        }),
        12 => rename_request(draws, alloc, n),
        13 => Ok(Request::Region {
            path: region_name(alloc, n % REGIONS)?,
            data_pages: 8,
            undo_pages: 4,
        }),
        14 => region_request(draws, alloc, n % REGIONS),
        _ => Ok(Request::Flush { count: 8 }),
    }
}

/// A write into file `n`.
fn write_request(draws: &mut Gen, alloc: Global, n: u32) -> Result<Request, AllocError>
    ensures { IfOk result (λ r. write n draws.old ≡ (draws.new, r)) }
{
    let off = u64::from(6 * draws.draw());
    let len = draws.draw() % 6000;
    let first = (draws.draw() % 256) as u8;
    let path = file_name(alloc, n)?;
    let bytes = rising_bytes(alloc, first, len as usize)?;
    Ok(Request::Write { path, off, bytes })
}

/// A read of file `n`.
fn read_request(draws: &mut Gen, alloc: Global, n: u32) -> Result<Request, AllocError>
    ensures { IfOk result (λ r. read n draws.old ≡ (draws.new, r)) }
{
    let off = u64::from(6 * draws.draw());
    let path = file_name(alloc, n)?;
    Ok(Request::Read {
        path,
        off,
        len: 4096,
    })
}

/// A new size of file `n`.
fn truncate_request(draws: &mut Gen, alloc: Global, n: u32) -> Result<Request, AllocError>
    ensures { IfOk result (λ r. truncate n draws.old ≡ (draws.new, r)) }
{
    let len = u64::from(6 * draws.draw());
    let path = file_name(alloc, n)?;
    Ok(Request::Truncate { path, len })
}

/// File `n` gets the name of a file that is drawn.
fn rename_request(draws: &mut Gen, alloc: Global, n: u32) -> Result<Request, AllocError>
    ensures { IfOk result (λ r. rename n draws.old ≡ (draws.new, r)) }
{
    let to = draws.draw() % FILES;
    let path = file_name(alloc, n)?;
    let to = file_name(alloc, to)?;
    Ok(Request::Rename { path, to })
}
