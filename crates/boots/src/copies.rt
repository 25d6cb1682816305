//! Copies of requests.

ghost use Rattle.std.specs.Prelude.{◌≡◌, IfOk};
ghost use Rattle.boots.specs.Copies.{with_lists};

use rio_base::Octets;
use rio_requests::Request;
use std::alloc::{AllocError, Global};

/// A request that is equal to this one. The error means that there was no room for its paths and bytes.
pub fn copy_request(alloc: Global, request: &Request) -> Result<Request, AllocError>
    ensures { IfOk result (λ copy. copy ≡ request.now) }
{
    let none = Octets::from(Vec::new(alloc));
    let (path, other) = lists_of(request, &none);
    let path = copy_octets(path)?;
    let other = copy_octets(other)?;
    Ok(request_of(request, path, other))
}

/// The path of a request, and its other path or its bytes. One that it does not have is `none`.
fn lists_of<'a>(request: &'a Request, none: &'a Octets) -> (&'a Octets, &'a Octets)
    ensures { with_lists result.0.now result.1.now request.now ≡ request.now }
{
    match request {
        Request::Mkdir { path }
        | Request::Create { path }
        | Request::Region { path, .. }
        | Request::Read { path, .. }
        | Request::Truncate { path, .. }
        | Request::Unlink { path }
        | Request::Rmdir { path }
        | Request::Stat { path }
        | Request::List { path }
        | Request::Begin { path }
        | Request::Range { path, .. }
        | Request::Get { path, .. }
        | Request::Alloc { path, .. }
        | Request::Free { path, .. }
        | Request::Commit { path }
        | Request::Abort { path } => (path, none),
        Request::Write { path, bytes, .. } | Request::Put { path, bytes, .. } => (path, bytes),
        Request::Rename { path, to } => (path, to),
        Request::Sync
        | Request::Txns
        | Request::Flush { .. }
        | Request::Wild { .. }
        | Request::Arm { .. } => (none, none),
    }
}

/// The request with these lists in place of its own.
fn request_of(request: &Request, path: Octets, other: Octets) -> Request
    ensures { result ≡ with_lists path other request.now }
{
    match *request {
        Request::Mkdir { .. } => Request::Mkdir { path },
        Request::Create { .. } => Request::Create { path },
        Request::Region {
            data_pages,
            undo_pages,
            ..
        } => Request::Region {
            path,
            data_pages,
            undo_pages,
        },
        Request::Write { off, .. } => Request::Write {
            path,
            off,
            bytes: other,
        },
        Request::Read { off, len, .. } => Request::Read { path, off, len },
        Request::Truncate { len, .. } => Request::Truncate { path, len },
        Request::Unlink { .. } => Request::Unlink { path },
        Request::Rmdir { .. } => Request::Rmdir { path },
        Request::Rename { .. } => Request::Rename { path, to: other },
        Request::Stat { .. } => Request::Stat { path },
        Request::List { .. } => Request::List { path },
        Request::Sync => Request::Sync,
        Request::Begin { .. } => Request::Begin { path },
        Request::Range { off, len, .. } => Request::Range { path, off, len },
        Request::Put { off, .. } => Request::Put {
            path,
            off,
            bytes: other,
        },
        Request::Get { off, len, .. } => Request::Get { path, off, len },
        Request::Alloc { units, .. } => Request::Alloc { path, units },
        Request::Free { at, .. } => Request::Free { path, at },
        Request::Commit { .. } => Request::Commit { path },
        Request::Abort { .. } => Request::Abort { path },
        Request::Txns => Request::Txns,
        Request::Flush { count } => Request::Flush { count },
        Request::Wild { at, value } => Request::Wild { at, value },
        Request::Arm { step, at, value } => Request::Arm { step, at, value },
    }
}

/// Bytes that are equal to these.
fn copy_octets(octets: &Octets) -> Result<Octets, AllocError>
    ensures { IfOk result (λ copy. copy ≡ octets.now) }
{
    octets.clone()
}
