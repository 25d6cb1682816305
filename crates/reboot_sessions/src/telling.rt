//! How reboots and looks are told.

use crate::machines::Ended;
use rio_model::Census;
use std::alloc::AllocError;
use test_scripts::tell_line;
use warm_reboot::{BootFail, BootReport};

/// Tells how a reboot ended.
pub fn tell_end(out: &mut Vec<u8>, end: &Ended) -> Result<(), AllocError> {
    match end {
        Ok(report) => tell_report(out, report),
        Err(fail) => tell_fail(out, fail),
    }
}

/// Tells what a look at a pair found.
pub fn tell_found(out: &mut Vec<u8>, found: &Result<Census, BootFail>) -> Result<(), AllocError> {
    match found {
        Ok(census) => tell_census(out, census),
        Err(fail) => tell_fail(out, fail),
    }
}

/// Tells what a reboot did.
fn tell_report(out: &mut Vec<u8>, report: &BootReport) -> Result<(), AllocError> {
    let told = format!(in *out.allocator();
        "meta {} pages {} stale {} undone {}",
        report.meta, report.pages, report.stale, report.undone
    )?;
    tell_line(out, told.as_bytes())
}

/// Tells what there is on a volume.
fn tell_census(out: &mut Vec<u8>, census: &Census) -> Result<(), AllocError> {
    let told = format!(in *out.allocator();
        "sound dirs {} files {} regions {} used {} free {}",
        census.dirs, census.files, census.regions, census.used, census.free
    )?;
    tell_line(out, told.as_bytes())
}

/// Tells why a reboot or a look failed.
fn tell_fail(out: &mut Vec<u8>, fail: &BootFail) -> Result<(), AllocError> {
    let told = format!(in *out.allocator(); "{fail}")?;
    tell_line(out, told.as_bytes())
}
