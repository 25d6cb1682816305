//! The command `format`: a fresh memory image and a fresh volume, as two files.

ghost use Rattle.std.specs.Prelude.{◌≡◌, ◌≤◌, ℕ, IfOk, String as StringOf, List};
ghost use Rattle.std.specs.String.{string_bytes};
ghost use Rattle.rio_base.specs.Image.{AreImageSizes, image_pages};
ghost use Rattle.rio_base.specs.Shapes.{IsServed};
ghost use Rattle.rio_base.specs.Failures.{Rose};
ghost use Rattle.rio_commands.specs.Command.{host_fault_line};
ghost use Rattle.rio_commands.specs.Format.{Formats, IsPrepared, files_after, format_status, format_line, image_bytes, disk_bytes};

use crate::say;
use image_codec::{fresh_image, fresh_volume, write_image};
use rio_base::{BLOCK_WORDS, Host, Sink, VolumeShape};
use std::alloc::{AllocError, Global};

/// The sizes of a fresh memory image and a fresh volume.
#[derive(Clone, Copy, Debug, PartialEq, Eq)]
pub struct FormatSizes {
    /// The image's frames, from 32 to 8,192.
    pub frames: u32,
    /// The image's scratch pages, from 1 to 64.
    pub scratch: u32,
    /// The volume's blocks and inodes.
    pub shape: VolumeShape,
}

/// The files and the sizes of a fresh pair.
#[derive(Clone, Copy)]
pub struct PairPlan<'a> {
    /// The name of the memory image's file.
    pub image: &'a String,
    /// The name of the volume's file.
    pub disk: &'a String,
    /// The sizes of both.
    pub sizes: FormatSizes,
}

/// The bytes of both files, and what can be said in the end. All memory is taken before a file is touched.
#[derive(Drop)]
pub struct FreshPair {
    /// The bytes of the memory image.
    image: Vec<u8>,
    /// The bytes of the volume.
    disk: Vec<u8>,
    /// What is said where both are written.
    formatted: String,
    /// What is said where the image isn't.
    image_fault: String,
    /// What is said where the volume isn't.
    disk_fault: String,
}

/// How formatting ended.
#[derive(Clone, Copy, Debug, PartialEq, Eq)]
pub enum FormatEnd {
    /// Both files are written.
    Formatted,
    /// The volume's file could not be replaced.
    DiskFault,
    /// The memory image's file could not be replaced.
    ImageFault,
    /// There was no memory for the pair.
    Memory,
}

/// Writes a fresh pair of files, DISK first, and a line on how it went. Answers the status: 0 where both are written, 6
/// where there is no memory for the pair, 7 where a file could not be replaced.
pub fn format<K: Sink, H: Host>(
    alloc: Global,
    plan: &PairPlan<'_>,
    sink: &mut K,
    host: &mut H,
) -> u8
    requires image { AreImageSizes plan.now.sizes.frames plan.now.sizes.scratch }
    requires volume { IsServed plan.now.sizes.shape }
    ensures run { Formats (string_bytes plan.now.image.now) (string_bytes plan.now.disk.now) plan.now.sizes result (Rose (K.faults sink.old) (K.faults sink.new)) (H.files host.old) (H.files host.new) (K.written sink.old) (K.written sink.new) }
    ensures cause { result ≡ 7 → Rose (H.faults host.old) (H.faults host.new) }
    ensures later { H.faults host.old ≤ H.faults host.new }
    ensures sink_later { K.faults sink.old ≤ K.faults sink.new }
{
    let Ok(pair) = prepare(alloc, plan) else {
        return say(b"out of memory\n", 6, sink);
    };
    match write_pair(&pair, plan, host) {
        FormatEnd::Formatted => say(pair.formatted.as_bytes(), 0, sink),
        FormatEnd::DiskFault => say(pair.disk_fault.as_bytes(), 7, sink),
        FormatEnd::ImageFault => say(pair.image_fault.as_bytes(), 7, sink),
        FormatEnd::Memory => say(b"out of memory\n", 6, sink),
    }
}

/// The fresh pair of these sizes.
fn prepare(alloc: Global, plan: &PairPlan<'_>) -> Result<FreshPair, AllocError>
    requires image { AreImageSizes plan.now.sizes.frames plan.now.sizes.scratch }
    requires volume { IsServed plan.now.sizes.shape }
    ensures { IfOk result (λ pair. IsPrepared pair (string_bytes plan.now.image.now) (string_bytes plan.now.disk.now) plan.now.sizes) }
{
    let disk = disk_of(alloc, &plan.sizes)?;
    let (image, pages) = image_of(alloc, &plan.sizes)?;
    let blocks = plan.sizes.shape.blocks;
    Ok(FreshPair {
        image,
        disk,
        formatted: format!(in alloc; "formatted {pages} pages {blocks} blocks\n")?,
        image_fault: host_fault(alloc, plan.image)?,
        disk_fault: host_fault(alloc, plan.disk)?,
    })
}

/// The bytes of a fresh volume.
fn disk_of(alloc: Global, sizes: &FormatSizes) -> Result<Vec<u8>, AllocError>
    requires { IsServed sizes.now.shape }
    ensures { IfOk result (λ bytes. bytes.items ≡ disk_bytes sizes.now) }
{
    let words = fresh_volume(alloc, &sizes.shape)?;
    write_image(alloc, words.as_slice())
}

/// The bytes of a fresh memory image, and its pages.
fn image_of(alloc: Global, sizes: &FormatSizes) -> Result<(Vec<u8>, usize), AllocError>
    requires { AreImageSizes sizes.now.frames sizes.now.scratch }
    ensures value { IfOk result (λ image. image.0.items ≡ image_bytes sizes.now) }
    ensures pages { IfOk result (λ image. image.1 ≡ image_pages sizes.now.frames sizes.now.scratch) }
{
    let words = fresh_image(alloc, sizes.frames, sizes.scratch)?;
    let pages = words.len() / BLOCK_WORDS;
    Ok((write_image(alloc, words.as_slice())?, pages))
}

/// What is said where a file could not be replaced.
fn host_fault(alloc: Global, name: &String) -> Result<String, AllocError>
    ensures { IfOk result (λ line. string_bytes line ≡ host_fault_line (string_bytes name.now)) }
{
    format!(in alloc; "host fault: {name}\n")
}

/// Writes both files, the volume first.
fn write_pair<H: Host>(pair: &FreshPair, plan: &PairPlan<'_>, host: &mut H) -> FormatEnd
    ensures files { H.files host.new ≡ files_after result (string_bytes plan.now.image.now) (string_bytes plan.now.disk.now) pair.now.image.items pair.now.disk.items (H.files host.old) }
    ensures cause { format_status result ≡ 7 → Rose (H.faults host.old) (H.faults host.new) }
    ensures later { H.faults host.old ≤ H.faults host.new }
{
    if host.replace(plan.disk, pair.disk.as_slice()).is_err() {
        return FormatEnd::DiskFault;
    }
    if host.replace(plan.image, pair.image.as_slice()).is_err() {
        return FormatEnd::ImageFault;
    }
    FormatEnd::Formatted
}
