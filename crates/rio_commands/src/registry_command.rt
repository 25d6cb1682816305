//! The command `registry`: what an image's registry says, on the sink.

ghost use Rattle.std.specs.Prelude.{◌≡◌, ◌≤◌, IfOk, IfErr};
ghost use Rattle.std.specs.String.{string_bytes};
ghost use Rattle.rio_base.specs.Failures.{Rose};
ghost use Rattle.rio_model.specs.Registry.{HasLayout};
ghost use Rattle.pair_files.specs.Images.{HoldsImage};
ghost use Rattle.rio_commands.specs.Registry.{Lists, Misses, Writes, unlisted_end};

use crate::RegistryEnd;
use crate::registry_lines::tell_registry;
use crate::registry_listing::list_registry;
use block_disk::MemDisk;
use board::Board;
use pair_files::{LoadFail, board_of, load_image};
use phys_memory::Memory;
use request_codec::ROOM_BYTES;
use rio_base::{Host, Machine, Sink};
use rio_model::ImageRule;
use std::alloc::Global;

/// Looks whether an image keeps its rules, and lists its registry where it does. Answers the status: 0 where all lines
/// are written, 3 where the image breaks a rule, 6 where there is no memory for the image, 7 where there is no such file
/// or it could not be read, 9 where the sink refused a line. All memory is taken before anything is written.
pub fn show_registry<K: Sink, H: Host>(
    alloc: Global,
    image: &String,
    sink: &mut K,
    host: &mut H,
) -> u8
    ensures run { Lists (string_bytes image.now) result (Rose (H.faults host.old) (H.faults host.new)) (Rose (K.faults sink.old) (K.faults sink.new)) (H.files host.old) (K.written sink.old) (K.written sink.new) }
    ensures files { H.files host.new ≡ H.files host.old }
    ensures steady { result ≡ 0 → K.faults sink.new ≡ K.faults sink.old }
    ensures later { H.faults host.old ≤ H.faults host.new }
    ensures sink_later { K.faults sink.old ≤ K.faults sink.new }
{
    let mut room = [0u8; ROOM_BYTES];
    match find_board(alloc, image, host) {
        Ok(board) => list_board(&board, &mut room, sink),
        Err(end) => tell_registry(end, image, &mut room, sink),
    }
}

/// A machine with the words of an image that keeps all rules, or how the look at it ends.
fn find_board<H: Host>(
    alloc: Global,
    name: &String,
    host: &mut H,
) -> Result<Board<Memory, MemDisk>, RegistryEnd>
    ensures files { H.files host.new ≡ H.files host.old }
    ensures image { IfOk result (λ board. HoldsImage (H.files host.old) (string_bytes name.now) (⟦<Board<Memory, MemDisk> as Machine>⟧.contents board).words) }
    ensures layout { IfOk result (λ board. HasLayout (⟦<Board<Memory, MemDisk> as Machine>⟧.contents board).words (⟦<Board<Memory, MemDisk> as Machine>⟧.run board).scratch) }
    ensures ends { IfErr result (λ end. Misses end (string_bytes name.now) (Rose (H.faults host.old) (H.faults host.new)) (H.files host.old)) }
    ensures later { H.faults host.old ≤ H.faults host.new }
{
    match load_image(alloc, name, host) {
        Ok(image) => match board_of(alloc, &image.words, image.scratch) {
            Ok(board) => Ok(board),
            Err(_) => Err(RegistryEnd::Memory),
        },
        Err(fail) => Err(unlisted(fail)),
    }
}

/// How a look ends where no image is loaded. No image has a disk's length to fail.
fn unlisted(fail: LoadFail) -> RegistryEnd
    ensures { result ≡ unlisted_end fail }
{
    match fail {
        LoadFail::Absent(_) => RegistryEnd::Absent,
        LoadFail::BadImage(rule) => RegistryEnd::Refused(rule),
        LoadFail::BadLength => RegistryEnd::Refused(ImageRule::Length as u8),
        LoadFail::Fault(_) => RegistryEnd::HostFault,
        LoadFail::Memory => RegistryEnd::Memory,
    }
}

/// Lists a registry, and answers the status.
fn list_board<M: Machine, K: Sink>(m: &M, room: &mut [u8], sink: &mut K) -> u8
    requires layout { HasLayout (M.contents m.now).words (M.run m.now).scratch }
    ensures writes { Writes (M.contents m.now).words result (Rose (K.faults sink.old) (K.faults sink.new)) (K.written sink.old) (K.written sink.new) }
    ensures steady { result ≡ 0 → K.faults sink.new ≡ K.faults sink.old }
    ensures later { K.faults sink.old ≤ K.faults sink.new }
{
    match list_registry(m, room, sink) {
        Ok(()) => 0,
        Err(_) => 9,
    }
}
