//! The file of a disk: its words read, and its blocks written.

ghost use Rattle.std.specs.Prelude.{◌≡◌, ◌≢◌, ◌<◌, ◌≤◌, ◌↔◌, ◌+◌, ◌*◌, ◌^◌, ℕ, [], Some, IfOk, IfErr, IsTrue, OnOk, length, take, drop, slice_index};
ghost use Rattle.std.specs.String.{string_bytes};
ghost use Rattle.rio_base.specs.Bytes.{bytes_of};
ghost use Rattle.rio_base.specs.Failures.{HasCause, Rose};
ghost use Rattle.rio_base.specs.Hosts.{AsksFor, HasBytes, HasSize, IsFile};
ghost use Rattle.rio_base.specs.Memory.{page_at};
ghost use Rattle.block_disk.specs.HostDisks.{AreFileWords, FailsAs, FitsFile, HasBlock, IsDiskLength, IsLong, OnHost, around_of};

use crate::block_lists::BLOCK_WORDS;
use crate::host_disk_fail::HostDiskFail;
use crate::pending::PendingBlocks;
use byteorder::{ByteOrder, LittleEndian};
use rio_base::{Failed, Host, read_from};
use std::alloc::{AllocError, Global};

/// Bytes of a block.
pub const BLOCK_BYTES: usize = 4096;

/// The fewest blocks that a disk has.
const LEAST_BLOCKS: u64 = 4;

/// The most blocks that a disk has.
const MOST_BLOCKS: u64 = 32_768;

/// How many words of a file are read by one call, if it has as many.
const PIECE_WORDS: usize = 131_072;

/// How many words a file has that can be a disk.
#[tactic(auto, using(crate::proofs::HostFiles::size_words, crate::proofs::HostFiles::length_words))]
pub fn count_words<H: Host>(name: &String, host: &mut H) -> Result<usize, HostDiskFail>
    ensures files { H.files host.new ≡ H.files host.old }
    ensures size { IfOk result (λ n. HasSize (H.files host.old) (string_bytes name.now) (Some (8 * n))) }
    ensures long { IfOk result (λ n. IsDiskLength (8 * n)) }
    ensures fails { IfErr result (λ fail. FailsAs fail (H.files host.old) (string_bytes name.now) (Rose (H.faults host.old) (H.faults host.new))) }
    ensures asked { AsksFor (string_bytes name.now) (H.asked host.old) (H.asked host.new) }
    ensures later { H.faults host.old ≤ H.faults host.new }
{
    match host.size(name) {
        Ok(Some(size)) => {
            if !is_disk_length(size) {
                return Err(HostDiskFail::BadLength);
            }
            Ok(size as usize / 8)
        }
        Ok(None) => Err(HostDiskFail::Absent),
        Err(_) => Err(HostDiskFail::Fault),
    }
}

/// Whether a file of so many bytes can be a disk.
fn is_disk_length(size: u64) -> bool
    ensures { IsTrue result ↔ IsDiskLength size }
{
    let block = BLOCK_BYTES as u64;
    size % block == 0 && block * LEAST_BLOCKS <= size && size <= block * MOST_BLOCKS
}

/// The words of a file that has so many. It is read by pieces, so that there is never room for all its bytes beside them.
pub fn read_words<H: Host>(
    alloc: Global,
    name: &String,
    count: usize,
    host: &mut H,
) -> Result<Vec<u64>, HostDiskFail>
    requires size { HasSize (H.files host.old) (string_bytes name.now) (Some (8 * count)) }
    requires long { IsDiskLength (8 * count) }
    ensures files { H.files host.new ≡ H.files host.old }
    ensures words { IfOk result (λ words. AreFileWords (H.files host.old) (string_bytes name.now) words.items) }
    ensures count { IfOk result (λ words. length words.items ≡ count) }
    ensures fails { IfErr result (λ fail. FailsAs fail (H.files host.old) (string_bytes name.now) (Rose (H.faults host.old) (H.faults host.new))) }
    ensures asked { AsksFor (string_bytes name.now) (H.asked host.old) (H.asked host.new) }
    ensures later { H.faults host.old ≤ H.faults host.new }
{
    let Ok((mut words, mut room)) = rooms(alloc, count) else {
        return Err(HostDiskFail::Memory);
    };
    read_pieces(name, &mut words, &mut room, host)?;
    words_fit(&words);
    Ok(words)
}

/// Fills words with those of a file that has as many, by pieces whose bytes `room` has place for.
#[tactic(auto, using(crate::proofs::HostFiles::long_enough, crate::proofs::FileReads::front_none, crate::proofs::FileReads::front_more, crate::proofs::FileReads::front_all))]
fn read_pieces<H: Host>(
    name: &String,
    words: &mut [u64],
    room: &mut [u8],
    host: &mut H,
) -> Result<(), HostDiskFail>
    requires size { HasSize (H.files host.old) (string_bytes name.now) (Some (8 * length words.old)) }
    requires most { length words.old < 2 ^ 32 }
    requires room { (8 ≤ length room.old) × (length room.old < 2 ^ 32) }
    ensures files { H.files host.new ≡ H.files host.old }
    ensures bytes { OnOk result (IsFile (H.files host.old) (string_bytes name.now) (bytes_of words.new)) }
    ensures count { length words.new ≡ length words.old }
    ensures fails { IfErr result (λ fail. FailsAs fail (H.files host.old) (string_bytes name.now) (Rose (H.faults host.old) (H.faults host.new))) }
    ensures asked { AsksFor (string_bytes name.now) (H.asked host.old) (H.asked host.new) }
    ensures later { H.faults host.old ≤ H.faults host.new }
{
    let mut done = 0;
    'pieces: while done < words.len() {
        let n = (words.len() - done).min(room.len() / 8);
        read_piece(name, done, n, words, &mut room[..8 * n], host)?;
        done += n;
    }
    Ok(())
}

/// Room for so many words, and for the bytes of a piece of them.
fn rooms(alloc: Global, count: usize) -> Result<(Vec<u64>, Vec<u8>), AllocError>
    requires { (0 < count) × (count < 2 ^ 32) }
    ensures words { IfOk result (λ rooms. length rooms.0.items ≡ count) }
    ensures room { IfOk result (λ rooms. (8 ≤ length rooms.1.items) × (length rooms.1.items < 2 ^ 32)) }
{
    let words = vec![in alloc; 0u64; count]?;
    let room = vec![in alloc; 0u8; 8 * count.min(PIECE_WORDS)]?;
    Ok((words, room))
}

/// Words have 64 bits.
pub fn words_fit(words: &[u64])
    ensures { (i : ℕ) → slice_index words.now i < 2 ^ 64 }
{}

/// Reads `n` words of a file, from place `done` on, to the same place. `room` has their bytes.
#[tactic(auto, using(crate::proofs::FileReads::mid_words, crate::proofs::FileReads::mid_front))]
fn read_piece<H: Host>(
    name: &String,
    done: usize,
    n: usize,
    words: &mut [u64],
    room: &mut [u8],
    host: &mut H,
) -> Result<(), HostDiskFail>
    requires within { done + n ≤ length words.old }
    requires most { length words.old < 2 ^ 32 }
    requires room { length room.old ≡ 8 * n }
    requires file { IsLong (H.files host.old) (string_bytes name.now) (8 * length words.old) }
    ensures files { H.files host.new ≡ H.files host.old }
    ensures bytes { OnOk result (HasBytes (H.files host.old) (string_bytes name.now) (8 * done) (bytes_of (take n (drop done words.new)))) }
    ensures front { take done words.new ≡ take done words.old }
    ensures count { length words.new ≡ length words.old }
    ensures room { length room.new ≡ length room.old }
    ensures fails { IfErr result (λ fail. FailsAs fail (H.files host.old) (string_bytes name.now) (Rose (H.faults host.old) (H.faults host.new))) }
    ensures asked { AsksFor (string_bytes name.now) (H.asked host.old) (H.asked host.new) }
    ensures later { H.faults host.old ≤ H.faults host.new }
{
    fill_piece(name, 8 * done as u64, room, host)?;
    put_words(room, &mut words[done..done + n]);
    Ok(())
}

/// Fills a room with a file's bytes from byte `off` on. Where fewer came the file was made shorter meanwhile.
#[tactic(auto, using(crate::proofs::HostFiles::short_read))]
fn fill_piece<H: Host>(
    name: &String,
    off: u64,
    into: &mut [u8],
    host: &mut H,
) -> Result<(), HostDiskFail>
    requires within { off + length into.old < 2 ^ 64 }
    requires file { IsLong (H.files host.old) (string_bytes name.now) (off + length into.old) }
    ensures files { H.files host.new ≡ H.files host.old }
    ensures bytes { OnOk result (HasBytes (H.files host.old) (string_bytes name.now) off into.new) }
    ensures room { length into.new ≡ length into.old }
    ensures fails { IfErr result (λ fail. FailsAs fail (H.files host.old) (string_bytes name.now) (Rose (H.faults host.old) (H.faults host.new))) }
    ensures asked { AsksFor (string_bytes name.now) (H.asked host.old) (H.asked host.new) }
    ensures later { H.faults host.old ≤ H.faults host.new }
{
    match read_from(name, off, into, host) {
        Ok(count) => {
            if count < into.len() {
                return Err(HostDiskFail::BadLength);
            }
            Ok(())
        }
        Err(_) => Err(HostDiskFail::Fault),
    }
}

/// Puts the words of bytes into `into`.
fn put_words(bytes: &[u8], into: &mut [u64])
    requires { length bytes.now ≡ 8 * length into.old }
    ensures bytes { bytes.now ≡ bytes_of into.new }
    ensures count { length into.new ≡ length into.old }
{
    LittleEndian::read_u64_into(bytes, into);
}

/// Writes a block of these words to the file. `room` has a block's bytes. After `Failed` the file may have any bytes there.
#[tactic(auto, using(crate::proofs::FileBlocks::written_fits, crate::proofs::FileBlocks::written_here, crate::proofs::FileBlocks::written_others, crate::proofs::FileBlocks::torn_fits, crate::proofs::FileBlocks::torn_others, crate::proofs::HostFiles::around_written, crate::proofs::HostFiles::around_torn))]
pub fn write_block<H: Host>(
    name: &String,
    words: &[u64],
    b: usize,
    room: &mut [u8],
    host: &mut H,
) -> Result<(), Failed>
    requires block { 512 * b + 512 ≤ length words.now }
    requires most { length words.now < 2 ^ 32 }
    requires room { length room.old ≡ 4096 }
    requires fits { FitsFile (H.files host.old) (string_bytes name.now) words.now }
    ensures room { length room.new ≡ 4096 }
    ensures fits { FitsFile (H.files host.new) (string_bytes name.now) words.now }
    ensures here { OnOk result (HasBlock (H.files host.new) (string_bytes name.now) words.now b) }
    ensures others { (c : ℕ) → c ≢ b → HasBlock (H.files host.old) (string_bytes name.now) words.now c → HasBlock (H.files host.new) (string_bytes name.now) words.now c }
    ensures around { around_of (H.files host.new) (H.asked host.new) (string_bytes name.now) ≡ around_of (H.files host.old) (H.asked host.old) (string_bytes name.now) }
    ensures cause { HasCause result (H.faults host.old) (H.faults host.new) }
{
    fill_room(words, b, room);
    host.write_at(name, (BLOCK_BYTES * b) as u64, room)?;
    Ok(())
}

/// Puts the bytes of a block of these words into a room.
#[tactic(auto, using(crate::proofs::FileBlocks::own_bytes))]
fn fill_room(words: &[u64], b: usize, room: &mut [u8])
    requires block { 512 * b + 512 ≤ length words.now }
    requires most { length words.now < 2 ^ 32 }
    requires room { length room.old ≡ 4096 }
    ensures bytes { room.new ≡ bytes_of (page_at words.now b) }
    ensures room { length room.new ≡ 4096 }
{
    let from = BLOCK_WORDS * b;
    LittleEndian::write_u64_into(&words[from..from + BLOCK_WORDS], room);
}

/// Writes each marked block to the file, until a write fails.
pub fn write_marked<H: Host>(
    name: &String,
    words: &[u64],
    marked: &PendingBlocks,
    room: &mut [u8],
    host: &mut H,
) -> Result<(), Failed>
    requires most { length words.now < 2 ^ 32 }
    requires marks { 512 * length marked.now.marks.items ≡ length words.now }
    requires room { length room.old ≡ 4096 }
    requires file { OnHost (H.files host.old) (string_bytes name.now) words.now marked.now.marks.items }
    ensures room { length room.new ≡ 4096 }
    ensures file { OnHost (H.files host.new) (string_bytes name.now) words.now marked.now.marks.items }
    ensures all { OnOk result (OnHost (H.files host.new) (string_bytes name.now) words.now []) }
    ensures around { around_of (H.files host.new) (H.asked host.new) (string_bytes name.now) ≡ around_of (H.files host.old) (H.asked host.old) (string_bytes name.now) }
    ensures cause { HasCause result (H.faults host.old) (H.faults host.new) }
{
    let numbers = marked.numbers();
    for i in 0..numbers.len() {
        write_block(name, words, numbers[i] as usize, room, host)?;
    }
    Ok(())
}
