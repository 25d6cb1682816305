//! The volumes that a script names.

use crate::large_volume::{LargeVolume, Run};
use anyhow::Result;
use rio_base::VolFail;
use std::alloc::Global;
use test_scripts::{first_word, numbers};

/// The most pages of a node.
const MOST_PAGES: u32 = 1048;

/// Bytes of a page.
const PAGE_BYTES: u64 = 4096;

/// Bytes of an entry of a directory.
const ENTRY_BYTES: u64 = 64;

/// Entries of a page.
const PAGE_ENTRIES: u32 = 64;

/// The volume that a line of the script names, if it names one.
pub(crate) fn volume_of(alloc: Global, line: &str) -> Result<Option<LargeVolume>> {
    let (word, rest) = first_word(line);
    let [blocks, inodes, _] = match word {
        "files" | "entries" | "numbers" => numbers(rest)?,
        _ => return Ok(None),
    };
    let blocks = blocks.min(32_768) as u32;
    let inodes = inodes.min(32_768) as u32;
    let mut v = LargeVolume::new(alloc, blocks, inodes)?;
    match word {
        "files" => fill_with_files(&mut v, inodes)?,
        "entries" => fill_with_entries(&mut v, inodes)?,
        _ => number_all(&mut v, inodes)?,
    }
    v.mark_all()?;
    Ok(Some(v))
}

/// Each inode but the root is a file that has a name there, of a page each until no block is left.
fn fill_with_files(v: &mut LargeVolume, inodes: u32) -> Result<(), VolFail> {
    let names = inodes.saturating_sub(1);
    let root = v.put_node(1, 1, u64::from(names) * ENTRY_BYTES)?;
    for k in 0..names {
        let i = k.saturating_add(2);
        put_entry(v, root, k, i)?;
        let size = if v.left() > 0 { PAGE_BYTES } else { 0 };
        v.put_node(i, 2, size)?;
    }
    Ok(())
}

/// As many directories as there are blocks for, each of the largest size but the last. Their names differ in their last bytes
/// alone, are in no order, and name the directories in turn.
fn fill_with_entries(v: &mut LargeVolume, inodes: u32) -> Result<(), VolFail> {
    let dirs = (v.left() / (MOST_PAGES + 1)).min(inodes.saturating_sub(1));
    for k in 0..dirs {
        put_directory(v, k.saturating_add(1), MOST_PAGES, dirs)?;
    }
    let pages = v.left().saturating_sub(1).min(MOST_PAGES);
    put_directory(v, dirs.saturating_add(1), pages, dirs)
}

/// Makes inode `i` a directory of so many pages that are full of entries, which name the first `dirs` inodes in turn.
fn put_directory(v: &mut LargeVolume, i: u32, pages: u32, dirs: u32) -> Result<(), VolFail> {
    let run = v.put_node(i, 1, u64::from(pages) * PAGE_BYTES)?;
    for j in 0..pages.saturating_mul(PAGE_ENTRIES) {
        put_entry(v, run, j, 1 + j % dirs.max(1))?;
    }
    Ok(())
}

/// Stores entry `j` of a directory: a name of 56 bytes for inode `i`.
fn put_entry(v: &mut LargeVolume, run: Run, j: u32, i: u32) -> Result<(), VolFail> {
    let at = j.saturating_mul(8);
    v.put_in(run, at, 56 << 32 | u64::from(i))?;
    for w in 1..7 {
        v.put_in(run, at.saturating_add(w), 0x6161_6161_6161_6161)?;
    }
    v.put_in(
        run,
        at.saturating_add(7),
        letters(j.wrapping_mul(2_654_435_761)),
    )
}

/// The eight letters that a number is told by, each of them one of sixteen.
fn letters(n: u32) -> u64 {
    let mut word: u64 = 0;
    let mut rest = u64::from(n);
    for _ in 0..8 {
        word = word << 8 | (0x61 + rest % 16);
        rest /= 16;
    }
    word
}

/// Each inode is of the largest size, and each number is that of the first block that is not reserved.
fn number_all(v: &mut LargeVolume, inodes: u32) -> Result<(), VolFail> {
    let b = u64::from(v.next());
    for w in 0..512u16 {
        v.put(v.next(), w, b << 32 | b)?;
    }
    for k in 0..inodes {
        let i = k.saturating_add(1);
        v.put_inode(i, 0, if i == 1 { 1 } else { 2 })?;
        v.put_inode(i, 1, u64::from(MOST_PAGES) * PAGE_BYTES)?;
        for w in 2..15u16 {
            v.put_inode(i, w, b << 32 | b)?;
        }
    }
    Ok(())
}
