//! The image of a machine, saved.

ghost use Rattle.std.specs.Prelude.{◌≡◌, ◌<◌, ◌≤◌, ◌+◌, ◌*◌, ◌^◌, ◌++◌, ℕ, List, Option, Some, false, true, length, take, drop, slice_index};
ghost use Rattle.std.specs.String.{string_bytes};
ghost use Rattle.block_disk.specs.HostDisks.{around_of};
ghost use Rattle.rio_base.specs.Bytes.{bytes_of};
ghost use Rattle.rio_base.specs.Failures.{HasCause};
ghost use Rattle.rio_base.specs.Hosts.{Asked, Files};
ghost use Rattle.machine_bench.specs.Benches.{left_by};
ghost use Rattle.pair_files.specs.Saves.{Leaves, Replaces};

use block_disk::HostDisk;
use image_codec::fill_image;
use machine_bench::Bench;
use rio_base::{Failed, Host, Machine, Page};

/// The bytes of a page.
const PAGE_BYTES: usize = 4096;

/// Takes a machine back and saves its image: the words go into this file, in place of those that it has. `bytes` has 8 for each
/// word, and no memory is taken. The host is handed back. Where the saving fails, the file is as before.
pub(crate) fn save<H: Host, B: Bench<HostDisk<H>>>(
    machine: B::M,
    image: &String,
    bytes: Vec<u8>,
    bench: &mut B,
) -> (Result<(), Failed>, H)
    requires pages { (n : ℕ) × (B.pages bench.old ≡ Some n) × (512 * n ≡ length (B.M.contents machine).words + length (B.M.run machine).scratch) }
    requires unparted { B.parted bench.old ≡ false }
    requires bytes { length bytes.items ≡ 8 * (length (B.M.contents machine).words + length (B.M.run machine).scratch) }
    ensures files { (told : Option Files) (asked : Asked) (disk : List ℕ) → (B.M.contents machine).around ≡ around_of told asked disk → (left : Option Files) × Leaves told disk (B.M.contents machine) left × Replaces result.0 (string_bytes image.now) (bytes_of ((B.M.contents machine).words ++ (B.M.run machine).scratch)) left (H.files result.1) }
    ensures fit { (i : ℕ) → slice_index ((B.M.contents machine).words ++ (B.M.run machine).scratch) i < 2 ^ 64 }
    ensures cause { HasCause result.0 (B.M.contents machine).faults.count (H.faults result.1) }
    ensures pages { B.pages bench.new ≡ B.pages bench.old }
    ensures parted { B.parted bench.new ≡ true }
    ensures began { B.began bench.new ≡ B.began bench.old }
    ensures left { B.tells bench.old ≡ true → B.left bench.new ≡ Some (left_by (B.M.contents machine) (B.M.run machine)) }
    ensures tells_start { B.tells_start bench.new ≡ B.tells_start bench.old }
    ensures tells { B.tells bench.new ≡ B.tells bench.old }
{
    let mut bytes = bytes;
    refill(&machine, &mut bytes);
    let mut host = hand_back(machine, bench);
    let saved = host.replace(image, &bytes);
    (saved, host)
}

/// The host of a machine's disk, after the bench took the machine back.
pub(crate) fn hand_back<H: Host, B: Bench<HostDisk<H>>>(machine: B::M, bench: &mut B) -> H
    requires pages { (n : ℕ) × (B.pages bench.old ≡ Some n) × (512 * n ≡ length (B.M.contents machine).words + length (B.M.run machine).scratch) }
    requires unparted { B.parted bench.old ≡ false }
    ensures files { (told : Option Files) (asked : Asked) (disk : List ℕ) → (B.M.contents machine).around ≡ around_of told asked disk → Leaves told disk (B.M.contents machine) (H.files result) }
    ensures faults { H.faults result ≡ (B.M.contents machine).faults.count }
    ensures pages { B.pages bench.new ≡ B.pages bench.old }
    ensures parted { B.parted bench.new ≡ true }
    ensures began { B.began bench.new ≡ B.began bench.old }
    ensures left { B.tells bench.old ≡ true → B.left bench.new ≡ Some (left_by (B.M.contents machine) (B.M.run machine)) }
    ensures tells_start { B.tells_start bench.new ≡ B.tells_start bench.old }
    ensures tells { B.tells bench.new ≡ B.tells bench.old }
{
    bench.part(machine).into_host()
}

/// Puts the bytes of all words of a machine's memory in place of those of a vector, which has as many.
fn refill<M: Machine>(m: &M, bytes: &mut Vec<u8>)
    requires { length bytes.old.items ≡ 8 * (length (M.contents m.now).words + length (M.run m.now).scratch) }
    ensures bytes { bytes.new.items ≡ bytes_of ((M.contents m.now).words ++ (M.run m.now).scratch) }
    ensures fit { (i : ℕ) → slice_index ((M.contents m.now).words ++ (M.run m.now).scratch) i < 2 ^ 64 }
{
    fill_bytes(m, bytes);
}

/// Puts the bytes of all words of a machine's memory in place of those of a slice, which has as many.
fn fill_bytes<M: Machine>(m: &M, bytes: &mut [u8])
    requires { length bytes.old ≡ 8 * (length (M.contents m.now).words + length (M.run m.now).scratch) }
    ensures bytes { bytes.new ≡ bytes_of ((M.contents m.now).words ++ (M.run m.now).scratch) }
    ensures fit { (i : ℕ) → slice_index ((M.contents m.now).words ++ (M.run m.now).scratch) i < 2 ^ 64 }
{
    for p in 0..m.pages() {
        fill_page(m.frame(Page(p)), bytes, p as usize);
    }
}

/// Puts the bytes of page `p` over those that stand there.
fn fill_page(words: &[u64], bytes: &mut [u8], p: usize)
    requires words { length words.now ≡ 512 }
    requires within { 4096 * p + 4096 ≤ length bytes.old }
    requires most { length bytes.old < 2 ^ 40 }
    ensures count { length bytes.new ≡ length bytes.old }
    ensures before { take (4096 * p) bytes.new ≡ take (4096 * p) bytes.old }
    ensures page { take 4096 (drop (4096 * p) bytes.new) ≡ bytes_of words.now }
    ensures fit { (i : ℕ) → slice_index words.now i < 2 ^ 64 }
{
    let at = PAGE_BYTES * p;
    fill_image(words, &mut bytes[at..at + PAGE_BYTES]);
}
