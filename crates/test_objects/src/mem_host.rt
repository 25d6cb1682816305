//! A host over files in memory, for tests.

ghost use Rattle.std.specs.Prelude.{◌≡◌, ◌<◌, ◌≤◌, ◌⊎◌, ◌||◌, ◌+◌, ◌-◌, [], ◌∷◌, ◌++◌, false, Ok, Some, None, IfOk, OnOk, OnErr, MatchOption, is_none, length, take, drop, min, replicate};
ghost use Rattle.std.specs.Option.{option_map};
ghost use Rattle.std.specs.String.{string_bytes};
ghost use Rattle.std.specs.FinMap.{empty, get, insert, remove as without};
ghost use Rattle.rio_base.specs.Failures.{FailsIf, Rose, is_due};
ghost use Rattle.rio_base.specs.Disks.{raised};
ghost use Rattle.test_objects.specs.MemStreams.{faults_after};
ghost use Rattle.rio_base.specs.Hosts.{AsksFor, EndsBy, HasBytes, Overwrites, overwritten};
ghost use Rattle.test_objects.specs.MemHosts.{IsFirst, IsNoted, Lacks, asked_more, asked_of, files_of};

use crate::failing_calls::FailingCalls;
use rio_base::{Failed, Host};
use std::alloc::{AllocError, Global};
use std::marker::Model;

/// A file: its name and its bytes.
#[derive(Drop)]
struct MemFile {
    name: String,
    bytes: Vec<u8>,
}

/// A host that keeps its files in memory, and fails where it is told to. Where it finds no memory it fails too. It notes
/// which files it was asked for, as long as there is memory for that.
#[derive(Drop)]
pub struct MemHost {
    alloc: Global,
    files: Vec<MemFile>,
    /// The name that each call was given, in order.
    asked: Vec<String>,
    calls: FailingCalls,
}

impl Model for MemHost {
    ghost use Rattle.test_objects.specs.MemHosts.{MemHostState, asked_of, files_of, state_code};

    ghost Value = { MemHostState };

    ghost coded = { state_code };

    ghost view = { λ a. record { files = files_of a.files.items; asked = asked_of a.asked.items; calls = a.calls.calls; faults = a.calls.faults; failing = a.calls.failing.items } };
}

/// The place of the first file of this name.
fn place_of(files: &[MemFile], name: &String) -> Option<usize>
    ensures { MatchOption result (Lacks files.now (string_bytes name.now)) (λ i. IsFirst files.now (string_bytes name.now) i) }
{
    for i in 0..files.len() {
        if files[i].name == *name {
            return Some(i);
        }
    }
    None
}

/// Copies bytes from place `off` on into the front of `into`, as many as there are and as it has room for.
fn copy_from(bytes: &[u8], off: u64, into: &mut [u8]) -> usize
    ensures count { result ≡ min (length into.new) (length bytes.now - off) }
    ensures bytes { take result into.new ≡ take result (drop off bytes.now) }
{
    if bytes.len() as u64 <= off {
        return 0;
    }
    let rest = &bytes[off as usize..];
    let n = rest.len().min(into.len());
    into[..n].copy_from_slice(&rest[..n]);
    n
}

/// Puts `from` over the bytes from place `off` on.
fn put_over(bytes: &mut [u8], off: usize, from: &[u8])
    requires { off + length from.now ≤ length bytes.old }
    ensures { bytes.new ≡ take off bytes.old ++ from.now ++ drop (off + length from.now) bytes.old }
{
    bytes[off..off + from.len()].copy_from_slice(from);
}

/// Adds zeros up to `size` bytes, where there are fewer.
fn grow(bytes: &mut Vec<u8>, size: usize) -> Result<(), AllocError>
    ensures ok { OnOk result (bytes.new.items ≡ bytes.old.items ++ replicate (size - length bytes.old.items) 0) }
    ensures err { OnErr result (bytes.new.items ≡ bytes.old.items) }
{
    if bytes.len() < size {
        bytes.resize(size, 0)?;
    }
    Ok(())
}

/// Writes `from` over the bytes from place `off` on.
fn overwrite(bytes: &mut Vec<u8>, off: u64, from: &[u8]) -> Result<(), AllocError>
    ensures ok { OnOk result (bytes.new.items ≡ overwritten bytes.old.items off from.now) }
    ensures err { OnErr result (bytes.new.items ≡ bytes.old.items) }
{
    if from.is_empty() {
        return Ok(());
    }
    let Some(end) = off.checked_add(from.len() as u64) else {
        return Err(AllocError);
    };
    grow(bytes, end as usize)?;
    put_over(bytes, off as usize, from);
    Ok(())
}

/// Makes or replaces a file.
fn put_file(files: &mut Vec<MemFile>, name: &String, bytes: Vec<u8>) -> Result<(), AllocError>
    ensures ok { OnOk result (files_of files.new.items ≡ insert (files_of files.old.items) (string_bytes name.now) bytes.items) }
    ensures err { OnErr result (files_of files.new.items ≡ files_of files.old.items) }
{
    match place_of(files, name) {
        Some(i) => files[i].bytes = bytes,
        None => {
            let name = name.clone()?;
            files.push(MemFile { name, bytes })?;
        }
    }
    Ok(())
}

/// Writes `from` over the bytes of a file, where there is memory. A file that isn't there is made.
fn write_file(
    alloc: Global,
    files: &mut Vec<MemFile>,
    name: &String,
    off: u64,
    from: &[u8],
) -> Result<(), AllocError>
    ensures ok { OnOk result (Overwrites (Some (files_of files.old.items)) (string_bytes name.now) off from.now (Some (files_of files.new.items))) }
    ensures err { OnErr result (files_of files.new.items ≡ files_of files.old.items) }
{
    match place_of(files, name) {
        Some(i) => overwrite(&mut files[i].bytes, off, from)?,
        None => {
            let mut bytes = Vec::new(alloc);
            overwrite(&mut bytes, off, from)?;
            put_file(files, name, bytes)?;
        }
    }
    Ok(())
}

/// Takes the files of a name away.
fn remove_file(files: &mut Vec<MemFile>, name: &String)
    ensures { files_of files.new.items ≡ without (files_of files.old.items) (string_bytes name.now) }
{
    files.retain(|file| file.name != *name);
}

/// Notes that a name was asked for.
fn note(asked: &mut Vec<String>, name: &String) -> Result<(), AllocError>
    ensures ok { OnOk result (asked_of asked.new.items ≡ asked_more (asked_of asked.old.items) (string_bytes name.now)) }
    ensures err { OnErr result (asked_of asked.new.items ≡ asked_of asked.old.items) }
{
    let name = name.clone()?;
    asked.push(name)?;
    Ok(())
}

impl MemHost {
    /// A host without files.
    pub fn new(alloc: Global) -> MemHost
        ensures { result ≡ record { files = empty; asked = empty; calls = 0; faults = 0; failing = [] } }
    {
        MemHost {
            alloc,
            files: Vec::new(alloc),
            asked: Vec::new(alloc),
            calls: FailingCalls::new(alloc),
        }
    }

    /// Makes a file of these bytes, in place of the one of this name where there is one. It is no call of the host.
    pub fn put(&mut self, name: &String, bytes: &[u8]) -> Result<(), AllocError>
        ensures ok { OnOk result (self.new ≡ record self.old { files = insert self.old.files (string_bytes name.now) bytes.now }) }
        ensures err { OnErr result (self.new ≡ self.old) }
    {
        let bytes = Vec::from_slice(self.alloc, bytes)?;
        put_file(&mut self.files, name, bytes)?;
        Ok(())
    }

    /// Takes a file away, where there is one. It is no call of the host.
    pub fn remove(&mut self, name: &String)
        ensures { self.new ≡ record self.old { files = without self.old.files (string_bytes name.now) } }
    {
        remove_file(&mut self.files, name);
    }

    /// The bytes of a file, lent, or `None` where there is no such file. It is no call of the host.
    pub fn file(&self, name: &String) -> Option<&Vec<u8>>
        ensures { MatchOption result (get self.now.files (string_bytes name.now) ≡ None) (λ bytes. get self.now.files (string_bytes name.now) ≡ Some bytes.now.items) }
    {
        match place_of(&self.files, name) {
            Some(i) => Some(&self.files[i].bytes),
            None => None,
        }
    }

    /// The `n`th call of the host from now fails, `n` from 1. [`Host::faults`] isn't counted.
    pub fn fail_call(&mut self, n: u64) -> Result<(), AllocError>
        requires { 0 < n }
        ensures ok { OnOk result (self.new ≡ record self.old { failing = self.old.failing ++ raised self.old.calls n ∷ [] }) }
        ensures err { OnErr result (self.new ≡ self.old) }
    {
        self.calls.fail_call(n)
    }

    /// Notes and counts a call that was given this name, and says whether it is not to fail.
    #[tactic(auto, using(crate::proofs::Files::noted_asks))]
    fn begin(&mut self, name: &String) -> Result<(), Failed>
        ensures fails { FailsIf (is_due self.old.calls self.old.failing) result }
        ensures asked { AsksFor (string_bytes name.now) self.old.asked self.new.asked }
        ensures noted { IsNoted (string_bytes name.now) self.old.asked self.new.asked }
        ensures counted { self.new ≡ record self.old { asked = self.new.asked; calls = raised self.old.calls 1; faults = faults_after result self.old.faults } }
    {
        let _ = note(&mut self.asked, name);
        self.calls.begin()
    }
}

impl Host for MemHost {
    ghost use Rattle.std.specs.Prelude.{Some};

    ghost files = { λ s. Some s.files };

    ghost asked = { λ s. s.asked };

    ghost faults = { λ s. s.faults };

    fn size(&mut self, name: &String) -> Result<Option<u64>, Failed>
        ensures size { IfOk result (λ size. size ≡ option_map length (get self.old.files (string_bytes name.now))) }
        ensures fails { FailsIf (is_due self.old.calls self.old.failing) result }
        ensures asked { AsksFor (string_bytes name.now) self.old.asked self.new.asked }
        ensures noted { IsNoted (string_bytes name.now) self.old.asked self.new.asked }
        ensures counted { self.new ≡ record self.old { asked = self.new.asked; calls = raised self.old.calls 1; faults = faults_after result self.old.faults } }
    {
        self.begin(name)?;
        Ok(self.file(name).map(|bytes| bytes.len() as u64))
    }

    fn read_at(&mut self, name: &String, off: u64, into: &mut [u8]) -> Result<usize, Failed>
        ensures bound { IfOk result (λ n. n ≤ length into.new) }
        ensures bytes { IfOk result (λ n. HasBytes (⟦<MemHost as Host>⟧.files self.old) (string_bytes name.now) off (take n into.new)) }
        ensures end { result ≡ Ok 0 → 0 < length into.new → EndsBy (⟦<MemHost as Host>⟧.files self.old) (string_bytes name.now) off ⊎ Rose self.old.faults self.new.faults }
        ensures fails { FailsIf (is_due self.old.calls self.old.failing) result }
        ensures asked { AsksFor (string_bytes name.now) self.old.asked self.new.asked }
        ensures noted { IsNoted (string_bytes name.now) self.old.asked self.new.asked }
        ensures counted { self.new ≡ record self.old { asked = self.new.asked; calls = raised self.old.calls 1; faults = faults_after result self.old.faults } }
    {
        self.begin(name)?;
        match self.file(name) {
            Some(bytes) => Ok(copy_from(bytes, off, into)),
            None => Ok(0),
        }
    }

    fn write_at(&mut self, name: &String, off: u64, from: &[u8]) -> Result<(), Failed>
        ensures ok { OnOk result (Overwrites (Some self.old.files) (string_bytes name.now) off from.now (Some self.new.files)) }
        ensures same { OnErr result (self.new.files ≡ self.old.files) }
        ensures due { OnOk result (is_due self.old.calls self.old.failing ≡ false) }
        ensures asked { AsksFor (string_bytes name.now) self.old.asked self.new.asked }
        ensures noted { IsNoted (string_bytes name.now) self.old.asked self.new.asked }
        ensures counted { self.new ≡ record self.old { files = self.new.files; asked = self.new.asked; calls = raised self.old.calls 1; faults = faults_after result self.old.faults } }
    {
        self.begin(name)?;
        if write_file(self.alloc, &mut self.files, name, off, from).is_err() {
            return Err(self.calls.fail());
        }
        Ok(())
    }

    fn sync(&mut self, name: &String) -> Result<(), Failed>
        ensures fails { FailsIf (is_due self.old.calls self.old.failing || is_none (get self.old.files (string_bytes name.now))) result }
        ensures asked { AsksFor (string_bytes name.now) self.old.asked self.new.asked }
        ensures noted { IsNoted (string_bytes name.now) self.old.asked self.new.asked }
        ensures counted { self.new ≡ record self.old { asked = self.new.asked; calls = raised self.old.calls 1; faults = faults_after result self.old.faults } }
    {
        self.begin(name)?;
        if self.file(name).is_none() {
            return Err(self.calls.fail());
        }
        Ok(())
    }

    fn replace(&mut self, name: &String, from: &[u8]) -> Result<(), Failed>
        ensures ok { OnOk result (self.new.files ≡ insert self.old.files (string_bytes name.now) from.now) }
        ensures err { OnErr result (self.new.files ≡ self.old.files) }
        ensures due { OnOk result (is_due self.old.calls self.old.failing ≡ false) }
        ensures asked { AsksFor (string_bytes name.now) self.old.asked self.new.asked }
        ensures noted { IsNoted (string_bytes name.now) self.old.asked self.new.asked }
        ensures counted { self.new ≡ record self.old { files = self.new.files; asked = self.new.asked; calls = raised self.old.calls 1; faults = faults_after result self.old.faults } }
    {
        self.begin(name)?;
        if self.put(name, from).is_err() {
            return Err(self.calls.fail());
        }
        Ok(())
    }

    fn faults(&self) -> u64 {
        self.calls.faults()
    }
}
