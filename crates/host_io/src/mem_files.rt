//! Files in memory.

ghost use Rattle.std.specs.Prelude.{◌≡◌, ◌≤◌, ◌↔◌, length, Some, None, refl, IsTrue, IfOk, IsErrOf, ◌==◌, option_copied};
ghost use Rattle.storage.specs.faults.Faults.{Rose, counted};
ghost use Rattle.host_io.specs.Files.{IsLonger, bytes_named};
ghost use Rattle.host_io.specs.MemFiles.{FailsNext, file_state};

use crate::files::{FileFault, Files};
use crate::named_file::{NamedFile, NamedFiles};
use abl_base::Bytes;
use std::alloc::{AllocError, Global};
use std::marker::Model;
use storage::faults::is_among;

/// Files in memory. They are observable, and sound where no call is to fail.
#[derive(Drop)]
pub struct MemFiles {
    files: Vec<NamedFile>,
    fails: Vec<u64>,
    calls: u64,
    failed: u64,
}

impl Model for MemFiles {
    ghost use Rattle.host_io.specs.MemFiles.{Folder};

    ghost Value = { Folder };

    ghost view = { λ m. record { files = m.files.items; fails = m.fails.items; calls = m.calls; faults = m.failed } };
}

/// The bytes of the first file of that name.
fn find<'a>(files: &'a [NamedFile], name: &[u8]) -> Option<&'a Bytes>
    ensures { option_copied result ≡ bytes_named files.now name.now }
{
    for file in files {
        if file.name.as_slice() == name {
            return Some(&file.bytes);
        }
    }
    None
}

/// The file of that name, if it is not too long.
fn read_file(files: &[NamedFile], name: &[u8], most: u64) -> Result<Bytes, FileFault>
    ensures whole { IfOk result (λ bytes. bytes_named files.now name.now ≡ Some bytes) }
    ensures within { IfOk result (λ bytes. length bytes ≤ most) }
    ensures too_long { IsErrOf result FileFault.TooLong → IsLonger (bytes_named files.now name.now) most }
    ensures missing { IsErrOf result FileFault.Failed ↔ (bytes_named files.now name.now ≡ None) }
{
    match find(files, name) {
        None => Err(FileFault::Failed),
        Some(bytes) => {
            if bytes.len() as u64 > most {
                return Err(FileFault::TooLong);
            }
            match bytes.copy() {
                Ok(copy) => Ok(copy),
                Err(_) => Err(FileFault::NoMemory),
            }
        }
    }
}

/// A copy of the files.
fn copies(alloc: Global, files: &[NamedFile]) -> Result<Vec<NamedFile>, AllocError>
    ensures { IfOk result (λ same. same.items ≡ files.now) }
{
    let mut same = Vec::with_capacity(alloc, files.len())?;
    for file in files {
        same.push(file.copy()?)?;
    }
    Ok(same)
}

impl MemFiles {
    /// These files; the reads whose number is in `fails` fail, the first read being number 1. An
    /// error means out of memory.
    pub fn new(alloc: Global, files: &NamedFiles, fails: &[u64]) -> Result<MemFiles, AllocError>
        ensures { IfOk result (λ m. m ≡ record { files = files.now; fails = fails.now; calls = 0; faults = 0 }) }
    {
        Ok(MemFiles {
            files: copies(alloc, files.as_slice())?,
            fails: Vec::from_slice(alloc, fails)?,
            calls: 0,
            failed: 0,
        })
    }
}

impl Files for MemFiles {
    ghost state = { file_state };

    ghost sound_observable = { λ m sound. refl };

    fn faults(&self) -> u64 {
        self.failed
    }

    /// Beyond what every object does: a read fails exactly where its number is in the list, or
    /// where no file has the name.
    fn read(&mut self, name: &Bytes, most: u64) -> Result<Bytes, FileFault>
        ensures whole { IfOk result (λ bytes. bytes_named self.old.files name.now ≡ Some bytes) }
        ensures within { IfOk result (λ bytes. length bytes ≤ most) }
        ensures too_long { IsErrOf result FileFault.TooLong → IsLonger (bytes_named self.old.files name.now) most }
        ensures missing { IsErrOf result FileFault.Failed → IsTrue (length self.old.fails == 0) → bytes_named self.old.files name.now ≡ None }
        ensures failed { IsErrOf result FileFault.Failed ↔ FailsNext self.old name.now }
        ensures cause { IsErrOf result FileFault.Failed → Rose self.old.faults self.new.faults }
        ensures rises { IsErrOf result FileFault.Failed → self.new.faults ≡ counted self.old.faults }
        ensures quiet { (IsErrOf result FileFault.Failed → ⊥) → self.new.faults ≡ self.old.faults }
        ensures later { self.old.faults ≤ self.new.faults }
        ensures counts { self.new ≡ record self.old { calls = counted self.old.calls; faults = self.new.faults } }
    {
        self.calls = self.calls.saturating_add(1);
        if is_among(&self.fails, self.calls) {
            self.failed = self.failed.saturating_add(1);
            return Err(FileFault::Failed);
        }
        match read_file(&self.files, name.as_slice(), most) {
            Ok(bytes) => Ok(bytes),
            Err(FileFault::Failed) => {
                self.failed = self.failed.saturating_add(1);
                Err(FileFault::Failed)
            }
            Err(FileFault::TooLong) => Err(FileFault::TooLong),
            Err(FileFault::NoMemory) => Err(FileFault::NoMemory),
        }
    }
}
