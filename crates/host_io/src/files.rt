//! The files that a program reads whole, by name.

ghost use Rattle.std.specs.Prelude.{◌≡◌, ◌≤◌, length, Some, None, IsTrue, IfOk, IsErrOf};
ghost use Rattle.storage.specs.faults.Faults.{Rose};
ghost use Rattle.host_io.specs.Files.{FileState, IsLonger};

use abl_base::Bytes;
use thiserror::Error;

/// Why a file was not read.
#[derive(Clone, Copy, Debug, PartialEq, Eq, Error)]
pub enum FileFault {
    /// The file could not be read, also where there is none of that name.
    #[error("the file cannot be read")]
    Failed,
    /// The file is longer than the bytes that were permitted.
    #[error("the file is too long")]
    TooLong,
    /// There was not enough memory for the file.
    #[error("out of memory")]
    NoMemory,
}

/// Files by name.
pub trait Files {
    /// The files and their bytes, as far as they are known, and how often a read has failed.
    ghost state: { Self → FileState };

    /// How often a read has failed, at most 2^64 - 1.
    fn faults(&self) -> u64
        ensures { result ≡ (state self.now).faults };

    /// The bytes of the file of that name, if it has no more than `most`. `Failed` is returned only
    /// where the count of faults rose in this call, and over sound files only for a missing file;
    /// `TooLong` only for a file that is longer; `NoMemory` at any time. Whatever the result, what is
    /// known of the files stays the same.
    fn read(&mut self, name: &Bytes, most: u64) -> Result<Bytes, FileFault>
        ensures whole { IfOk result (λ bytes. IsTrue (state self.old).observable → (state self.old).file name.now ≡ Some bytes) }
        ensures within { IfOk result (λ bytes. length bytes ≤ most) }
        ensures too_long { IsErrOf result FileFault.TooLong → IsTrue (state self.old).observable → IsLonger ((state self.old).file name.now) most }
        ensures missing { IsErrOf result FileFault.Failed → IsTrue (state self.old).sound → (state self.old).file name.now ≡ None }
        ensures cause { IsErrOf result FileFault.Failed → Rose (state self.old).faults (state self.new).faults }
        ensures quiet { (IsErrOf result FileFault.Failed → ⊥) → (state self.new).faults ≡ (state self.old).faults }
        ensures later { (state self.old).faults ≤ (state self.new).faults }
        ensures same_observable { (state self.new).observable ≡ (state self.old).observable }
        ensures same_sound { (state self.new).sound ≡ (state self.old).sound }
        ensures same_files { IsTrue (state self.old).observable → (state self.new).file ≡ (state self.old).file };

    /// Sound files are observable.
    ghost sound_observable: { (files : Self) → IsTrue (state files).sound → IsTrue (state files).observable };
}
