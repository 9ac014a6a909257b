//! A file that is read and written at a place.

ghost use Rattle.std.specs.Prelude.{◌≡◌, ◌+◌, ◌<◌, ◌≤◌, ◌^◌, ◌⊎◌, ℕ, Bool, List, [], false, length, take, get_or, IsTrue, IfOk, OnOk, OnErr};
ghost use Rattle.storage.specs.Disk.{overlaid, Torn};

use std::fs::File;
use std::io;
use std::io::ErrorKind;
use std::os::unix::fs::FileExt;

/// A file that is read and written at a place, a part at a time. A call that fails gives the
/// error of the machine.
pub trait AreaFile {
    /// Whether what the file holds is observable.
    ghost observable: { Self → Bool };

    /// The bytes of the file.
    ghost bytes: { Self → List ℕ };

    /// Reads bytes of the file from there on, and returns how many: none only where the file has none
    /// there or none were asked for.
    fn read_some(&self, at: u64, into: &mut [u8]) -> io::Result<usize>
        requires end { at + length into.old < 2 ^ 41 }
        ensures bound { IfOk result (λ n. n ≤ length into.new) }
        ensures read { IfOk result (λ n. IsTrue (observable self.now) → ((i : ℕ) → i < n → get_or into.new i 0 ≡ get_or (bytes self.now) (at + i) 0)) }
        ensures none { IfOk result (λ n. IsTrue (observable self.now) → n ≡ 0 → ((length (bytes self.now) ≤ at) ⊎ (length into.new ≡ 0))) };

    /// Writes some of the bytes there, the first ones, with zeros between the old end and them, and
    /// returns how many.
    fn write_some(&mut self, at: u64, from: &[u8]) -> io::Result<usize>
        requires end { at + length from.now < 2 ^ 40 }
        ensures bound { IfOk result (λ n. n ≤ length from.now) }
        ensures same_observable { observable self.new ≡ observable self.old }
        ensures none { IfOk result (λ n. IsTrue (observable self.old) → n ≡ 0 → bytes self.new ≡ bytes self.old) }
        ensures written { IfOk result (λ n. IsTrue (observable self.old) → 0 < n → bytes self.new ≡ overlaid at (take n from.now) (bytes self.old)) }
        ensures failed { OnErr result (IsTrue (observable self.old) → Torn at (length from.now) (bytes self.old) (bytes self.new)) };

    /// Lengthens the file by zeros to that length, if it is shorter.
    fn lengthen(&mut self, to: u64) -> io::Result<()>
        requires end { to < 2 ^ 40 }
        ensures same_observable { observable self.new ≡ observable self.old }
        ensures longer { OnOk result (IsTrue (observable self.old) → bytes self.new ≡ overlaid to [] (bytes self.old)) }
        ensures failed { OnErr result (IsTrue (observable self.old) → Torn to 0 (bytes self.old) (bytes self.new)) };
}

/// A file of the machine. What it holds is not observable. A call that a signal interrupts is
/// called again.
impl AreaFile for File {
    ghost observable = { λ _. false };

    ghost bytes = { λ _. [] };

    fn read_some(&self, at: u64, into: &mut [u8]) -> io::Result<usize> {
        for _ in 0..u64::MAX {
            match self.read_at(into, at) {
                Ok(count) => return Ok(count),
                Err(error) if error.kind() == ErrorKind::Interrupted => {}
                Err(error) => return Err(error),
            }
        }
        Err(ErrorKind::Interrupted.into())
    }

    fn write_some(&mut self, at: u64, from: &[u8]) -> io::Result<usize> {
        for _ in 0..u64::MAX {
            match self.write_at(from, at) {
                Ok(count) => return Ok(count),
                Err(error) if error.kind() == ErrorKind::Interrupted => {}
                Err(error) => return Err(error),
            }
        }
        Err(ErrorKind::Interrupted.into())
    }

    fn lengthen(&mut self, to: u64) -> io::Result<()> {
        if self.metadata()?.len() < to {
            self.set_len(to)?;
        }
        Ok(())
    }
}
