//! A disk of three areas that may crash.

ghost use Rattle.std.specs.Prelude.{◌≡◌, ◌+◌, ◌<◌, ◌≤◌, ◌^◌, ℕ, Bool, List, length, IsTrue, IfOk, OnOk, OnErr, is_ok};
ghost use Rattle.storage.specs.Disk.{Reads, Stays, overlaid, TornIn, Passes, HasCause, IsImage};

use thiserror::Error;

/// A call on the disk failed.
#[derive(Clone, Copy, Debug, PartialEq, Eq, Error)]
#[error("the disk failed")]
pub struct DiskFailed;

/// Areas 0, 1 and 2 of bytes. Each write and each sync is one moment, whether it fails or not; one
/// that is called at moment 2^64 - 1 fails and leaves the disk and the moment as they were. No call
/// takes memory.
pub trait Disk {
    /// Whether what the areas hold is observable.
    ghost observable: { Self → Bool };

    /// The bytes that a read gives, of each area.
    ghost seen: { Self → ℕ → List ℕ };

    /// The images that a crash at that moment may leave.
    ghost left: { Self → ℕ → (ℕ → List ℕ) → Type 0 };

    /// How many writes and syncs there have been.
    ghost time: { Self → ℕ };

    /// How often a call has failed.
    ghost failures: { Self → ℕ };

    /// How often a call has failed, at most 2^64 - 1.
    fn faults(&self) -> u64
        ensures { result ≡ failures self.now };

    /// The present moment.
    fn moment(&self) -> u64
        ensures { result ≡ time self.now };

    /// The area's bytes from there on, with zeros past its end. It makes no moment.
    fn read(&mut self, area: u8, at: u64, into: &mut [u8]) -> Result<(), DiskFailed>
        requires area { area < 3 }
        requires end { at + length into.old < 2 ^ 41 }
        ensures bytes { OnOk result (IsTrue (observable self.old) → Reads (seen self.old area) at into.new) }
        ensures rest { Stays (observable self.old) (observable self.new) (seen self.old) (seen self.new) (time self.old) (time self.new) (left self.old) (left self.new) }
        ensures cause { HasCause (failures self.old) (failures self.new) (is_ok result) };

    /// How many bytes the area has. It makes no moment.
    fn length(&mut self, area: u8) -> Result<u64, DiskFailed>
        requires area { area < 3 }
        ensures length { IfOk result (λ n. IsTrue (observable self.old) → n ≡ length (seen self.old area)) }
        ensures rest { Stays (observable self.old) (observable self.new) (seen self.old) (seen self.new) (time self.old) (time self.new) (left self.old) (left self.new) }
        ensures cause { HasCause (failures self.old) (failures self.new) (is_ok result) };

    /// Puts the bytes there, with zeros between the area's old end and them. Until the area is
    /// synced a crash may leave any bytes in this range and past the old end, and so may a call
    /// that fails, for reads too.
    fn write(&mut self, area: u8, at: u64, bytes: &[u8]) -> Result<(), DiskFailed>
        requires area { area < 3 }
        requires end { at + length bytes.now < 2 ^ 40 }
        ensures same_observable { observable self.new ≡ observable self.old }
        ensures written { OnOk result (IsTrue (observable self.old) → seen self.new area ≡ overlaid at bytes.now (seen self.old area)) }
        ensures others { IsTrue (observable self.old) → TornIn area at (length bytes.now) (seen self.old) (seen self.new) }
        ensures last { 2 ^ 64 ≤ time self.old + 1 → IsTrue (observable self.old) → seen self.new ≡ seen self.old }
        ensures time { Passes (is_ok result) (time self.old) (time self.new) (left self.old) (left self.new) (TornIn area at (length bytes.now)) }
        ensures cause { HasCause (failures self.old) (failures self.new) (is_ok result) };

    /// After Ok a crash leaves in this area what a read gives.
    fn sync(&mut self, area: u8) -> Result<(), DiskFailed>
        requires area { area < 3 }
        ensures same_observable { observable self.new ≡ observable self.old }
        ensures seen { IsTrue (observable self.old) → seen self.new ≡ seen self.old }
        ensures durable { OnOk result ((image : ℕ → List ℕ) → left self.new (time self.new) image → image area ≡ seen self.new area) }
        ensures time { Passes (is_ok result) (time self.old) (time self.new) (left self.old) (left self.new) (λ old new. new ≡ old) }
        ensures cause { HasCause (failures self.old) (failures self.new) (is_ok result) };

    /// The disk as it reads is one of its images.
    ghost reads_left: { (d : Self) → IsTrue (observable d) → left d (time d) (seen d) };

    /// Images are known only where the areas are observable, and of no later moment; each area of an
    /// image has at most 2^40 bytes.
    ghost image_known: { (d : Self) (m : ℕ) (image : ℕ → List ℕ) → left d m image → IsImage (observable d) (time d) m image };
}
