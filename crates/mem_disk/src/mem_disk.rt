//! The disk in memory.

ghost use Rattle.std.specs.Prelude.{◌≡◌, ◌<◌, ◌≤◌, ◌+◌, ◌^◌, ◌++◌, ◌∷◌, ◌⊎◌, ◌↔◌, ℕ, List, [], min, length, take, true, false, refl, is_ok, IsTrue, IsErr, IfOk, OnOk, OnErr};
ghost use Rattle.std.specs.Vec.{vec_capacity};
ghost use Rattle.storage.specs.faults.Faults.{Rose, counted};
ghost use Rattle.storage.specs.Disk.{Reads, Stays, overlaid, TornIn, Passes, HasCause};
ghost use Rattle.mem_disk.specs.Notes.{notes_of, spent_by, bytes_in, held};
ghost use Rattle.mem_disk.specs.Crash.{area_of, crashed, is_write};
ghost use Rattle.mem_disk.specs.Sound.{AllInside, HaveRoom};

use crate::areas::{copy_out, overlay};
use crate::call::{Call, Effect};
use crate::images::{Images, Room, Torn};
use crate::replay::crashed_images;
use std::alloc::{AllocError, Global};
use storage::faults::is_among;
use storage::{Disk, DiskFailed};

/// A disk in memory, with a record of its writes and syncs. What its areas hold, and what a crash at
/// each moment may leave, is observable.
#[derive(Drop)]
pub struct MemDisk {
    first: Images,
    current: Vec<Vec<u8>>,
    calls: Vec<Call>,
    pool: Vec<u8>,
    room: Room,
    fails: Vec<u64>,
    number: u64,
    time: u64,
    failed: u64,
    ghost three: { length current.items ≡ 3 },
    ghost agrees: { (k : ℕ) → bytes_in current.items k ≡ (held (area_of first) (notes_of pool.items calls.items) k).seen },
    ghost many: { length calls.items ≡ min time room.calls },
    ghost calls_room: { room.calls ≤ vec_capacity calls },
    ghost pool_room: { room.bytes ≤ vec_capacity pool },
    ghost pool_within: { length pool.items ≤ room.bytes },
    ghost spent: { length pool.items ≡ spent_by (notes_of pool.items calls.items) },
    ghost areas_room: { HaveRoom room.length current.items },
    ghost small: { (k : ℕ) → length (area_of first k) ≤ 2 ^ 40 },
    ghost inside: { AllInside (length pool.items) calls.items },
}

/// The same bytes, with memory for `count` of them.
fn with_room(alloc: Global, bytes: &[u8], count: u64) -> Result<Vec<u8>, AllocError>
    ensures bytes { IfOk result (λ v. v.items ≡ bytes.now) }
    ensures room { IfOk result (λ v. count ≤ vec_capacity v) }
{
    let mut v = Vec::with_capacity(alloc, count as usize)?;
    v.extend_from_slice(bytes)?;
    Ok(v)
}

/// The three areas, each with memory for `count` bytes.
fn areas_with_room(alloc: Global, images: &Images, count: u64) -> Result<Vec<Vec<u8>>, AllocError>
    ensures three { IfOk result (λ v. length v.items ≡ 3) }
    ensures bytes { IfOk result (λ v. (k : ℕ) → bytes_in v.items k ≡ area_of images.now k) }
    ensures room { IfOk result (λ v. HaveRoom count v.items) }
{
    let d0 = with_room(alloc, images.d0.as_slice(), count)?;
    let b1 = with_room(alloc, images.b1.as_slice(), count)?;
    let b2 = with_room(alloc, images.b2.as_slice(), count)?;
    Ok(vec![in alloc; d0, b1, b2]?)
}

/// Adds a call with these bytes to a record that has memory for them.
fn note(calls: &mut Vec<Call>, pool: &mut Vec<u8>, area: u8, at: u64, bytes: &[u8], effect: Effect)
    requires area { area < 3 }
    requires end { at + length bytes.now < 2 ^ 40 }
    requires inside { AllInside (length pool.old.items) calls.old.items }
    requires calls { length calls.old.items < vec_capacity calls.old }
    requires pool { length pool.old.items + length bytes.now ≤ vec_capacity pool.old }
    ensures notes { notes_of pool.new.items calls.new.items ≡ notes_of pool.old.items calls.old.items ++ record { area = area; at = at; bytes = bytes.now; effect = effect } ∷ [] }
    ensures inside { AllInside (length pool.new.items) calls.new.items }
    ensures calls { length calls.new.items ≡ length calls.old.items + 1 }
    ensures pool { length pool.new.items ≡ length pool.old.items + length bytes.now }
    ensures calls_room { vec_capacity calls.old ≤ vec_capacity calls.new }
    ensures pool_room { vec_capacity pool.old ≤ vec_capacity pool.new }
{
    let from = pool.len();
    pool.extend_from_slice(bytes).unwrap();
    calls
        .push(Call {
            area,
            at,
            from,
            length: bytes.len(),
            effect,
        })
        .unwrap();
}

impl MemDisk {
    ghost use Rattle.mem_disk.specs.Shown.{shown, Passed, PassesRoom};

    /// A disk with these areas, at moment 0 and with no write pending. It takes all the memory that its
    /// room asks for. The calls whose number is in `fails` fail; the first call has number 1. Out of
    /// memory is the only error.
    pub fn new(
        alloc: Global,
        areas: &Images,
        room: &Room,
        fails: &[u64],
    ) -> Result<MemDisk, AllocError>
        requires d0 { length areas.now.d0 ≤ 2 ^ 40 }
        requires b1 { length areas.now.b1 ≤ 2 ^ 40 }
        requires b2 { length areas.now.b2 ≤ 2 ^ 40 }
        ensures { IfOk result (λ d. shown d ≡ record { first = area_of areas.now; notes = []; room = room.now; fails = fails.now; calls = 0; time = 0; faults = 0 }) }
    {
        Ok(MemDisk {
            first: areas.copy()?,
            current: areas_with_room(alloc, areas, room.length)?,
            calls: Vec::with_capacity(alloc, room.calls as usize)?,
            pool: Vec::with_capacity(alloc, room.bytes as usize)?,
            room: *room,
            fails: Vec::from_slice(alloc, fails)?,
            number: 0,
            time: 0,
            failed: 0,
        })
    }

    /// The writes and syncs, in order, as far as there was room for them.
    pub fn calls(&self) -> &[Call]
        ensures { length result.now ≡ length (shown self.now).notes }
    {
        &self.calls
    }

    /// What a crash at that moment leaves: the bytes last synced, with the writes since then. `torn`
    /// lists what became of each of these writes, in their order over all areas. A missing entry is Old,
    /// and excess entries are ignored. Out of memory is the only error.
    pub fn crash(&self, moment: u64, torn: &[Torn]) -> Result<Images, AllocError>
        requires { moment ≤ (shown self.now).time }
        ensures exact { IfOk result (λ images. (k : ℕ) → area_of images k ≡ crashed (shown self.now).first (take moment (shown self.now).notes) torn.now k) }
        ensures left { IfOk result (λ images. ⟦<MemDisk as Disk>⟧.left self.now moment (area_of images)) }
    {
        let alloc = *self.pool.allocator();
        let count = (moment as usize).min(self.calls.len());
        let calls = &self.calls[..count];
        crashed_images(alloc, &self.first, calls, &self.pool, torn)
    }

    /// Whether there is room for a write of `count` bytes at that place.
    fn has_room(&self, at: u64, count: u64) -> bool
        requires { at + count < 2 ^ 40 }
        ensures fits { result ≡ true → (self.now.time < self.now.room.calls) × ((length self.now.pool.items + count ≤ self.now.room.bytes) × (at + count ≤ self.now.room.length)) }
        ensures passes { result ≡ false → PassesRoom (shown self.now) at count }
    {
        self.time < self.room.calls
            && count <= self.room.bytes - self.pool.len() as u64
            && at + count <= self.room.length
    }

    /// Records a sync, or a call that changes nothing.
    fn record(&mut self, area: u8, effect: Effect)
        requires area { area < 3 }
        requires moment { self.old.time + 1 < 2 ^ 64 }
        requires room { self.old.time < self.old.room.calls }
        requires quiet { is_write effect ≡ false }
        ensures counts { Passed (shown self.old) (shown self.new) }
        ensures notes { (shown self.new).notes ≡ (shown self.old).notes ++ record { area = area; at = 0; bytes = []; effect = effect } ∷ [] }
    {
        note(&mut self.calls, &mut self.pool, area, 0, &[], effect);
        self.time += 1;
    }

    /// Advances the time over a call for which the record has no room.
    fn skip(&mut self)
        requires moment { self.old.time + 1 < 2 ^ 64 }
        requires full { self.old.room.calls ≤ self.old.time }
        ensures counts { Passed (shown self.old) (shown self.new) }
        ensures notes { (shown self.new).notes ≡ (shown self.old).notes }
    {
        self.time += 1;
    }

    /// Advances the time over a call that changes nothing. It is recorded if there is room for it.
    fn pass_over(&mut self, area: u8)
        requires area { area < 3 }
        requires moment { self.old.time + 1 < 2 ^ 64 }
        ensures counts { Passed (shown self.old) (shown self.new) }
        ensures notes { self.old.time < self.old.room.calls → (shown self.new).notes ≡ (shown self.old).notes ++ record { area = area; at = 0; bytes = []; effect = Effect.Nothing } ∷ [] }
        ensures full { self.old.room.calls ≤ self.old.time → (shown self.new).notes ≡ (shown self.old).notes }
    {
        if self.time < self.room.calls {
            self.record(area, Effect::Nothing);
            return;
        }
        self.skip();
    }

    /// Records a write that fails: reads do not show it.
    fn cut(&mut self, area: u8, at: u64, bytes: &[u8])
        requires area { area < 3 }
        requires end { at + length bytes.now < 2 ^ 40 }
        requires moment { self.old.time + 1 < 2 ^ 64 }
        requires calls { self.old.time < self.old.room.calls }
        requires bytes { length self.old.pool.items + length bytes.now ≤ self.old.room.bytes }
        ensures counts { Passed (shown self.old) (shown self.new) }
        ensures notes { (shown self.new).notes ≡ (shown self.old).notes ++ record { area = area; at = at; bytes = bytes.now; effect = Effect.Cut } ∷ [] }
    {
        note(
            &mut self.calls,
            &mut self.pool,
            area,
            at,
            bytes,
            Effect::Cut,
        );
        self.time += 1;
    }

    /// Records a write that is done.
    fn put(&mut self, area: u8, at: u64, bytes: &[u8])
        requires area { area < 3 }
        requires end { at + length bytes.now < 2 ^ 40 }
        requires moment { self.old.time + 1 < 2 ^ 64 }
        requires calls { self.old.time < self.old.room.calls }
        requires bytes { length self.old.pool.items + length bytes.now ≤ self.old.room.bytes }
        requires length { at + length bytes.now ≤ self.old.room.length }
        ensures counts { Passed (shown self.old) (shown self.new) }
        ensures notes { (shown self.new).notes ≡ (shown self.old).notes ++ record { area = area; at = at; bytes = bytes.now; effect = Effect.Written } ∷ [] }
    {
        note(
            &mut self.calls,
            &mut self.pool,
            area,
            at,
            bytes,
            Effect::Written,
        );
        let target = &mut self.current[area as usize];
        overlay(target, at as usize, bytes).unwrap();
        self.time += 1;
    }
}

impl Disk for MemDisk {
    ghost use Rattle.mem_disk.specs.Laws.{reads_left, image_known, length-notes_of};
    ghost use Rattle.mem_disk.specs.Shown.{shown, seen_of, left_of, IsDue, IsLast, PassesCalls, PassesRoom, Fits, Counts, SameHeld};
    ghost use Rattle.std.proofs.Common.{arith};

    ghost observable = { λ d. true };

    ghost seen = { λ d. seen_of (shown d) };

    ghost left = { λ d. left_of (shown d) };

    ghost time = { λ d. d.time };

    ghost failures = { λ d. d.failed };

    ghost reads_left = { λ d observable. reads_left (shown d).first (shown d).notes d.time (Prim.omega (arith, length-notes_of d.pool.items d.calls.items, d.many)) };

    ghost image_known = { λ d m image left. image_known (shown d).first d.pool.items (length d.pool.items) d.calls.items d.time m image d.small d.inside left };

    fn faults(&self) -> u64 {
        self.failed
    }

    fn moment(&self) -> u64 {
        self.time
    }

    /// Beyond what every disk does: it fails exactly where its number is in the list.
    fn read(&mut self, area: u8, at: u64, into: &mut [u8]) -> Result<(), DiskFailed>
        requires area { area < 3 }
        requires end { at + length into.old < 2 ^ 41 }
        ensures bytes { OnOk result (Reads (seen_of (shown self.old) area) at into.new) }
        ensures rest { Stays true true (seen_of (shown self.old)) (seen_of (shown self.new)) self.old.time self.new.time (left_of (shown self.old)) (left_of (shown self.new)) }
        ensures counts { Counts (shown self.old) (shown self.new) }
        ensures recorded { (shown self.new).notes ≡ (shown self.old).notes }
        ensures cause { HasCause self.old.failed self.new.failed (is_ok result) }
        ensures failed { IsErr result ↔ IsDue (shown self.old) }
    {
        self.number = self.number.saturating_add(1);
        if is_among(&self.fails, self.number) {
            self.failed = self.failed.saturating_add(1);
            return Err(DiskFailed);
        }
        copy_out(&self.current[area as usize], at as usize, into);
        Ok(())
    }

    /// Beyond what every disk does: it fails exactly where its number is in the list.
    fn length(&mut self, area: u8) -> Result<u64, DiskFailed>
        requires area { area < 3 }
        ensures length { IfOk result (λ n. n ≡ length (seen_of (shown self.old) area)) }
        ensures rest { Stays true true (seen_of (shown self.old)) (seen_of (shown self.new)) self.old.time self.new.time (left_of (shown self.old)) (left_of (shown self.new)) }
        ensures counts { Counts (shown self.old) (shown self.new) }
        ensures recorded { (shown self.new).notes ≡ (shown self.old).notes }
        ensures cause { HasCause self.old.failed self.new.failed (is_ok result) }
        ensures failed { IsErr result ↔ IsDue (shown self.old) }
    {
        self.number = self.number.saturating_add(1);
        if is_among(&self.fails, self.number) {
            self.failed = self.failed.saturating_add(1);
            return Err(DiskFailed);
        }
        Ok(self.current[area as usize].len() as u64)
    }

    /// Beyond what every disk does: it fails exactly where its number is in the list, where no
    /// moment is left or where it would exceed the room. A write that is refused for room changes no
    /// byte and spends none. A write that fails otherwise is recorded as cut.
    fn write(&mut self, area: u8, at: u64, bytes: &[u8]) -> Result<(), DiskFailed>
        requires area { area < 3 }
        requires end { at + length bytes.now < 2 ^ 40 }
        ensures written { OnOk result (seen_of (shown self.new) area ≡ overlaid at bytes.now (seen_of (shown self.old) area)) }
        ensures others { TornIn area at (length bytes.now) (seen_of (shown self.old)) (seen_of (shown self.new)) }
        ensures last { IsLast (shown self.old) → seen_of (shown self.new) ≡ seen_of (shown self.old) }
        ensures time { Passes (is_ok result) self.old.time self.new.time (left_of (shown self.old)) (left_of (shown self.new)) (TornIn area at (length bytes.now)) }
        ensures cause { HasCause self.old.failed self.new.failed (is_ok result) }
        ensures failed { IsErr result ↔ (IsDue (shown self.old) ⊎ (IsLast (shown self.old) ⊎ PassesRoom (shown self.old) at (length bytes.now))) }
        ensures counts { Counts (shown self.old) (shown self.new) }
        ensures recorded { OnOk result ((shown self.new).notes ≡ (shown self.old).notes ++ record { area = area; at = at; bytes = bytes.now; effect = Effect.Written } ∷ []) }
        ensures refused { PassesRoom (shown self.old) at (length bytes.now) → SameHeld (shown self.old) (shown self.new) }
        ensures unspent { (IsLast (shown self.old) ⊎ PassesRoom (shown self.old) at (length bytes.now)) → spent_by (shown self.new).notes ≡ spent_by (shown self.old).notes }
        ensures cut { OnErr result (Fits (shown self.old) at (length bytes.now) → (shown self.new).notes ≡ (shown self.old).notes ++ record { area = area; at = at; bytes = bytes.now; effect = Effect.Cut } ∷ []) }
    {
        self.number = self.number.saturating_add(1);
        if self.time == u64::MAX {
            self.failed = self.failed.saturating_add(1);
            return Err(DiskFailed);
        }
        if !self.has_room(at, bytes.len() as u64) {
            self.pass_over(area);
            self.failed = self.failed.saturating_add(1);
            return Err(DiskFailed);
        }
        if is_among(&self.fails, self.number) {
            self.cut(area, at, bytes);
            self.failed = self.failed.saturating_add(1);
            return Err(DiskFailed);
        }
        self.put(area, at, bytes);
        Ok(())
    }

    /// Beyond what every disk does: it fails exactly where its number is in the list, where no
    /// moment is left or where the record has no room; one that fails changes nothing, and none
    /// spends a byte of the room.
    fn sync(&mut self, area: u8) -> Result<(), DiskFailed>
        requires area { area < 3 }
        ensures seen { seen_of (shown self.new) ≡ seen_of (shown self.old) }
        ensures durable { OnOk result ((image : ℕ → List ℕ) → left_of (shown self.new) self.new.time image → image area ≡ seen_of (shown self.new) area) }
        ensures time { Passes (is_ok result) self.old.time self.new.time (left_of (shown self.old)) (left_of (shown self.new)) (λ old new. new ≡ old) }
        ensures cause { HasCause self.old.failed self.new.failed (is_ok result) }
        ensures failed { IsErr result ↔ (IsDue (shown self.old) ⊎ (IsLast (shown self.old) ⊎ PassesCalls (shown self.old))) }
        ensures counts { Counts (shown self.old) (shown self.new) }
        ensures recorded { OnOk result ((shown self.new).notes ≡ (shown self.old).notes ++ record { area = area; at = 0; bytes = []; effect = Effect.Synced } ∷ []) }
        ensures refused { OnErr result (SameHeld (shown self.old) (shown self.new)) }
        ensures unspent { spent_by (shown self.new).notes ≡ spent_by (shown self.old).notes }
    {
        self.number = self.number.saturating_add(1);
        if self.time == u64::MAX {
            self.failed = self.failed.saturating_add(1);
            return Err(DiskFailed);
        }
        if self.time >= self.room.calls || is_among(&self.fails, self.number) {
            self.pass_over(area);
            self.failed = self.failed.saturating_add(1);
            return Err(DiskFailed);
        }
        self.record(area, Effect::Synced);
        Ok(())
    }
}
