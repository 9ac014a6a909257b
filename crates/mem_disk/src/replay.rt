//! The record replayed: what was synced of an area, and what became of the writes since.

ghost use Rattle.std.specs.Prelude.{◌≡◌, ◌<◌, ◌≤◌, ◌+◌, ◌^◌, ℕ, List, length, take, drop, OnOk, IfOk};
ghost use Rattle.mem_disk.specs.Notes.{Note, note_of, notes_of, done, after_notes, fresh};
ghost use Rattle.mem_disk.specs.Crash.{is_write, synced_in, is_unsynced, first_torn, torn_by, torn_all, area_of, crashed};
ghost use Rattle.mem_disk.specs.Sound.{IsInside, AllInside};

use crate::areas::overlay;
use crate::call::{Call, Effect};
use crate::images::{Images, Torn};
use abl_base::Bytes;
use std::alloc::{AllocError, Global};

/// The bytes of a call.
pub fn bytes_of<'a>(pool: &'a [u8], call: &Call) -> &'a [u8]
    requires { IsInside (length pool.now) call.now }
    ensures { result.now ≡ (note_of pool.now call.now).bytes }
{
    &pool[call.from..call.from + call.length]
}

/// One call more on an area.
fn replay(
    seen: &mut Vec<u8>,
    synced: &mut Vec<u8>,
    call: &Call,
    pool: &[u8],
) -> Result<(), AllocError>
    requires { IsInside (length pool.now) call.now }
    ensures seen { OnOk result ((pending : List Note) → seen.new.items ≡ (done (note_of pool.now call.now) (record { synced = synced.old.items; pending = pending; seen = seen.old.items })).seen) }
    ensures synced { OnOk result ((pending : List Note) → synced.new.items ≡ (done (note_of pool.now call.now) (record { synced = synced.old.items; pending = pending; seen = seen.old.items })).synced) }
{
    match call.effect {
        Effect::Written => overlay(seen, call.at as usize, bytes_of(pool, call)),
        Effect::Synced => {
            synced.clear();
            synced.extend_from_slice(seen)
        }
        Effect::Cut => Ok(()),
        Effect::Nothing => Ok(()),
    }
}

/// What was last synced of an area.
pub fn synced_area(
    alloc: Global,
    first: &[u8],
    calls: &[Call],
    pool: &[u8],
    area: u8,
) -> Result<Vec<u8>, AllocError>
    requires { AllInside (length pool.now) calls.now }
    ensures { IfOk result (λ v. v.items ≡ (after_notes area (fresh first.now) (notes_of pool.now calls.now)).synced) }
{
    let mut seen = first.to_vec(alloc)?;
    let mut synced = first.to_vec(alloc)?;
    for call in calls {
        if call.area == area {
            replay(&mut seen, &mut synced, call, pool)?;
        }
    }
    Ok(synced)
}

/// Whether the call is a write, done or cut.
fn is_a_write(effect: Effect) -> bool
    ensures { result ≡ is_write effect }
{
    match effect {
        Effect::Written => true,
        Effect::Cut => true,
        Effect::Synced => false,
        Effect::Nothing => false,
    }
}

/// Whether one of the calls synced the area.
fn has_sync(calls: &[Call], area: u8) -> bool
    ensures { (pool : List ℕ) → result ≡ synced_in area (notes_of pool calls.now) }
{
    for call in calls {
        if call.area == area {
            match call.effect {
                Effect::Synced => return true,
                Effect::Written => {}
                Effect::Cut => {}
                Effect::Nothing => {}
            }
        }
    }
    false
}

/// Whether the call is a write that none of the later ones synced.
fn is_pending(call: &Call, later: &[Call]) -> bool
    ensures { (pool : List ℕ) → result ≡ is_unsynced (note_of pool call.now) (notes_of pool later.now) }
{
    is_a_write(call.effect) && !has_sync(later, call.area)
}

/// Makes of the write what became of it.
fn tear(
    alloc: Global,
    image: &mut Vec<u8>,
    call: &Call,
    pool: &[u8],
    torn: Torn,
) -> Result<(), AllocError>
    requires { IsInside (length pool.now) call.now }
    ensures { OnOk result (image.new.items ≡ torn_by torn (note_of pool.now call.now) image.old.items) }
{
    match torn {
        Torn::Old => Ok(()),
        Torn::New => overlay(image, call.at as usize, bytes_of(pool, call)),
        Torn::Fill(byte) => {
            let mut fill = Vec::new(alloc);
            fill.resize(call.length, byte)?;
            overlay(image, call.at as usize, &fill)
        }
    }
}

/// What became of the write of that number; a missing one is Old.
fn torn_at(torn: &[Torn], i: usize) -> Torn
    ensures { result ≡ first_torn (drop i torn.now) }
{
    match torn.get(i) {
        Some(how) => *how,
        None => Torn::Old,
    }
}

/// An area with each write that was not synced as it became.
pub fn torn_area(
    alloc: Global,
    base: Vec<u8>,
    calls: &[Call],
    pool: &[u8],
    area: u8,
    torn: &[Torn],
) -> Result<Vec<u8>, AllocError>
    requires { AllInside (length pool.now) calls.now }
    ensures { IfOk result (λ v. v.items ≡ torn_all area base.items (notes_of pool.now calls.now) torn.now) }
{
    let mut image = base;
    let mut next = 0usize;
    for i in 0..calls.len() {
        let call = calls[i];
        if is_pending(&call, &calls[i + 1..]) {
            let how = torn_at(torn, next);
            next += 1;
            if call.area == area {
                tear(alloc, &mut image, &call, pool, how)?;
            }
        }
    }
    Ok(image)
}

/// An area as a crash after these calls leaves it.
fn crashed_area(
    alloc: Global,
    first: &[u8],
    calls: &[Call],
    pool: &[u8],
    area: u8,
    torn: &[Torn],
) -> Result<Bytes, AllocError>
    requires { AllInside (length pool.now) calls.now }
    ensures { IfOk result (λ bytes. bytes ≡ torn_all area (after_notes area (fresh first.now) (notes_of pool.now calls.now)).synced (notes_of pool.now calls.now) torn.now) }
{
    let base = synced_area(alloc, first, calls, pool, area)?;
    Ok(Bytes::from_vec(torn_area(alloc, base, calls, pool, area, torn)?))
}

/// The areas as a crash after these calls leaves them.
pub fn crashed_images(
    alloc: Global,
    first: &Images,
    calls: &[Call],
    pool: &[u8],
    torn: &[Torn],
) -> Result<Images, AllocError>
    requires { AllInside (length pool.now) calls.now }
    ensures { IfOk result (λ images. (k : ℕ) → area_of images k ≡ crashed (area_of first.now) (notes_of pool.now calls.now) torn.now k) }
{
    let d0 = crashed_area(alloc, first.d0.as_slice(), calls, pool, 0, torn)?;
    let b1 = crashed_area(alloc, first.b1.as_slice(), calls, pool, 1, torn)?;
    let b2 = crashed_area(alloc, first.b2.as_slice(), calls, pool, 2, torn)?;
    Ok(Images { d0, b1, b2 })
}
