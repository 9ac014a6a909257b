//! Which row each slot belongs to, and which client changes it: kept in memory, by slot.

ghost use Rattle.std.specs.Prelude.{◌≡◌, ◌+◌, ◌<◌, ◌≤◌, ℕ, length, true, false, if◌then◌else◌, ◌==◌, OnOk, get_or};
ghost use Rattle.std.specs.List.{Contains};
ghost use Rattle.row_fragments.specs.Fragments.{AreDistinct};
ghost use Rattle.byte_rows.specs.Places.{AreLaid, AreReady, IsReady, place_in};

use std::alloc::AllocError;

/// What is known of a slot: the row that it belongs to, 0 where the slot is free; the slot before it
/// in the row's chain, 0 at the first; and the client, counted from 1, whose transaction changed it,
/// or 0.
#[derive(Clone, Copy)]
pub struct Place {
    pub row: u32,
    pub previous: u32,
    pub owner: u16,
}

/// What is known of the slot. A slot past the end of the list is free.
pub fn place_of(places: &[Place], slot: u32) -> Place
    ensures { result ≡ place_in places.now slot }
{
    let at = slot as usize;
    if at < places.len() {
        places[at]
    } else {
        Place {
            row: 0,
            previous: 0,
            owner: 0,
        }
    }
}

/// Changes what is known of the slot.
pub fn set_place(places: &mut [Place], slot: u32, to: Place)
    requires { slot < length places.old }
    ensures places { (k : ℕ) → place_in places.new k ≡ (if k == slot then to else place_in places.old k) }
    ensures long { length places.new ≡ length places.old }
{
    places[slot as usize] = to;
}

/// Makes the list long enough for the slot. After an error nothing has changed.
pub fn reach(places: &mut Vec<Place>, slot: u32) -> Result<(), AllocError>
    ensures places { (k : ℕ) → place_in places.new.items k ≡ place_in places.old.items k }
    ensures long { length places.old.items ≤ length places.new.items }
    ensures reached { OnOk result (slot < length places.new.items) }
{
    let at = slot as usize;
    if at < places.len() {
        return Ok(());
    }
    let free = Place {
        row: 0,
        previous: 0,
        owner: 0,
    };
    places.resize(at + 1, free)
}

/// Whether no slot is among these twice.
pub fn are_distinct(slots: &[u32]) -> bool
    ensures yes { result ≡ true → AreDistinct slots.now }
    ensures no { result ≡ false → ¬ AreDistinct slots.now }
{
    match slots.split_first() {
        None => true,
        Some((first, rest)) => !rest.contains(first) && are_distinct(rest),
    }
}

/// The highest of the slots, or 0.
pub fn highest(slots: &[u32]) -> u32
    ensures { (k : ℕ) → Contains slots.now k → k ≤ result }
{
    match slots.split_first() {
        None => 0,
        Some((first, rest)) => {
            let most = highest(rest);
            if most < *first { *first } else { most }
        }
    }
}

/// Whether the slot may come after `previous` in a chain of the row that the client writes: it is
/// free, or it stands there and no other client changes it.
fn is_ready(place: Place, row: u32, previous: u32, owner: u16) -> bool
    ensures { result ≡ true → IsReady place row previous owner }
{
    if place.row == 0 {
        return place.owner == 0;
    }
    if place.row != row || place.previous != previous {
        return false;
    }
    place.owner == 0 || place.owner == owner
}

/// Whether the slots are slots for rows that may be written as a chain of the row, after `previous`.
pub fn are_ready(places: &[Place], slots: &[u32], row: u32, previous: u32, owner: u16) -> bool
    ensures { result ≡ true → AreReady places.now slots.now row previous owner }
{
    match slots.split_first() {
        None => true,
        Some((first, rest)) => {
            let at = *first;
            if at < 8192 || 1_048_576 <= at {
                return false;
            }
            if !is_ready(place_of(places, at), row, previous, owner) {
                return false;
            }
            are_ready(places, rest, row, at, owner)
        }
    }
}

/// Notes the slots as the row's, in this order after `previous`, changed by the client.
pub fn lay(places: &mut [Place], slots: &[u32], row: u32, previous: u32, owner: u16)
    requires within { (k : ℕ) → Contains slots.now k → k < length places.old }
    requires distinct { AreDistinct slots.now }
    ensures laid { AreLaid places.new slots.now row previous owner }
    ensures rest { (k : ℕ) → ¬ Contains slots.now k → place_in places.new k ≡ place_in places.old k }
    ensures long { length places.new ≡ length places.old }
{
    match slots.split_first() {
        None => {}
        Some((first, rest)) => {
            let at = *first;
            let place = Place {
                row,
                previous,
                owner,
            };
            set_place(places, at, place);
            lay(places, rest, row, at, owner);
        }
    }
}
