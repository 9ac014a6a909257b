//! A client's transaction.

ghost use Rattle.std.specs.Prelude.{◌≡◌, ◌<◌, ◌≤◌, ◌+◌, ◌-◌, ◌++◌, ◌∷◌, [], ℕ, if◌then◌else◌, length, take, drop, true, false, vec_capacity};
ghost use Rattle.std.specs.HashMap.{spare};
ghost use Rattle.storage.specs.Slots.{is_low, undone};
ghost use Rattle.new_database.specs.slots.Sparse.{slot_in, committed_in, holds, AllHeld};

use crate::slots::slot::{Slot, take_back};
use std::collections::HashMap;
use storage::Undo;

/// One client. A client without a transaction has no write and nothing promised.
#[derive(Drop)]
pub struct Client {
    pub begun: bool,
    pub undo: Vec<Undo>,
    /// The slot of each write, those that were undone included.
    pub written: Vec<u32>,
    pub counted: u32,
    pub low: u32,
    /// The number of further writes that memory is reserved for.
    pub spare: u32,
    /// The number of further writes of low slots that it is reserved for.
    pub low_room: u32,
    ghost counts: { counted ≤ 7989 },
    ghost lows: { begun ≡ true → low + low_room ≡ 10 },
    ghost few: { spare + low_room ≤ 8000 },
    ghost has_room: { length undo.items + (spare + low_room) ≤ vec_capacity undo },
    ghost can_note: { length written.items + (spare + low_room) ≤ vec_capacity written },
}

/// Whether writes of the slot do not count.
pub fn has_low_number(slot: u32) -> bool
    ensures { result ≡ is_low slot }
{
    5000 <= slot && slot < 5100
}

impl Client {
    ghost use Rattle.new_database.specs.slots.Mem.{transaction_of};
    ghost use Rattle.new_database.specs.slots.Sparse.{has_written};
    ghost use Rattle.new_database.specs.slots.Promised.{promised_to};

    /// Begins a transaction, with memory for ten writes of low slots.
    pub fn begin(&mut self) -> bool
        ensures yes { result ≡ true → transaction_of self.new ≡ record { begun = true; undo = []; written = has_written []; counted = 0; low = 0; room = 0 } }
        ensures no { result ≡ false → transaction_of self.new ≡ transaction_of self.old }
        ensures promised { promised_to self.new ≤ promised_to self.old + 10 }
    {
        if self.undo.reserve(10).is_err() {
            return false;
        }
        if self.written.reserve(10).is_err() {
            return false;
        }
        self.undo.clear();
        self.written.clear();
        self.begun = true;
        self.counted = 0;
        self.low = 0;
        self.spare = 0;
        self.low_room = 10;
        true
    }

    /// Takes memory for `writes` writes.
    pub fn make_room(&mut self, writes: u32) -> bool
        requires begun { self.old.begun ≡ true }
        requires few { writes ≤ 7989 }
        ensures yes { result ≡ true → transaction_of self.new ≡ record (transaction_of self.old) { room = writes } }
        ensures no { result ≡ false → transaction_of self.new ≡ transaction_of self.old }
        ensures undo { self.new.undo.items ≡ self.old.undo.items }
        ensures promised { promised_to self.new ≤ promised_to self.old + writes }
    {
        let more = (writes + self.low_room) as usize;
        if self.undo.reserve(more).is_err() {
            return false;
        }
        if self.written.reserve(more).is_err() {
            return false;
        }
        self.spare = writes;
        true
    }

    /// Adds a write, for which there is memory.
    pub fn add(&mut self, slot: u32, old: [u8; 256])
        requires begun { self.old.begun ≡ true }
        requires room { is_low slot ≡ false → 0 < self.old.spare }
        requires counted { is_low slot ≡ false → self.old.counted < 7989 }
        requires low { is_low slot ≡ true → self.old.low < 10 }
        ensures begun { self.new.begun ≡ true }
        ensures undo { self.new.undo.items ≡ self.old.undo.items ++ record { slot = slot; old = old } ∷ [] }
        ensures written { self.new.written.items ≡ self.old.written.items ++ slot ∷ [] }
        ensures counted { self.new.counted ≡ (if is_low slot then self.old.counted else self.old.counted + 1) }
        ensures low { self.new.low ≡ (if is_low slot then self.old.low + 1 else self.old.low) }
        ensures room { self.old.spare - 1 ≤ self.new.spare }
        ensures promised { promised_to self.new + 1 ≡ promised_to self.old }
    {
        let write = Undo { slot, old };
        self.undo.push(write).unwrap();
        self.written.push(slot).unwrap();
        if has_low_number(slot) {
            self.low += 1;
            self.low_room -= 1;
        } else {
            self.counted += 1;
            self.spare -= 1;
        }
    }

    /// Undoes writes until `stand` of them are left.
    pub fn go_back(&mut self, slots: &mut HashMap<u32, Slot>, stand: usize)
        requires stand { stand ≤ length self.old.undo.items }
        requires held { AllHeld slots.old self.old.undo.items }
        ensures transaction { transaction_of self.new ≡ record (transaction_of self.old) { undo = take stand self.old.undo.items } }
        ensures promised { promised_to self.new ≡ promised_to self.old }
        ensures reads { (k : ℕ) → slot_in slots.new k ≡ undone (drop stand self.old.undo.items) (slot_in slots.old) k }
        ensures committed { (k : ℕ) → committed_in slots.new k ≡ committed_in slots.old k }
        ensures same { (k : ℕ) → holds slots.new k ≡ holds slots.old k }
        ensures spare { spare slots.new ≡ spare slots.old }
    {
        take_back(slots, &mut self.undo, stand);
    }

    /// Ends the transaction.
    pub fn end(&mut self)
        ensures idle { transaction_of self.new ≡ record { begun = false; undo = []; written = has_written []; counted = 0; low = 0; room = 0 } }
        ensures promised { promised_to self.new ≡ 0 }
    {
        self.undo.clear();
        self.written.clear();
        self.begun = false;
        self.counted = 0;
        self.low = 0;
        self.spare = 0;
        self.low_room = 0;
    }
}
