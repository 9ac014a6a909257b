//! The slots in memory.

ghost use Rattle.std.specs.Prelude.{◌≡◌, ◌^◌, ◌<◌, ◌≤◌, ℕ, List, [], length, true, false, refl, IfOk, OnErr};
ghost use Rattle.std.specs.HashMap.{spare};
ghost use Rattle.storage.specs.Slots.{is_low, Grows, Rests, Writes};
ghost use Rattle.new_database.specs.slots.Sparse.{AllHeld, has_written, holds};
ghost use Rattle.new_database.specs.slots.Promised.{promised, promised_to};
ghost use Rattle.new_database.specs.slots.Mem.{transaction_in, transaction_of, state_of, at_rest};
ghost use Rattle.std.proofs.Common.{rules};

use crate::slots::client::{Client, has_low_number};
use crate::slots::slot::{Slot, bytes_of, keep, put_bytes, reach};
use std::alloc::{AllocError, Global};
use std::collections::HashMap;
use storage::{Mark, SlotFault, Slots};

/// The most slots that a transaction may write, those of low numbers aside.
const MAX_SLOT_WRITES: u32 = 7989;

/// Slots in memory. Only those that were written take any.
#[derive(Drop)]
pub struct MemSlots {
    slots: HashMap<u32, Slot>,
    clients: Vec<Client>,
    /// One more than the greatest slot that was ever written.
    end: u32,
    ghost sixteen: { length clients.items ≡ 16 },
    ghost has_room: { promised clients.items ≤ spare slots },
    ghost held: { (k : ℕ) → AllHeld slots (transaction_in clients.items k).undo },
    ghost small: { end ≤ 1048576 },
    ghost blank: { (k : ℕ) → end ≤ k → holds slots k ≡ false },
}

/// A client without a transaction.
fn idle_client(alloc: Global) -> Client
    ensures idle { transaction_of result ≡ record { begun = false; undo = []; written = has_written []; counted = 0; low = 0; room = 0 } }
    ensures promised { promised_to result ≡ 0 }
{
    Client {
        begun: false,
        undo: Vec::new(alloc),
        written: Vec::new(alloc),
        counted: 0,
        low: 0,
        spare: 0,
        low_room: 0,
    }
}

/// Sixteen clients without a transaction.
fn idle_clients(alloc: Global) -> Result<Vec<Client>, AllocError>
    ensures sixteen { IfOk result (λ clients. length clients.items ≡ 16) }
    ensures idle { IfOk result (λ clients. (k : ℕ) → transaction_in clients.items k ≡ record { begun = false; undo = []; written = has_written []; counted = 0; low = 0; room = 0 }) }
    ensures promised { IfOk result (λ clients. promised clients.items ≡ 0) }
{
    let mut clients = Vec::new(alloc);
    for _ in 0..16u32 {
        clients.push(idle_client(alloc))?;
    }
    Ok(clients)
}

/// The number of further writes of all clients that memory is reserved for.
fn all_promised(clients: &[Client]) -> u32
    requires { length clients.now ≤ 16 }
    ensures { result ≡ promised clients.now }
{
    let mut total = 0u32;
    for client in clients {
        total += client.spare + client.low_room;
    }
    total
}

/// The end, once this slot was written.
fn end_after(end: u32, slot: u32) -> u32
    requires end { end ≤ 2 ^ 20 }
    requires slot { slot < 2 ^ 20 }
    ensures above { end ≤ result }
    ensures past { slot < result }
    ensures small { result ≤ 2 ^ 20 }
{
    if slot < end { end } else { slot + 1 }
}

impl MemSlots {
    /// Slots of zeros, with no transaction begun, at moment 0. Out of memory is the only refusal.
    pub fn new(alloc: Global) -> Result<MemSlots, AllocError>
        ensures { IfOk result (λ s. ⟦<MemSlots as Slots>⟧.state s ≡ at_rest) }
    {
        Ok(MemSlots {
            slots: HashMap::new(alloc),
            clients: idle_clients(alloc)?,
            end: 0,
        })
    }

    /// Reserves memory for `writes` writes of the client.
    fn make_room(&mut self, client: usize, writes: u32) -> bool
        requires client { client < 16 }
        requires begun { (transaction_in self.old.clients.items client).begun ≡ true }
        requires few { writes ≤ 7989 }
        ensures yes { result ≡ true → Grows (state_of self.old.slots self.old.clients.items) (state_of self.new.slots self.new.clients.items) client writes }
        ensures no { result ≡ false → Rests (state_of self.old.slots self.old.clients.items) (state_of self.new.slots self.new.clients.items) }
    {
        let total = all_promised(&self.clients);
        match self.slots.reserve((total + writes) as usize) {
            Ok(()) => {
                let client = &mut self.clients[client];
                client.make_room(writes)
            }
            Err(_) => false,
        }
    }

    /// Writes the slot, for which there is memory.
    fn put(&mut self, client: usize, slot: u32, bytes: &[u8; 256])
        requires client { client < 16 }
        requires slot { slot < 2 ^ 20 }
        requires begun { (transaction_in self.old.clients.items client).begun ≡ true }
        requires room { is_low slot ≡ false → 0 < (transaction_in self.old.clients.items client).room }
        requires counted { is_low slot ≡ false → (transaction_in self.old.clients.items client).counted < 7989 }
        requires low { is_low slot ≡ true → (transaction_in self.old.clients.items client).low < 10 }
        ensures { Writes (state_of self.old.slots self.old.clients.items) (state_of self.new.slots self.new.clients.items) client slot bytes.now }
    {
        reach(&mut self.slots, slot);
        self.end = end_after(self.end, slot);
        let before = put_bytes(&mut self.slots, slot, bytes);
        let client = &mut self.clients[client];
        client.add(slot, before);
    }
}

impl Slots for MemSlots {
    ghost state = { λ s. state_of s.slots s.clients.items };

    ghost stop = { λ s m slots. ⊥ };

    ghost stop_known = { λ s m slots none. absurd none };

    ghost since_past = { λ s. Prim.search rules };

    fn faults(&self) -> u64 {
        0
    }

    fn end(&self) -> u32 {
        self.end
    }

    fn read(&mut self, slot: u32, into: &mut [u8; 256]) -> Result<(), SlotFault> {
        *into = bytes_of(&self.slots, slot);
        Ok(())
    }

    fn begin(&mut self, client: u16) -> Result<(), SlotFault> {
        let total = all_promised(&self.clients);
        match self.slots.reserve((total + 10) as usize) {
            Ok(()) => {
                let client = &mut self.clients[client as usize];
                if client.begin() {
                    Ok(())
                } else {
                    Err(SlotFault::NoMemory)
                }
            }
            Err(_) => Err(SlotFault::NoMemory),
        }
    }

    fn room(&mut self, client: u16, writes: u32) -> Result<(), SlotFault> {
        if self.make_room(client as usize, writes) {
            Ok(())
        } else {
            Err(SlotFault::NoMemory)
        }
    }

    fn write(&mut self, client: u16, slot: u32, bytes: &[u8; 256]) -> Result<(), SlotFault> {
        let client = client as usize;
        if has_low_number(slot) {
            self.put(client, slot, bytes);
            return Ok(());
        }
        if self.clients[client].counted >= MAX_SLOT_WRITES {
            return Err(SlotFault::TxFull);
        }
        if self.clients[client].spare > 0 {
            self.put(client, slot, bytes);
            return Ok(());
        }
        if !self.make_room(client, 1) {
            return Err(SlotFault::NoMemory);
        }
        self.put(client, slot, bytes);
        Ok(())
    }

    fn mark(&self, client: u16) -> Mark {
        Mark {
            at: self.clients[client as usize].undo.len(),
        }
    }

    fn back(&mut self, client: u16, mark: Mark) -> Result<(), SlotFault> {
        let client = &mut self.clients[client as usize];
        client.go_back(&mut self.slots, mark.at);
        Ok(())
    }

    fn commit(&mut self, client: u16) -> Result<u64, SlotFault> {
        let client = &mut self.clients[client as usize];
        keep(&mut self.slots, &client.undo);
        client.end();
        Ok(0)
    }

    fn abandon(&mut self, client: u16) {
        let client = &mut self.clients[client as usize];
        client.go_back(&mut self.slots, 0);
        client.end();
    }
}
