//! The sixteen clients of a store.

ghost use Rattle.std.specs.Prelude.{◌≡◌, ◌≢◌, ◌<◌, ◌+◌, ℕ, length, true, false, IfOk, OnOk, IsErrOf};
ghost use Rattle.std.specs.BinaryHeap.{heap_items};
ghost use Rattle.storage.specs.Slots.{NeverFull};
ghost use Rattle.free_slots.specs.Free.{free_in};
ghost use Rattle.row_fragments.specs.Calls.{Looked};
ghost use Rattle.row_fragments.specs.Fragments.{ends};
ghost use Rattle.byte_rows.specs.Clients.{client_in, no_client};
ghost use Rattle.byte_rows.specs.Noted.{AreSameClients, IsNoted};
ghost use Rattle.byte_rows.specs.Places.{owner_in};

use crate::client::Client;
use crate::places::Place;
use crate::settle::settle;
use free_slots::FreeSlots;
use std::alloc::{AllocError, Global};
use storage::{SlotFault, Slots};

/// Sixteen clients without a transaction.
pub fn idle_clients(alloc: Global) -> Result<Vec<Client>, AllocError>
    ensures sixteen { IfOk result (λ clients. length clients.items ≡ 16) }
    ensures idle { IfOk result (λ clients. (k : ℕ) → client_in clients.items k ≡ no_client) }
{
    let mut clients = Vec::new(alloc);
    for _ in 0..16u32 {
        clients.push(Client::idle(alloc))?;
    }
    Ok(clients)
}

/// Settles the slots of one client, if its transaction has ended.
fn settle_one<S: Slots>(
    slots: &mut S,
    places: &mut [Place],
    free: &mut FreeSlots,
    clients: &mut [Client],
    client: u16,
) -> Result<(), SlotFault>
    requires client { client < 16 }
    requires sixteen { length clients.old ≡ 16 }
    requires begun { (c : ℕ) → c < 16 → ((S.Slots.state slots.old).transaction c).begun ≡ (client_in clients.old c).begun }
    requires noted { IsNoted (S.Slots.state slots.old) places.old (free_in (heap_items free.old.back) free.old.end) clients.old }
    ensures noted { (IsErrOf result SlotFault.Disk → ⊥) → IsNoted (S.Slots.state slots.new) places.new (free_in (heap_items free.new.back) free.new.end) clients.new }
    ensures clients { AreSameClients clients.old clients.new }
    ensures settled { OnOk result ((client_in clients.old client).begun ≡ false → (k : ℕ) → ends k ≡ false → owner_in places.new k ≢ client + 1) }
    ensures none { OnOk result ((c k : ℕ) → owner_in places.new k ≡ c + 1 → owner_in places.old k ≡ c + 1) }
    ensures looked { Looked (S.Slots.state slots.old) (S.Slots.state slots.new) (S.Slots.stop slots.old) (S.Slots.stop slots.new) result }
    ensures only { NeverFull result }
{
    let one = &mut clients[client as usize];
    if one.begun {
        return Ok(());
    }
    settle(slots, places, free, client, &mut one.touched)
}

/// Settles the slots of each client whose transaction has ended. After an error other than Disk some
/// may be settled, and nothing else has changed.
pub fn settle_idle<S: Slots>(
    slots: &mut S,
    places: &mut [Place],
    free: &mut FreeSlots,
    clients: &mut [Client],
) -> Result<(), SlotFault>
    requires sixteen { length clients.old ≡ 16 }
    requires begun { (c : ℕ) → c < 16 → ((S.Slots.state slots.old).transaction c).begun ≡ (client_in clients.old c).begun }
    requires noted { IsNoted (S.Slots.state slots.old) places.old (free_in (heap_items free.old.back) free.old.end) clients.old }
    ensures noted { (IsErrOf result SlotFault.Disk → ⊥) → IsNoted (S.Slots.state slots.new) places.new (free_in (heap_items free.new.back) free.new.end) clients.new }
    ensures clients { AreSameClients clients.old clients.new }
    ensures settled { OnOk result ((c k : ℕ) → c < 16 → (client_in clients.new c).begun ≡ false → ends k ≡ false → owner_in places.new k ≢ c + 1) }
    ensures looked { Looked (S.Slots.state slots.old) (S.Slots.state slots.new) (S.Slots.stop slots.old) (S.Slots.stop slots.new) result }
    ensures only { NeverFull result }
{
    for client in 0..16u16 {
        settle_one(slots, places, free, clients, client)?;
    }
    Ok(())
}
