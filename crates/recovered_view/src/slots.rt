//! `RecoveredView` is `Slots`.

ghost use Rattle.recovered_view.specs.View.{viewed};
ghost use Rattle.std.proofs.Common.{rules};

use crate::view::RecoveredView;
use storage::{Mark, SlotFault, Slots};

impl Slots for RecoveredView {
    ghost state = { λ v. viewed v.slots.items v.begun };

    ghost stop = { λ v m slots. ⊥ };

    ghost stop_known = { λ v m slots none. absurd none };

    ghost since_past = { λ v. Prim.search rules };

    fn faults(&self) -> u64 {
        0
    }

    fn end(&self) -> u32 {
        self.slots.len() as u32
    }

    fn read(&mut self, slot: u32, into: &mut [u8; 256]) -> Result<(), SlotFault> {
        let slot = slot as usize;
        if slot < self.slots.len() {
            *into = self.slots[slot];
        } else {
            *into = [0; 256];
        }
        Ok(())
    }

    /// Refuses: a view takes no writes.
    fn begin(&mut self, _client: u16) -> Result<(), SlotFault> {
        Err(SlotFault::NoMemory)
    }

    fn room(&mut self, _client: u16, _writes: u32) -> Result<(), SlotFault> {
        Err(SlotFault::NoMemory)
    }

    fn write(&mut self, _client: u16, _slot: u32, _bytes: &[u8; 256]) -> Result<(), SlotFault> {
        Err(SlotFault::NoMemory)
    }

    fn mark(&self, _client: u16) -> Mark {
        Mark { at: 0 }
    }

    fn back(&mut self, _client: u16, _mark: Mark) -> Result<(), SlotFault> {
        Ok(())
    }

    fn commit(&mut self, _client: u16) -> Result<u64, SlotFault> {
        self.begun = None;
        Ok(0)
    }

    fn abandon(&mut self, _client: u16) {
        self.begun = None;
    }
}
