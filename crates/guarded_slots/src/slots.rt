//! `Guarded` is `Slots`.

ghost use Rattle.std.specs.Prelude.{◌≡◌, IsTrue, false};
ghost use Rattle.guarded_slots.specs.Guarded.{guarded_state};

use crate::guard::Guard;
use crate::guarded::Guarded;
use storage::{Mark, SlotFault, Slots};

/// Whether slots are tainted after a further write, which is allowed or not.
fn is_tainted(tainted: bool, allowed: bool) -> bool
    ensures { result ≡ false → (tainted ≡ false) × IsTrue allowed }
{
    tainted || !allowed
}

impl<S: Slots + Drop, G: Guard + Drop> Slots for Guarded<S, G> {
    ghost state = { λ g. guarded_state g.refused (S.Slots.state g.slots) };

    ghost stop = { λ g m left. S.Slots.stop g.slots m left };

    fn faults(&self) -> u64 {
        let faults = self.slots.faults();
        if self.refused && faults < u64::MAX {
            return faults + 1;
        }
        faults
    }

    fn end(&self) -> u32 {
        self.slots.end()
    }

    fn read(&mut self, slot: u32, into: &mut [u8; 256]) -> Result<(), SlotFault> {
        self.slots.read(slot, into)
    }

    fn begin(&mut self, client: u16) -> Result<(), SlotFault> {
        self.slots.begin(client)
    }

    fn room(&mut self, client: u16, writes: u32) -> Result<(), SlotFault> {
        self.slots.room(client, writes)
    }

    fn write(&mut self, client: u16, slot: u32, bytes: &[u8; 256]) -> Result<(), SlotFault> {
        self.tainted = is_tainted(self.tainted, self.guard.allows(slot, bytes));
        self.slots.write(client, slot, bytes)
    }

    fn mark(&self, client: u16) -> Mark {
        self.slots.mark(client)
    }

    fn back(&mut self, client: u16, mark: Mark) -> Result<(), SlotFault> {
        self.slots.back(client, mark)
    }

    fn commit(&mut self, client: u16) -> Result<u64, SlotFault> {
        if self.tainted {
            self.refused = true;
            return Err(SlotFault::Disk);
        }
        self.slots.commit(client)
    }

    fn abandon(&mut self, client: u16) {
        self.slots.abandon(client);
    }

    ghost stop_known = { λ g m left known. let is = S.stop_known g.slots m left known in record { observable = is.observable; from = is.from; past = is.past } };

    ghost since_past = { λ g. S.since_past g.slots };
}
