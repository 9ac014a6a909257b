//! The same rows over other slots.

ghost use Rattle.std.specs.Prelude.{◌≡◌, ℕ, [], false, IsTrue};
ghost use Rattle.byte_rows.specs.Clients.{client_in};

use crate::chains::Chains;
use storage::Slots;

impl<S: Slots + Drop> Chains<S> {
    /// The same rows over other slots, which read the same. In neither is a transaction begun. It reads
    /// no slot and takes no memory.
    pub fn with_slots<T: Slots + Drop>(self, slots: T) -> Chains<T>
        requires ended { (c : ℕ) → ((S.Slots.state self.slots).transaction c).begun ≡ false }
        requires fine_before { (S.Slots.state self.slots).failed ≡ false }
        requires idle { (c : ℕ) → ((T.Slots.state slots).transaction c).begun ≡ false }
        requires clean { (c : ℕ) → ((T.Slots.state slots).transaction c).undo ≡ [] }
        requires fine { (T.Slots.state slots).failed ≡ false }
        requires same { IsTrue (T.Slots.state slots).observable → IsTrue (S.Slots.state self.slots).observable × ((T.Slots.state slots).reads ≡ (S.Slots.state self.slots).reads) }
        ensures slots { result.slots ≡ slots }
        ensures counts { (c : ℕ) → client_in result.clients.items c ≡ client_in self.clients.items c }
    {
        let Chains {
            alloc,
            slots: _,
            places,
            free,
            clients,
            failed,
        } = self;
        Chains {
            alloc,
            slots,
            places,
            free,
            clients,
            failed,
        }
    }
}
