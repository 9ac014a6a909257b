//! Slots with a guard.

ghost use Rattle.std.specs.Prelude.{◌≡◌, ℕ, List, [], IsTrue, false};
ghost use Rattle.guarded_slots.specs.Guarded.{AllAllowed, IsGuarded, IsGuarded-prop};
ghost use Rattle.storage.specs.Slots.{IsReadable};
ghost use Rattle.std.proofs.Props.{props};

use crate::guard::Guard;
use storage::Slots;

/// Slots that commit no write which the guard does not allow. A transaction may make such a write; from
/// then on each commit of any transaction answers Disk, as where the disk failed.
#[derive(Drop)]
pub struct Guarded<S: Slots + Drop, G: Guard + Drop> {
    pub slots: S,
    pub guard: G,
    /// A write was made that the guard does not allow.
    pub(crate) tainted: bool,
    /// A commit was refused therefore.
    pub(crate) refused: bool,
    ghost guarded: { IsGuarded (G.allowed guard) tainted (S.Slots.state slots) (S.Slots.stop slots) } by { Prim.hlevel (props, IsGuarded-prop) },
    ghost order: { tainted ≡ false → refused ≡ false },
}

impl<S: Slots + Drop, G: Guard + Drop> Guarded<S, G> {
    /// Guards these slots, in which no transaction is begun, from now on.
    pub fn new(slots: S, guard: G) -> Guarded<S, G>
        requires clean { (c : ℕ) → ((S.Slots.state slots).transaction c).undo ≡ [] }
        requires committed { IsTrue (S.Slots.state slots).observable → AllAllowed (G.allowed guard) (S.Slots.state slots).committed }
        requires doubt { IsTrue (S.Slots.state slots).observable → AllAllowed (G.allowed guard) (S.Slots.state slots).doubt }
        requires reads { IsReadable (S.Slots.state slots) → AllAllowed (G.allowed guard) (S.Slots.state slots).reads }
        requires stops { (m : ℕ) (left : ℕ → List ℕ) → S.Slots.stop slots m left → AllAllowed (G.allowed guard) left }
        ensures slots { result.slots ≡ slots }
        ensures state { ⟦<Guarded<S, G> as Slots>⟧.state result ≡ S.Slots.state slots }
        ensures stops { (m : ℕ) (left : ℕ → List ℕ) → ⟦<Guarded<S, G> as Slots>⟧.stop result m left → S.Slots.stop slots m left }
    {
        Guarded {
            slots,
            guard,
            tainted: false,
            refused: false,
        }
    }

    /// The slots again. Each stop leaves in each slot what the guard allows.
    pub fn close(self) -> S
        ensures slots { result ≡ self.slots }
        ensures stops { (m : ℕ) (left : ℕ → List ℕ) → S.Slots.stop result m left → AllAllowed (G.allowed self.guard) left }
    {
        self.slots
    }
}
