//! What is known of the slots stays true where transactions begin, go back and end.

ghost use Rattle.std.specs.Prelude.{◌≡◌, ℕ, true};
ghost use Rattle.storage.specs.Slots.{Begins, Commits, Ends, GoesBack, Grows, Rests};
ghost use Rattle.byte_rows.specs.Places.{IsKept};

use crate::places::Place;
use storage::Slots;

/// Where nothing changes but the moment.
pub fn at_rest<S: Slots>(old: &S, new: &S, places: &[Place])
    ensures { IsKept (S.Slots.state old.now) places.now → (S.Slots.state new.now).failed ≡ (S.Slots.state old.now).failed →
        Rests (S.Slots.state old.now) (S.Slots.state new.now) → IsKept (S.Slots.state new.now) places.now }
{}

/// Where a transaction begins.
pub fn at_begin<S: Slots>(old: &S, new: &S, places: &[Place])
    ensures { IsKept (S.Slots.state old.now) places.now → (S.Slots.state new.now).failed ≡ (S.Slots.state old.now).failed →
        (client : ℕ) → Begins (S.Slots.state old.now) (S.Slots.state new.now) client → IsKept (S.Slots.state new.now) places.now }
{}

/// Where memory is reserved for writes.
pub fn at_room<S: Slots>(old: &S, new: &S, places: &[Place])
    ensures { IsKept (S.Slots.state old.now) places.now → (S.Slots.state new.now).failed ≡ (S.Slots.state old.now).failed →
        (client writes : ℕ) → ((S.Slots.state old.now).transaction client).begun ≡ true → Grows (S.Slots.state old.now) (S.Slots.state new.now) client writes → IsKept (S.Slots.state new.now) places.now }
{}

/// Where a client goes back to a mark: its slots stay its own until its transaction ends.
pub fn at_back<S: Slots>(old: &S, new: &S, places: &[Place])
    ensures { IsKept (S.Slots.state old.now) places.now → (S.Slots.state new.now).failed ≡ (S.Slots.state old.now).failed →
        (client mark : ℕ) → ((S.Slots.state old.now).transaction client).begun ≡ true → GoesBack (S.Slots.state old.now) (S.Slots.state new.now) client mark → IsKept (S.Slots.state new.now) places.now }
{}

/// Where a transaction commits.
pub fn at_commit<S: Slots>(old: &S, new: &S, places: &[Place])
    ensures { IsKept (S.Slots.state old.now) places.now → (S.Slots.state new.now).failed ≡ (S.Slots.state old.now).failed →
        (client : ℕ) → Commits (S.Slots.state old.now) (S.Slots.state new.now) client → IsKept (S.Slots.state new.now) places.now }
{}

/// Where a transaction is abandoned.
pub fn at_abandon<S: Slots>(old: &S, new: &S, places: &[Place])
    ensures { IsKept (S.Slots.state old.now) places.now →
        (client : ℕ) → Ends (S.Slots.state old.now) (S.Slots.state new.now) client → IsKept (S.Slots.state new.now) places.now }
{}
