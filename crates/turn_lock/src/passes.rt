// The passes of the clients, one by one and together.
ghost use Rattle.std.specs.Prelude.{◌≡◌, ◌<◌, [], ◌∷◌, ◌++◌, length, MatchOption};
ghost use Rattle.turn_lock.specs.Shared.{seats_of};

use crate::journal::Journal;
use crate::view::View;
use atomic_table::Seat;
use std::marker::Model;

// A seat of a lock's table.
pub(crate) type Place<T> = Seat<Option<T>, View<T, <T as Journal>::Entry>>;

/// The right of one client to take turns.
///
/// Contracts see the lock that it is of, the client, and the client's own entries so far. It takes no memory.
#[derive(Drop)]
pub struct Pass<T: Journal> {
    pub(crate) place: Place<T>,
}

impl<T: Journal> Model for Pass<T> {
    ghost use Rattle.turn_lock.specs.Passes.{ClientPass};
    ghost use Rattle.turn_lock.specs.Seats.{pass_of, HasPass};

    ghost Value = { ClientPass T T.Entry };

    ghost view = { λ p. pass_of p.place };

    ghost invariant = { λ p. HasPass p.place };
}

/// The passes of one lock that are in hand, in order.
///
/// `Shared::new` makes the list with a pass for each client. It has room for all of them, so neither method takes memory.
#[derive(Drop)]
pub struct Passes<T: Journal> {
    // The first seat of the table. It made the passes, and at the end takes them in.
    pub(crate) maker: Place<T>,
    pub(crate) list: Vec<Pass<T>>,
}

impl<T: Journal> Model for Passes<T> {
    ghost use Rattle.std.specs.Prelude.{◌≡◌, ◌≤◌, All, vec_capacity};
    ghost use Rattle.turn_lock.specs.Shared.{seats_of};
    ghost use Rattle.turn_lock.specs.Passes.{PassList, IsPassOf};
    ghost use Rattle.turn_lock.specs.Seats.{lock_of, IsMaker};

    ghost Value = { PassList T T.Entry };

    ghost view = { λ p. record { lock = lock_of p.maker; passes = p.list.items } };

    ghost invariant = { λ p. IsMaker p.maker 0 × (seats_of (lock_of p.maker) ≤ vec_capacity p.list) × All (IsPassOf (lock_of p.maker)) p.list.items };
}

impl<T: Journal> Passes<T> {
    /// Takes the last pass out. It is None exactly where none is in the list.
    pub fn take_last(&mut self) -> Option<Pass<T>>
        ensures lock { self.new.lock ≡ self.old.lock }
        ensures last { MatchOption result ((self.old.passes ≡ []) × (self.new.passes ≡ [])) (λ p. (self.old.passes ≡ self.new.passes ++ p ∷ []) × (p.lock ≡ self.old.lock)) }
    {
        self.list.pop()
    }

    /// Adds a pass of the same lock at the end. The list has fewer than `Shared::new` made.
    pub fn put_back(&mut self, pass: Pass<T>)
        requires lock { pass.lock ≡ self.old.lock }
        requires room { length self.old.passes < seats_of self.old.lock }
        ensures lock { self.new.lock ≡ self.old.lock }
        ensures last { self.new.passes ≡ self.old.passes ++ pass ∷ [] }
    {
        self.list.push_reserved(pass);
    }
}
