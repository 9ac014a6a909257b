// The turn of a client.
use crate::journal::Journal;
use crate::passes::Place;
use std::marker::Model;

/// The value is out with one client, which is to give it back.
///
/// Contracts see the lock that the turn is of, the client, and the list of the value that was taken. It cannot be dropped: `Shared::give` ends it.
pub struct Turn<T: Journal> {
    pub(crate) place: Place<T>,
    // How many entries the value had when it was taken.
    pub(crate) count: u64,
}

impl<T: Journal> Model for Turn<T> {
    ghost use Rattle.turn_lock.specs.Turn.{ClientTurn};
    ghost use Rattle.turn_lock.specs.Seats.{turn_of, HasTurn};

    ghost Value = { ClientTurn T T.Entry };

    ghost view = { λ t. turn_of t.place };

    ghost invariant = { λ t. HasTurn T.client t.place t.count };
}
