// What a seat knows after each of its steps on the table. No value of these types is made.
ghost use Rattle.turn_lock.specs.View.{kept_part, handed_part, joined_view, spent_view};
ghost use Rattle.turn_lock.specs.Steps.{Numbers, Draws, Looks, Records, Serves, Rings};

use crate::journal::Journal;
use crate::view::View;
use atomic_table::{Join, Play, Split};
use std::marker::PhantomData;

// The first seat hands a part over to a new seat, or takes a seat in.
pub(crate) struct Hand;

impl<T, E> Split<View<T, E>> for Hand {
    ghost left = { kept_part };

    ghost right = { handed_part };
}

impl<T, E> Join<View<T, E>> for Hand {
    ghost both = { joined_view };

    ghost spent = { spent_view };
}

// The first seat draws the number of the next client.
pub(crate) struct Number;

impl<T, E> Play<Option<T>, View<T, E>> for Number {
    ghost then = { λ _. Numbers };
}

// A seat draws a ticket.
pub(crate) struct Draw;

impl<T, E> Play<Option<T>, View<T, E>> for Draw {
    ghost then = { λ _. Draws };
}

// A seat looks which ticket is served. If it is its own, it takes the value out in the same step.
pub(crate) struct Look<T> {
    of: PhantomData<T>,
}

impl<T: Journal> Play<Option<T>, View<T, T::Entry>> for Look<T> {
    ghost then = { λ _. Looks T.entries T.client T.origin };
}

// The seat that has the turn counts the entry that the value has more.
pub(crate) struct Record<T> {
    of: PhantomData<T>,
}

impl<T: Journal> Play<Option<T>, View<T, T::Entry>> for Record<T> {
    ghost then = { λ _. Records T.entries T.client };
}

// The seat that has the turn puts the value back and serves the next ticket in the same step.
pub(crate) struct Serve;

impl<T, E> Play<Option<T>, View<T, E>> for Serve {
    ghost then = { λ _. Serves };
}

// A seat rings a bell.
pub(crate) struct Ring;

impl<T, E> Play<Option<T>, View<T, E>> for Ring {
    ghost then = { λ _. Rings };
}
