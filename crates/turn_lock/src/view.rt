//! What the lock's table was made with, and what a seat of it knows. Values of these types exist in contracts and proofs alone, but for the key, which has two numbers.
use std::collections::LinkedList;
use std::snapshot::Snapshot;

/// What a lock was made of.
#[derive(Drop)]
pub struct Key<T> {
    /// The value that was handed to `new`.
    pub start: Snapshot<T>,
    /// The number of the first client.
    pub first: u64,
    /// How many clients there are, each with a pass.
    pub seats: u64,
}

/// How far a seat is with its turn.
pub enum Stage<E> {
    /// It has no ticket.
    Idle,
    /// It waits with this ticket. Tickets are counted without bound, and the words have them modulo 2^64.
    Waits(u64),
    /// It has the value out under this ticket, and this is the list of the value that it took or is to put back.
    Holds(u64, LinkedList<E>),
}

/// What a seat knows.
pub struct View<T, E> {
    /// What the lock was made of. None where another seat has taken this one in.
    pub key: Option<Key<T>>,
    /// The number of passes that the seat represents, those included that it may still make.
    pub parts: u64,
    /// The clients whose passes it has, each with the client's own entries.
    pub lists: LinkedList<(u64, LinkedList<E>)>,
    /// How far it is with its turn.
    pub stage: Stage<E>,
}
