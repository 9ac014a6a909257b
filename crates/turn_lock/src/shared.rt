// The lock.
ghost use Rattle.std.specs.Prelude.{◌≡◌, ℕ, ◌+◌, ◌≤◌, ◌<◌, [], length, All, IfOk, IfErr, vec_capacity};
ghost use Rattle.turn_lock.specs.Journal.{own_entries, Adds};
ghost use Rattle.turn_lock.specs.Shared.{IsMadeOf, HasOrigin, Extends, first_of, seats_of};
ghost use Rattle.turn_lock.specs.Passes.{passes_from};
ghost use Rattle.turn_lock.specs.View.{with_stage};
ghost use Rattle.turn_lock.specs.declared.view.Stage.TheVariants.{Idle};
ghost use Rattle.turn_lock.specs.Seats.{lock_of, IsMaker, PutsBack, HasPutBack};
ghost use Rattle.turn_lock.specs.Steps.{caught_up};

use crate::journal::Journal;
use crate::passes::{Pass, Passes, Place};
use crate::rule::TurnRule;
use crate::steps::{Draw, Hand, Look, Number, Record, Ring, Serve};
use crate::turn::Turn;
use crate::view::{Key, View};
use atomic_table::{Refused, Table};
use std::alloc::Global;
use std::marker::Model;
use std::snapshot::Snapshot;
use std::sync::Wait;

// The words of the table.
const ENTRIES: usize = 0;

const TICKETS: usize = 1;

const SERVED: usize = 2;

const CLIENTS: usize = 3;

const WORDS: usize = 20;

// The other words are bells. A waiting thread sleeps on the bell of its ticket, so up to this many threads are woken one by one.
const BELLS: u64 = 16;

// The slot of the value.
const VALUE: usize = 0;

/// Out of memory.
#[derive(Drop)]
pub struct NoMemory;

/// A lock over one value, for the clients that it was made with.
///
/// Contracts see which lock it is, and the value and clients that it was made with.
#[derive(Drop)]
pub struct Shared<T: Journal> {
    table: Table<Option<T>, View<T, T::Entry>, Key<T>, TurnRule<T>, Global>,
}

impl<T: Journal> Model for Shared<T> {
    ghost use Rattle.std.specs.Prelude.{◌≡◌, Some};
    ghost use Rattle.turn_lock.specs.Shared.{Lock};

    ghost Value = { Lock T };

    ghost view = { λ s. record { table = s.table.shared.table_id; key = Some s.table.shared.key } };

    ghost invariant = { λ s. (s.table.shared.table_id.words ≡ 20) × (s.table.shared.table_id.slots ≡ 1) };
}

// The bell of a ticket, as a word of the table.
fn bell_of(ticket: u64) -> usize
    ensures { (4 ≤ result) × (result < 20) }
{
    4 + (ticket % BELLS) as usize
}

impl<T: Journal> Shared<T> {
    /// A lock over the value, and a pass for each of the clients `first` to `first + seats - 1`, in this order, with no entry.
    ///
    /// There is one client at least, `first + seats` is 65,535 at most, and no entry of the value's list is of a client numbered `first` or above.
    /// Out of memory is the only error; it returns the value.
    pub fn new(
        alloc: Global,
        value: T,
        first: u16,
        seats: u16,
    ) -> Result<(Shared<T>, Passes<T>), (NoMemory, T)>
        requires some { 0 < seats }
        requires room { first + seats ≤ 65535 }
        requires fresh { (n : ℕ) → first ≤ n → own_entries T.client n (T.entries value) ≡ [] }
        ensures made { IfOk result (λ m. IsMadeOf m.0 value first seats) }
        ensures lock { IfOk result (λ m. m.1.lock ≡ m.0) }
        ensures passes { IfOk result (λ m. m.1.passes ≡ passes_from m.0 first seats) }
        ensures back { IfErr result (λ refused. refused.1 ≡ value) }
    {
        let Ok(list) = Vec::with_capacity(alloc, seats as usize) else {
            return Err((NoMemory, value));
        };
        let Ok(mut slots) = Vec::with_capacity(alloc, 1) else {
            list.destroy_empty();
            return Err((NoMemory, value));
        };
        let count = value.entries();
        let key = Key {
            start: Snapshot::of(&value),
            first: u64::from(first),
            seats: u64::from(seats),
        };
        slots.push_reserved(Some(value));
        let mut words = [0; WORDS];
        words[ENTRIES] = count;
        words[CLIENTS] = u64::from(first);
        match Table::new(alloc, &words, slots, &key) {
            Ok((table, maker)) => {
                let shared = Shared { table };
                let passes = shared.make_passes(maker, list, seats);
                Ok((shared, passes))
            }
            Err(refused) => {
                list.destroy_empty();
                let Refused { mut slots } = refused;
                let value = slots.pop().unwrap().unwrap();
                slots.destroy_empty();
                Err((NoMemory, value))
            }
        }
    }

    // Draws the clients' numbers, and makes a pass of each. The list has room for them.
    fn make_passes(&self, mut maker: Place<T>, mut list: Vec<Pass<T>>, seats: u16) -> Passes<T>
        requires maker { IsMaker maker seats × (lock_of maker ≡ self.now) }
        requires seats { seats_of self.now ≡ seats }
        requires list { (list.items ≡ []) × (seats ≤ vec_capacity list) }
        ensures { (result.lock ≡ self.now) × (result.passes ≡ passes_from self.now (first_of self.now) seats) }
    {
        let shared = &self.table.shared;
        for _i in 0..seats {
            shared.fetch_add::<Number>(&mut maker, CLIENTS, 1);
            let place = shared.split_seat::<Hand>(&mut maker);
            list.push_reserved(Pass { place });
        }
        Passes { maker, list }
    }

    /// Waits for the turn of the pass's client, and takes the value out.
    ///
    /// The client's entries in the value's list are exactly the pass's own, in order. The value has the origin of the one that the lock was made with, and its list begins with that one's.
    /// A thread that waits is parked, and the `give` that serves its ticket wakes it. The contract does not claim that its turn comes.
    pub fn take<R: Wait>(&self, rt: &R, pass: Pass<T>) -> (T, Turn<T>)
        requires { pass.lock ≡ self.now }
        ensures own { own_entries T.client pass.client (T.entries result.0) ≡ pass.list }
        ensures start { Extends T.entries T.origin self.now result.0 }
        ensures lock { result.1.lock ≡ self.now }
        ensures client { result.1.client ≡ pass.client }
        ensures taken { result.1.taken ≡ T.entries result.0 }
    {
        let Pass { mut place } = pass;
        let shared = &self.table.shared;
        let ticket = shared.fetch_add::<Draw>(&mut place, TICKETS, 1);
        let bell = bell_of(ticket);
        for _ in rt.forever() {
            let rung = shared.peek(bell);
            let served = shared.load::<Look<T>>(&mut place, SERVED);
            if served == ticket {
                let value = shared.exchange(&mut place, VALUE, None).unwrap();
                let count = value.entries();
                return (value, Turn { place, count });
            }
            // It sleeps only while the bell has not rung since before the read, so no wake is missed.
            shared.park(rt, bell, (rung & 0xffff_ffff) as u32);
        }
        unreachable!()
    }

    /// Puts the value back, and ends the turn.
    ///
    /// The value has the origin of the one that the lock was made with, as the one taken had.
    /// Its list is the one taken, followed by at most one more entry, of the turn's client. The pass then has the client's entries in it.
    pub fn give(&self, turn: Turn<T>, value: T) -> Pass<T>
        requires lock { turn.lock ≡ self.now }
        requires origin { HasOrigin T.origin self.now value }
        requires adds { Adds T.client turn.client turn.taken (T.entries value) }
        ensures lock { result.lock ≡ self.now }
        ensures client { result.client ≡ turn.client }
        ensures own { result.list ≡ own_entries T.client turn.client (T.entries value) }
    {
        let Turn { mut place, count } = turn;
        let longer = value.entries() > count;
        // The value comes first: a record gives the seat its knowledge of the list in the slot.
        let nothing = self.table.shared.exchange(&mut place, VALUE, Some(value));
        let None = nothing else { unreachable!() };
        self.record(&mut place, longer);
        self.serve(&mut place);
        Pass { place }
    }

    // Counts the additional entry of the value in the slot, if its list is longer than the one taken.
    fn record(&self, place: &mut Place<T>, longer: bool)
        requires lock { lock_of place.old ≡ self.now }
        requires value { PutsBack T.entries T.client place.old longer }
        ensures table { place.new.table_id ≡ place.old.table_id }
        ensures list { place.new.me ≡ (caught_up T.entries T.client place.old.me.0 place.old.me.1, place.old.me.1) }
    {
        if longer {
            self.table.shared.fetch_add::<Record<T>>(place, ENTRIES, 1);
        }
    }

    // Gives the slot back, serves the next ticket and wakes its thread.
    fn serve(&self, place: &mut Place<T>)
        requires lock { lock_of place.old ≡ self.now }
        requires value { HasPutBack T.entries T.client T.origin self.now place.old }
        ensures table { place.new.table_id ≡ place.old.table_id }
        ensures idle { place.new.me ≡ (with_stage place.old.me.0 Idle, []) }
    {
        let shared = &self.table.shared;
        let served = shared.fetch_add::<Serve>(place, SERVED, 1);
        // A thread that draws a ticket after this read finds its turn, and does not sleep.
        let next = served.wrapping_add(1);
        if shared.peek(TICKETS) != next {
            let bell = bell_of(next);
            shared.fetch_add::<Ring>(place, bell, 1);
            shared.wake_all(bell);
        }
    }

    /// Ends the lock and every pass that was made, and returns the value.
    ///
    /// The entries of each pass's client are exactly the pass's own, in order. The value has the origin of the one that the lock was made with, and its list begins with that one's.
    pub fn close(self, passes: Passes<T>) -> T
        requires lock { passes.lock ≡ self }
        requires all { length passes.passes ≡ seats_of self }
        ensures own { All (λ p. own_entries T.client p.client (T.entries result) ≡ p.list) passes.passes }
        ensures start { Extends T.entries T.origin self result }
    {
        let Passes {
            mut maker,
            mut list,
        } = passes;
        let Shared { table } = self;
        while let Some(pass) = list.pop() {
            let Pass { place } = pass;
            table.shared.join_seat::<Hand>(&mut maker, place);
        }
        list.destroy_empty();
        let mut closed = table.close_with(maker);
        let value = closed.take(VALUE).unwrap();
        closed.free();
        value
    }
}
