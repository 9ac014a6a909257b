//! The rows under one key.

ghost use Rattle.std.specs.Prelude.{◌≡◌, ◌≢◌, ◌↔◌, ◌≤◌, ℕ, IsTrue, IsSome, IsOk, OnOk, OnErr, IfSome, IfNone, None, Some};
ghost use Rattle.std.specs.FinMap as map;
ghost use Rattle.key_index.specs.Left.{owner_at};
ghost use Rattle.key_index.specs.Places.{HasEntry, HasLeft, IsAbove, IsBelow, is_client, without_left};

use crate::chain::{Chain, Room};
use crate::left::{Seat, Seats, any_left, end_rows, forget_row};
use std::alloc::{AllocError, Global};
use std::collections::BTreeMap;
use std::marker::Model;
use std::ops::Bound;

/// The rows under one key, each with None for an entry or the client that left it, and a list that
/// has each row that was left.
#[derive(Drop)]
pub struct Rows {
    seats: Seats,
    left: Chain<u32>,
}

impl Model for Rows {
    ghost use Rattle.std.specs.Prelude.{Option, ℕ};
    ghost use Rattle.std.specs.Ordering.{nat_cmp};
    ghost use Rattle.std.specs.Coded.{coded_ℕ, coded_option};
    ghost use Rattle.std.specs.FinMap as map;
    ghost use Rattle.key_index.specs.Left.{AreListed, owners_of};

    ghost Value = { map.FinMap nat_cmp (Option ℕ) };

    ghost coded = { map.code coded_ℕ (coded_option coded_ℕ) };

    ghost view = { λ rows. map.from_entries (owners_of rows.seats.entries) };

    ghost invariant = { λ rows. AreListed rows.seats rows.left };
}

impl Rows {
    /// No row.
    pub fn new(alloc: Global) -> Rows
        ensures { result ≡ map.empty }
    {
        Rows {
            seats: BTreeMap::new(alloc),
            left: Chain::new(),
        }
    }

    /// Makes a row an entry. It fails only out of memory, and not if the row is an entry or a
    /// placeholder already; after a failure nothing has changed.
    pub fn enter(&mut self, alloc: Global, row: u32) -> Result<(), AllocError>
        ensures ok { OnOk result (self.new ≡ map.insert self.old row None) }
        ensures err { OnErr result (self.new ≡ self.old) }
        ensures known { IsSome (map.get self.old row) → IsOk result }
    {
        if let Some(seat) = self.seats.get_mut(&row) {
            seat.owner = None;
            return Ok(());
        }
        let seat = Seat {
            owner: None,
            spare: Some(Room::new(alloc)?),
        };
        self.seats.insert(row, seat)?;
        Ok(())
    }

    /// Makes a row that is here a placeholder of the client. It takes no memory.
    pub fn leave(&mut self, row: u32, client: u16)
        requires { IsSome (map.get self.old row) }
        ensures { self.new ≡ map.insert self.old row (Some client) }
    {
        let Some(seat) = self.seats.get_mut(&row) else {
            return;
        };
        let Some(room) = seat.leave(client) else {
            return;
        };
        self.left.add(row, room);
    }

    /// Takes a row out, if it is here. It takes no memory.
    pub fn forget(&mut self, row: u32)
        ensures gone { map.get self.new row ≡ None }
        ensures others { (q : ℕ) → q ≢ row → map.get self.new q ≡ map.get self.old q }
    {
        forget_row(&mut self.seats, row);
    }

    /// Takes the placeholders of a client away. It takes no memory, and goes over the rows that any
    /// client has left here since the last end, and over those whose placeholders that end left.
    pub fn end(&mut self, client: u16)
        ensures { (row : ℕ) → map.get self.new row ≡ without_left client (map.get self.old row) }
    {
        end_rows(&mut self.seats, &mut self.left, client);
    }

    /// The content of the row: None if it is not here, Some None for an entry, or the client whose
    /// placeholder it is.
    pub fn get(&self, row: u32) -> Option<Option<u16>>
        ensures { result ≡ map.get self.now row }
    {
        let seat = self.seats.get(&row)?;
        Some(seat.owner)
    }

    /// Whether there is no row.
    pub fn is_empty(&self) -> bool
        ensures { IsTrue result ↔ ((row : ℕ) → map.get self.now row ≡ None) }
    {
        self.seats.is_empty()
    }

    /// Whether there is a placeholder. The list may still have rows that were entered again, but
    /// an end takes these out: after one, this looks at the first row of the list alone.
    pub fn has_left(&self) -> bool
        ensures { IsTrue result ↔ HasLeft self.now }
    {
        any_left(&self.seats, &self.left)
    }

    /// The least row with an entry, above the given one where one is given.
    pub fn least(&self, above: Option<u32>) -> Option<u32>
        ensures found { IfSome result (λ row. HasEntry self.now row) }
        ensures beyond { IfSome result (λ row. IsAbove above row) }
        ensures first { IfSome result (λ row. (q : ℕ) → IsAbove above q → HasEntry self.now q → row ≤ q) }
        ensures none { IfNone result ((q : ℕ) → IsAbove above q → ¬ HasEntry self.now q) }
    {
        least_entry(&self.seats, above)
    }

    /// The greatest row with an entry, below the given one where one is given.
    pub fn greatest(&self, below: Option<u32>) -> Option<u32>
        ensures found { IfSome result (λ row. HasEntry self.now row) }
        ensures beyond { IfSome result (λ row. IsBelow below row) }
        ensures last { IfSome result (λ row. (q : ℕ) → IsBelow below q → HasEntry self.now q → q ≤ row) }
        ensures none { IfNone result ((q : ℕ) → IsBelow below q → ¬ HasEntry self.now q) }
    {
        greatest_entry(&self.seats, below)
    }
}

/// The first row above the given one, and its content.
fn next_row(seats: &Seats, above: Option<u32>) -> Option<(u32, Option<u16>)>
    ensures found { IfSome result (λ next. owner_at seats.now next.0 ≡ Some next.1) }
    ensures beyond { IfSome result (λ next. IsAbove above next.0) }
    ensures first { IfSome result (λ next. (q : ℕ) → IsAbove above q → IsSome (owner_at seats.now q) → next.0 ≤ q) }
    ensures none { IfNone result ((q : ℕ) → IsAbove above q → owner_at seats.now q ≡ None) }
{
    match above {
        Some(from) => {
            let (row, seat) = seats
                .range((Bound::Excluded(from), Bound::Unbounded))
                .next()?;
            Some((*row, seat.owner))
        }
        None => {
            let (row, seat) = seats.range(..).next()?;
            Some((*row, seat.owner))
        }
    }
}

/// The last row below the given one, and its content.
fn previous_row(seats: &Seats, below: Option<u32>) -> Option<(u32, Option<u16>)>
    ensures found { IfSome result (λ next. owner_at seats.now next.0 ≡ Some next.1) }
    ensures beyond { IfSome result (λ next. IsBelow below next.0) }
    ensures last { IfSome result (λ next. (q : ℕ) → IsBelow below q → IsSome (owner_at seats.now q) → q ≤ next.0) }
    ensures none { IfNone result ((q : ℕ) → IsBelow below q → owner_at seats.now q ≡ None) }
{
    match below {
        Some(from) => {
            let (row, seat) = seats
                .range((Bound::Unbounded, Bound::Excluded(from)))
                .next_back()?;
            Some((*row, seat.owner))
        }
        None => {
            let (row, seat) = seats.range(..).next_back()?;
            Some((*row, seat.owner))
        }
    }
}

/// The least row with an entry, above the given one where one is given.
fn least_entry(seats: &Seats, above: Option<u32>) -> Option<u32>
    ensures found { IfSome result (λ row. owner_at seats.now row ≡ Some None) }
    ensures beyond { IfSome result (λ row. IsAbove above row) }
    ensures first { IfSome result (λ row. (q : ℕ) → IsAbove above q → owner_at seats.now q ≡ Some None → row ≤ q) }
    ensures none { IfNone result ((q : ℕ) → IsAbove above q → ¬ (owner_at seats.now q ≡ Some None)) }
{
    let mut from = above;
    loop {
        let Some((row, owner)) = next_row(seats, from) else {
            return None;
        };
        if owner.is_none() {
            return Some(row);
        }
        from = Some(row);
    }
}

/// The greatest row with an entry, below the given one where one is given.
fn greatest_entry(seats: &Seats, below: Option<u32>) -> Option<u32>
    ensures found { IfSome result (λ row. owner_at seats.now row ≡ Some None) }
    ensures beyond { IfSome result (λ row. IsBelow below row) }
    ensures last { IfSome result (λ row. (q : ℕ) → IsBelow below q → owner_at seats.now q ≡ Some None → q ≤ row) }
    ensures none { IfNone result ((q : ℕ) → IsBelow below q → ¬ (owner_at seats.now q ≡ Some None)) }
{
    let mut from = below;
    loop {
        let Some((row, owner)) = previous_row(seats, from) else {
            return None;
        };
        if owner.is_none() {
            return Some(row);
        }
        from = Some(row);
    }
}

/// Whether this is the client named here, if any is.
pub(crate) fn is_client(owner: Option<u16>, client: u16) -> bool
    ensures { result ≡ is_client client owner }
{
    match owner {
        Some(other) => other == client,
        None => false,
    }
}
