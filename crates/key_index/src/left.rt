//! The rows under one key with their owners, and the list of those that were left.

ghost use Rattle.std.specs.Prelude.{◌≡◌, ◌≢◌, ◌↔◌, ℕ, IsTrue, Some, None, false};
ghost use Rattle.key_index.specs.declared.left.Seat.{Seat as SeatOf};
ghost use Rattle.key_index.specs.Left.{AreListed, IsListed, Lists, owner_at, seat_at};
ghost use Rattle.key_index.specs.Places.{IsLeft, without_left};

use crate::chain::{Chain, Links, Room};
use std::collections::BTreeMap;
use std::mem;

/// The seat of a row: None for an entry, or the client whose placeholder it is; and room for the row
/// in the list of the rows that were left, while that is unused.
#[derive(Drop)]
pub struct Seat {
    pub owner: Option<u16>,
    pub spare: Option<Room<u32>>,
}

/// The rows with the seat of each.
pub(crate) type Seats = BTreeMap<u32, Seat>;

impl Seat {
    /// Makes it a placeholder of the client. Returns the room for its row, if that is unused.
    pub fn leave(&mut self, client: u16) -> Option<Room<u32>>
        ensures owner { self.new.owner ≡ Some client }
        ensures spare { result ≡ self.old.spare }
    {
        self.owner = Some(client);
        self.spare.take()
    }
}

/// Takes a row out. The list may keep its number.
pub(crate) fn forget_row(seats: &mut Seats, row: u32)
    ensures gone { seat_at seats.new row ≡ None }
    ensures others { (q : ℕ) → q ≢ row → seat_at seats.new q ≡ seat_at seats.old q }
{
    let _ = seats.remove(&row);
}

/// Takes the placeholders of a client away. It goes over the list alone.
pub(crate) fn end_rows(seats: &mut Seats, left: &mut Chain<u32>, client: u16)
    requires { AreListed seats.old left.old }
    ensures listed { AreListed seats.new left.new }
    ensures ended { (row : ℕ) → owner_at seats.new row ≡ without_left client (owner_at seats.old row) }
{
    let mut rest = mem::replace(left, Chain::new());
    while let Some((row, room)) = rest.take() {
        end_row(seats, left, row, room, client);
    }
}

/// Takes a row away where it is a placeholder of the client. The list has it again where it is one
/// of another client, and an entry gets the room for it back.
fn end_row(seats: &mut Seats, left: &mut Chain<u32>, row: u32, room: Room<u32>, client: u16)
    ensures others { (q : ℕ) → q ≢ row → seat_at seats.new q ≡ seat_at seats.old q }
    ensures ended { owner_at seats.new row ≡ without_left client (owner_at seats.old row) }
    ensures listed { (seat : SeatOf) → seat_at seats.new row ≡ Some seat → IsListed left.new row seat }
    ensures more { (q : ℕ) → Lists left.old q → Lists left.new q }
{
    let Some(seat) = seats.get_mut(&row) else {
        return;
    };
    let Some(owner) = seat.owner else {
        seat.spare = Some(room);
        return;
    };
    if owner == client {
        let _ = seats.remove(&row);
        return;
    }
    left.add(row, room);
}

/// Whether one of the rows of the list is a placeholder.
pub(crate) fn any_left(seats: &Seats, left: &Chain<u32>) -> bool
    ensures found { IsTrue result → (row : ℕ) × IsLeft (owner_at seats.now row) }
    ensures none { result ≡ false → (row : ℕ) → Lists left.now row → ¬ IsLeft (owner_at seats.now row) }
{
    let mut rest = &left.links;
    while let Links::More(row, more) = rest {
        if is_left(seats, *row) {
            return true;
        }
        rest = more.as_ref();
    }
    false
}

/// Whether the row is a placeholder.
fn is_left(seats: &Seats, row: u32) -> bool
    ensures { IsTrue result ↔ IsLeft (owner_at seats.now row) }
{
    match seats.get(&row) {
        Some(seat) => seat.owner.is_some(),
        None => false,
    }
}
