//! Moves that enter, made with a way back.

ghost use Rattle.std.specs.Prelude.{◌≡◌, ◌⊎◌, ◌<◌, ◌++◌, ◌∷◌, ◌↔◌, [], ℕ, length, IsTrue, IfOk, OnOk, OnErr, IfSome, None, Some};
ghost use Rattle.key_index.specs.Index.{IsSame, Puts, keeper_of, place_at};
ghost use Rattle.row_indexes.specs.Places.{AreWithin, keepers_of, owner_after, places_of, with_place};
ghost use Rattle.row_indexes.specs.Making.{CanMake, CanMakeOne, kept_after, made, with_keeper};
ghost use Rattle.row_indexes.specs.index_changes.Entering.{AreBefore, IsBefore, Notes};

use crate::Move;
use crate::index_changes::forgetting::forget_one;
use abl_base::RowId;
use key_index::{Index, PlaceState};
use std::alloc::{AllocError, Global};

/// What the place of a move that enters and its key were before it. `left` says that the place had
/// the client's placeholder, and was not empty.
#[derive(Clone, Copy, Debug)]
pub struct Before {
    pub left: bool,
    pub keeper: Option<u16>,
}

/// Makes these moves of the row, all of which enter, the first one first, and returns what was before
/// each. After an error nothing has changed. An error means out of memory, or that one of the moves
/// may not be made: it leaves, its index is none of these, its place is neither empty nor left by the
/// client, or another client keeps its unique key.
pub fn enter_all(
    alloc: Global,
    indexes: &mut Vec<Index>,
    client: u16,
    row: u32,
    moves: &[Move],
) -> Result<Vec<Before>, AllocError>
    ensures within { OnOk result (AreWithin (length indexes.old.items) moves.now) }
    ensures can { OnOk result (CanMake client row moves.now (places_of indexes.old.items) (keepers_of indexes.old.items)) }
    ensures before { IfOk result (λ before. AreBefore client row moves.now before.items (places_of indexes.old.items) (keepers_of indexes.old.items)) }
    ensures places { OnOk result (places_of indexes.new.items ≡ made client row moves.now (places_of indexes.old.items)) }
    ensures keepers { OnOk result (keepers_of indexes.new.items ≡ kept_after client moves.now (keepers_of indexes.old.items)) }
    ensures same_places { OnErr result (places_of indexes.new.items ≡ places_of indexes.old.items) }
    ensures same_keepers { OnErr result (keepers_of indexes.new.items ≡ keepers_of indexes.old.items) }
    ensures count { length indexes.new.items ≡ length indexes.old.items }
{
    let mut before = Vec::new(alloc);
    enter_each(indexes, client, row, moves, &mut before)?;
    Ok(before)
}

/// Makes these moves as `enter_all`, and adds what was before each to the list.
fn enter_each(
    indexes: &mut Vec<Index>,
    client: u16,
    row: u32,
    moves: &[Move],
    before: &mut Vec<Before>,
) -> Result<(), AllocError>
    ensures within { OnOk result (AreWithin (length indexes.old.items) moves.now) }
    ensures can { OnOk result (CanMake client row moves.now (places_of indexes.old.items) (keepers_of indexes.old.items)) }
    ensures before { OnOk result (Notes client row moves.now (places_of indexes.old.items) (keepers_of indexes.old.items) before.old.items before.new.items) }
    ensures places { OnOk result (places_of indexes.new.items ≡ made client row moves.now (places_of indexes.old.items)) }
    ensures keepers { OnOk result (keepers_of indexes.new.items ≡ kept_after client moves.now (keepers_of indexes.old.items)) }
    ensures same_places { OnErr result (places_of indexes.new.items ≡ places_of indexes.old.items) }
    ensures same_keepers { OnErr result (keepers_of indexes.new.items ≡ keepers_of indexes.old.items) }
    ensures count { length indexes.new.items ≡ length indexes.old.items }
{
    let Some((first, later)) = moves.split_first() else {
        return Ok(());
    };
    let was = enter_one(indexes, client, row, first, before)?;
    if enter_each(indexes, client, row, later, before).is_ok() {
        return Ok(());
    }
    forget_one(indexes, client, row, first, was);
    Err(AllocError)
}

/// Makes one move that enters, and adds what was before it to the list. After an error the indexes
/// have not changed.
fn enter_one(
    indexes: &mut Vec<Index>,
    client: u16,
    row: u32,
    at: &Move,
    before: &mut Vec<Before>,
) -> Result<Before, AllocError>
    ensures within { OnOk result (at.now.index < length indexes.old.items) }
    ensures can { OnOk result (CanMakeOne client row at.now (places_of indexes.old.items) (keepers_of indexes.old.items)) }
    ensures before { IfOk result (λ was. IsBefore client row at.now was (places_of indexes.old.items) (keepers_of indexes.old.items)) }
    ensures noted { IfOk result (λ was. before.new.items ≡ before.old.items ++ was ∷ []) }
    ensures places { OnOk result (places_of indexes.new.items ≡ with_place (places_of indexes.old.items) at.now row (owner_after client at.now)) }
    ensures keepers { OnOk result (keepers_of indexes.new.items ≡ with_keeper (keepers_of indexes.old.items) at.now client) }
    ensures same_places { OnErr result (places_of indexes.new.items ≡ places_of indexes.old.items) }
    ensures same_keepers { OnErr result (keepers_of indexes.new.items ≡ keepers_of indexes.old.items) }
    ensures count { length indexes.new.items ≡ length indexes.old.items }
{
    match indexes.get_mut(at.index) {
        None => Err(AllocError),
        Some(index) => enter_in(index, client, row, at, before),
    }
}

/// Makes a move that enters in its index, and adds what was before it to the list.
fn enter_in(
    index: &mut Index,
    client: u16,
    row: u32,
    at: &Move,
    before: &mut Vec<Before>,
) -> Result<Before, AllocError>
    ensures can { OnOk result (CanMakeOne client row at.now (λ _ key k. place_at index.old key k) (λ _ key. keeper_of index.old key)) }
    ensures before { IfOk result (λ was. IsBefore client row at.now was (λ _ key k. place_at index.old key k) (λ _ key. keeper_of index.old key)) }
    ensures noted { IfOk result (λ was. before.new.items ≡ before.old.items ++ was ∷ []) }
    ensures ok { OnOk result (Puts index.old client at.now.key row at.now.unique (owner_after client at.now) index.new) }
    ensures err { OnErr result (IsSame index.old index.new) }
{
    let Some(was) = before_enter(index, client, row, at) else {
        return Err(AllocError);
    };
    before.push(was)?;
    index.enter(client, &at.key, RowId(row), at.unique)?;
    Ok(was)
}

/// What is before a move that enters; None where it may not be made. It searches the index once.
fn before_enter(index: &Index, client: u16, row: u32, at: &Move) -> Option<Before>
    ensures can { IfSome result (λ _. CanMakeOne client row at.now (λ _ key k. place_at index.now key k) (λ _ key. keeper_of index.now key)) }
    ensures before { IfSome result (λ was. IsBefore client row at.now was (λ _ key k. place_at index.now key k) (λ _ key. keeper_of index.now key)) }
{
    let PlaceState { place, keeper } = index.state(&at.key, RowId(row));
    let may_keep = !at.unique || may_keep(client, keeper);
    if !at.entered || !may_keep || !may_enter(client, place) {
        return None;
    }
    let left = !is_empty(place);
    if left && at.unique && keeper != Some(client) {
        return None;
    }
    Some(Before { left, keeper })
}

/// Whether the client may keep a key that has this keeper: no other client keeps it.
fn may_keep(client: u16, keeper: Option<u16>) -> bool
    ensures { IsTrue result ↔ ((other : ℕ) → keeper ≡ Some other → other ≡ client) }
{
    match keeper {
        None => true,
        Some(other) => other == client,
    }
}

/// Whether the client may enter at a place with this content: it is empty, or has a placeholder of
/// the client.
fn may_enter(client: u16, place: Option<Option<u16>>) -> bool
    ensures { IsTrue result ↔ ((place ≡ None) ⊎ (place ≡ Some (Some client))) }
{
    match place {
        None => true,
        Some(None) => false,
        Some(Some(owner)) => owner == client,
    }
}

/// Whether a place with this content is empty.
fn is_empty(place: Option<Option<u16>>) -> bool
    ensures { IsTrue result ↔ (place ≡ None) }
{
    place.is_none()
}
