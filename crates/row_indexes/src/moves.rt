//! Moves of rows in indexes.

ghost use Rattle.std.specs.Prelude.{◌≡◌, ◌<◌, length, IsTrue, Some};
ghost use Rattle.key_index.specs.Index.{Puts, keeper_of, place_at};
ghost use Rattle.row_indexes.specs.Places.{owner_before, owner_after, places_of, keepers_of, with_place};

use abl_base::{Bytes, RowId};
use key_index::Index;

/// A row entered an index under a key, or left it. `unique` says that the key is a unique key.
#[derive(Drop)]
pub struct Move {
    pub index: usize,
    pub key: Bytes,
    pub unique: bool,
    pub entered: bool,
}

/// A row, and the moves of one change of it, the oldest first.
#[derive(Drop)]
pub struct Moved {
    pub row: u32,
    pub moves: Vec<Move>,
}

/// Undoes a move of the row in its index. It takes no memory.
fn undo_in(index: &mut Index, client: u16, row: u32, at: &Move)
    requires there { place_at index.old at.now.key row ≡ Some (owner_after client at.now) }
    requires kept { IsTrue at.now.unique → keeper_of index.old at.now.key ≡ Some client }
    ensures { Puts index.old client at.now.key row at.now.unique (owner_before client at.now) index.new }
{
    if at.entered {
        index.leave(client, &at.key, RowId(row), at.unique);
    } else {
        let _ = index.enter(client, &at.key, RowId(row), at.unique);
    }
}

/// Undoes one move of the row. It takes no memory.
pub fn undo_one(indexes: &mut Vec<Index>, client: u16, row: u32, at: &Move)
    requires within { at.now.index < length indexes.old.items }
    requires there { places_of indexes.old.items at.now.index at.now.key row ≡ Some (owner_after client at.now) }
    requires kept { IsTrue at.now.unique → keepers_of indexes.old.items at.now.index at.now.key ≡ Some client }
    ensures places { places_of indexes.new.items ≡ with_place (places_of indexes.old.items) at.now row (owner_before client at.now) }
    ensures keepers { keepers_of indexes.new.items ≡ keepers_of indexes.old.items }
    ensures count { length indexes.new.items ≡ length indexes.old.items }
{
    match indexes.get_mut(at.index) {
        None => {}
        Some(index) => undo_in(index, client, row, at),
    }
}
