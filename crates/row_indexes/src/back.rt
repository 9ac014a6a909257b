//! Undoing changes.

ghost use Rattle.std.specs.Prelude.{◌≡◌, ◌≤◌, length, take, drop};
ghost use Rattle.row_indexes.specs.Places.{AreKept, AreWithin, CanUndo, places_of, keepers_of, undone};
ghost use Rattle.row_indexes.specs.Changes.{AreAllKept, AreAllWithin, CanUndoAll, all_undone};

use crate::moves::{Move, Moved, undo_one};
use key_index::Index;

/// Undoes these moves of the row, the last one first. It takes no memory.
pub fn undo_moves(indexes: &mut Vec<Index>, client: u16, row: u32, moves: &[Move])
    requires within { AreWithin (length indexes.old.items) moves.now }
    requires can { CanUndo client row moves.now (places_of indexes.old.items) }
    requires kept { AreKept client moves.now (keepers_of indexes.old.items) }
    ensures places { places_of indexes.new.items ≡ undone client row moves.now (places_of indexes.old.items) }
    ensures keepers { keepers_of indexes.new.items ≡ keepers_of indexes.old.items }
    ensures count { length indexes.new.items ≡ length indexes.old.items }
{
    match moves.split_last() {
        None => {}
        Some((last, earlier)) => {
            undo_one(indexes, client, row, last);
            undo_moves(indexes, client, row, earlier);
        }
    }
}

/// Undoes the changes after a mark, the last one first. It takes no memory.
pub fn back(indexes: &mut Vec<Index>, client: u16, changes: &mut Vec<Moved>, mark: usize)
    requires mark { mark ≤ length changes.old.items }
    requires within { AreAllWithin (length indexes.old.items) changes.old.items }
    requires can { CanUndoAll client changes.old.items (places_of indexes.old.items) }
    requires kept { AreAllKept client changes.old.items (keepers_of indexes.old.items) }
    ensures changes { changes.new.items ≡ take mark changes.old.items }
    ensures places { places_of indexes.new.items ≡ all_undone client (drop mark changes.old.items) (places_of indexes.old.items) }
    ensures keepers { keepers_of indexes.new.items ≡ keepers_of indexes.old.items }
    ensures count { length indexes.new.items ≡ length indexes.old.items }
{
    if changes.len() <= mark {
        return;
    }
    match changes.pop() {
        None => {}
        Some(last) => {
            undo_moves(indexes, client, last.row, last.moves.as_slice());
            back(indexes, client, changes, mark);
        }
    }
}
