//! Moves that leave.

ghost use Rattle.std.specs.Prelude.{◌≡◌, ◌<◌, ◌↔◌, length, false, IsTrue};
ghost use Rattle.key_index.specs.Index.{Puts, IsEntry, NoOtherKeeps};
ghost use Rattle.row_indexes.specs.Places.{AreWithin, keepers_of, owner_after, places_of, with_place};
ghost use Rattle.row_indexes.specs.Making.{CanMake, CanMakeOne, kept_after, made, with_keeper};
ghost use Rattle.row_indexes.specs.index_changes.Leaving.{AreLeaves, CanLeave, CanLeaveAll};

use crate::Move;
use abl_base::RowId;
use key_index::Index;

/// Whether these moves of the row can be made and all leave: each in an index of its own, in
/// ascending order, where the row has an entry, and no other client keeps a unique key of them. It
/// takes no memory.
pub fn can_leave(indexes: &Vec<Index>, client: u16, row: u32, moves: &[Move]) -> bool
    ensures exact { IsTrue result ↔ CanLeaveAll client row (length indexes.now.items) 0 moves.now (places_of indexes.now.items) (keepers_of indexes.now.items) }
    ensures within { IsTrue result → AreWithin (length indexes.now.items) moves.now }
    ensures can { IsTrue result → CanMake client row moves.now (places_of indexes.now.items) (keepers_of indexes.now.items) }
    ensures leaves { IsTrue result → AreLeaves moves.now }
{
    can_leave_from(indexes, client, row, moves, 0)
}

/// Whether these moves can be made in indexes from `lowest` on, and all leave.
fn can_leave_from(
    indexes: &Vec<Index>,
    client: u16,
    row: u32,
    moves: &[Move],
    lowest: usize,
) -> bool
    ensures { IsTrue result ↔ CanLeaveAll client row (length indexes.now.items) lowest moves.now (places_of indexes.now.items) (keepers_of indexes.now.items) }
{
    let Some((first, later)) = moves.split_first() else {
        return true;
    };
    lowest <= first.index
        && can_leave_one(indexes, client, row, first)
        && can_leave_from(indexes, client, row, later, first.index + 1)
}

/// Whether this move can be made and leaves.
fn can_leave_one(indexes: &Vec<Index>, client: u16, row: u32, at: &Move) -> bool
    ensures { IsTrue result ↔ CanLeave client row (length indexes.now.items) at.now (places_of indexes.now.items) (keepers_of indexes.now.items) }
{
    match indexes.get(at.index) {
        None => false,
        Some(index) => !at.entered && can_leave_in(index, client, row, at),
    }
}

/// Whether the row has the entry in the index, and no other client keeps the unique key.
fn can_leave_in(index: &Index, client: u16, row: u32, at: &Move) -> bool
    ensures { IsTrue result ↔ (IsEntry index.now at.now.key row × (IsTrue at.now.unique → NoOtherKeeps index.now client at.now.key)) }
{
    index.has_entry(&at.key, RowId(row)) && (!at.unique || index.may_keep(client, &at.key))
}

/// Makes these moves of the row, all of which leave, the first one first. It takes no memory.
pub fn leave_all(indexes: &mut Vec<Index>, client: u16, row: u32, moves: &[Move])
    requires within { AreWithin (length indexes.old.items) moves.now }
    requires can { CanMake client row moves.now (places_of indexes.old.items) (keepers_of indexes.old.items) }
    requires leaves { AreLeaves moves.now }
    ensures places { places_of indexes.new.items ≡ made client row moves.now (places_of indexes.old.items) }
    ensures keepers { keepers_of indexes.new.items ≡ kept_after client moves.now (keepers_of indexes.old.items) }
    ensures count { length indexes.new.items ≡ length indexes.old.items }
{
    match moves.split_first() {
        None => {}
        Some((first, later)) => {
            leave_one(indexes, client, row, first);
            leave_all(indexes, client, row, later);
        }
    }
}

/// Makes one move that leaves.
fn leave_one(indexes: &mut Vec<Index>, client: u16, row: u32, at: &Move)
    requires within { at.now.index < length indexes.old.items }
    requires can { CanMakeOne client row at.now (places_of indexes.old.items) (keepers_of indexes.old.items) }
    requires leaves { at.now.entered ≡ false }
    ensures places { places_of indexes.new.items ≡ with_place (places_of indexes.old.items) at.now row (owner_after client at.now) }
    ensures keepers { keepers_of indexes.new.items ≡ with_keeper (keepers_of indexes.old.items) at.now client }
    ensures count { length indexes.new.items ≡ length indexes.old.items }
{
    match indexes.get_mut(at.index) {
        None => {}
        Some(index) => index.leave(client, &at.key, RowId(row), at.unique),
    }
}
