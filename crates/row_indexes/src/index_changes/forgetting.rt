//! Moves that entered, undone as if they had never been made.

ghost use Rattle.std.specs.Prelude.{◌≡◌, length, true, false, IsTrue, Some, None};
ghost use Rattle.key_index.specs.Index.{Forgets, IsEntry, NoOtherKeeps, Puts};
ghost use Rattle.row_indexes.specs.Places.{Keepers, Places, keepers_of, owner_after, places_of, with_place};
ghost use Rattle.row_indexes.specs.Making.{kept_after, made, with_keeper};
ghost use Rattle.row_indexes.specs.index_changes.Entering.{AreBefore, IsBefore};

use crate::Move;
use crate::index_changes::entering::Before;
use abl_base::RowId;
use key_index::Index;

/// Undoes the moves that `enter_all` made, with what it returned: places and keepers are those from
/// before it. It takes no memory.
pub fn forget_all(
    indexes: &mut Vec<Index>,
    client: u16,
    row: u32,
    moves: &[Move],
    before: &[Before],
)
    ensures forgotten { (P : Places) (K : Keepers) → AreBefore client row moves.now before.now P K →
        places_of indexes.old.items ≡ made client row moves.now P →
        keepers_of indexes.old.items ≡ kept_after client moves.now K →
        (places_of indexes.new.items ≡ P) × (keepers_of indexes.new.items ≡ K) }
    ensures count { length indexes.new.items ≡ length indexes.old.items }
{
    let Some((first, later)) = moves.split_first() else {
        return;
    };
    let Some((was, others)) = before.split_first() else {
        return;
    };
    forget_all(indexes, client, row, later, others);
    forget_one(indexes, client, row, first, *was);
}

/// Undoes one move that entered.
pub(crate) fn forget_one(indexes: &mut Vec<Index>, client: u16, row: u32, at: &Move, was: Before)
    ensures forgotten { (P : Places) (K : Keepers) → IsBefore client row at.now was P K →
        places_of indexes.old.items ≡ with_place P at.now row (owner_after client at.now) →
        keepers_of indexes.old.items ≡ with_keeper K at.now client →
        (places_of indexes.new.items ≡ P) × (keepers_of indexes.new.items ≡ K) }
    ensures count { length indexes.new.items ≡ length indexes.old.items }
{
    match indexes.get_mut(at.index) {
        None => {}
        Some(index) => forget_in(index, client, row, at, was),
    }
}

/// Undoes a move that entered, in its index: the client's placeholder comes back, or the place is
/// empty again and the key has the keeper from before.
fn forget_in(index: &mut Index, client: u16, row: u32, at: &Move, was: Before)
    ensures empty { IsEntry index.old at.now.key row → was.left ≡ false → Forgets index.old at.now.key row was.keeper index.new }
    ensures left { IsEntry index.old at.now.key row → was.left ≡ true → (IsTrue at.now.unique → NoOtherKeeps index.old client at.now.key) →
        Puts index.old client at.now.key row at.now.unique (Some client) index.new }
{
    if !index.has_entry(&at.key, RowId(row)) {
        return;
    }
    if !was.left {
        index.forget(&at.key, RowId(row), was.keeper);
        return;
    }
    if at.unique && !index.may_keep(client, &at.key) {
        return;
    }
    index.leave(client, &at.key, RowId(row), at.unique);
}
