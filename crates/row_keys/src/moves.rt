//! The moves of a change of a row.

ghost use Rattle.std.specs.Prelude.{◌≡◌, ◌<◌, ◌≤◌, ◌+◌, ◌^◌, ◌++◌, length, IfOk, OnOk};
ghost use Rattle.std.specs.Option.{option_copied};
ghost use Rattle.database_meaning.specs.Setting.{HasTable};
ghost use Rattle.row_keys.specs.Numbers.{first_of_table, index_count};
ghost use Rattle.row_keys.specs.Entries.{FitsIfThere, stored_in};
ghost use Rattle.row_keys.specs.Moves.{AreMovesOf, EnterFirst};
ghost use Rattle.row_keys.specs.Listed.{is_unique_in, key_differs, moves_in, moves_in_one, moves_of_identity, moves_toward};

use crate::keys::has_unknown;
use crate::numbers::first_of_table;
use abl_base::{Items, Row};
use abl_values::{IndexDef, Schema, key_bytes, same_bytes};
use row_indexes::Move;
use std::alloc::{AllocError, Global};

/// The moves of one change of a row: the first `enters` of them enter an index, the others leave
/// one.
#[derive(Drop)]
pub struct RowMoves {
    pub moves: Vec<Move>,
    pub enters: usize,
}

/// The moves by which a row of the table with the old values becomes one with the new values, or is
/// inserted, or deleted. A key that stays is not moved. An error means out of memory.
pub fn moves_of(
    alloc: Global,
    schema: &Schema,
    table: u16,
    old: Option<&Row>,
    new: Option<&Row>,
) -> Result<RowMoves, AllocError>
    requires table { HasTable schema.now table }
    requires count { index_count schema.now < 2 ^ 64 }
    requires old { FitsIfThere schema.now table (option_copied old) }
    requires new { FitsIfThere schema.now table (option_copied new) }
    ensures moves { IfOk result (λ m. AreMovesOf schema.now (stored_in table (option_copied old.entry)) (stored_in table (option_copied new.entry)) m.moves.items) }
    ensures order { IfOk result (λ m. EnterFirst m.enters m.moves.items) }
    ensures enters { IfOk result (λ m. m.enters ≤ length m.moves.items) }
{
    let mut moves = Vec::new(alloc);
    push_toward(&mut moves, schema, table, old, new, true)?;
    let enters = moves.len();
    push_toward(&mut moves, schema, table, new, old, false)?;
    Ok(RowMoves { moves, enters })
}

/// Adds the moves toward these values of the table from others; none where there are no values.
fn push_toward(
    moves: &mut Vec<Move>,
    schema: &Schema,
    table: u16,
    from: Option<&Row>,
    to: Option<&Row>,
    entered: bool,
) -> Result<(), AllocError>
    requires table { HasTable schema.now table }
    requires count { index_count schema.now < 2 ^ 64 }
    ensures { OnOk result (moves.new.items ≡ moves.old.items ++ moves_toward schema.now table (option_copied from.entry) (option_copied to.entry) entered) }
{
    let Some(to) = to else {
        return Ok(());
    };
    let first = first_of_table(schema, table);
    push_from(moves, first, schema.indexes(table), from, to, entered)?;
    Ok(())
}

/// Adds the moves in these indexes, the first of which has this number, and the one among the
/// identities.
fn push_from(
    moves: &mut Vec<Move>,
    number: usize,
    defs: &[IndexDef],
    from: Option<&Row>,
    to: &Row,
    entered: bool,
) -> Result<(), AllocError>
    requires { number + length defs.now < 2 ^ 64 }
    ensures { OnOk result (moves.new.items ≡ moves.old.items ++ moves_in number defs.now (option_copied from.entry) to.now entered) }
{
    match defs.split_first() {
        None => {
            push_identity(moves, number, from, to, entered)?;
            Ok(())
        }
        Some((def, rest)) => {
            push_one(moves, number, def, from, to, entered)?;
            push_from(moves, number + 1, rest, from, to, entered)?;
            Ok(())
        }
    }
}

/// Adds the move in one index, if the key differs there.
fn push_one(
    moves: &mut Vec<Move>,
    number: usize,
    def: &IndexDef,
    from: Option<&Row>,
    to: &Row,
    entered: bool,
) -> Result<(), AllocError>
    ensures { OnOk result (moves.new.items ≡ moves.old.items ++ moves_in_one number def.now (option_copied from.entry) to.now entered) }
{
    if !differs(def, from, to)? {
        return Ok(());
    }
    let key = key_bytes(to.allocator(), def.parts.as_slice(), to)?;
    let unique = is_unique(def, to);
    moves.push(Move {
        index: number,
        key,
        unique,
        entered,
    })?;
    Ok(())
}

/// Adds the move among the identities, if there is no other row.
fn push_identity(
    moves: &mut Vec<Move>,
    number: usize,
    from: Option<&Row>,
    to: &Row,
    entered: bool,
) -> Result<(), AllocError>
    ensures { OnOk result (moves.new.items ≡ moves.old.items ++ moves_of_identity number (option_copied from.entry) entered) }
{
    if from.is_some() {
        return Ok(());
    }
    moves.push(Move {
        index: number,
        key: Items::empty(to.allocator()),
        unique: false,
        entered,
    })?;
    Ok(())
}

/// Whether the other row has another key than these values in the index, or there is no other row.
fn differs(def: &IndexDef, from: Option<&Row>, to: &Row) -> Result<bool, AllocError>
    ensures { IfOk result (λ differs. differs ≡ key_differs def.now (option_copied from.entry) to.now) }
{
    let Some(from) = from else {
        return Ok(true);
    };
    let other = key_bytes(from.allocator(), def.parts.as_slice(), from)?;
    let own = key_bytes(to.allocator(), def.parts.as_slice(), to)?;
    Ok(!same_bytes(other.as_slice(), own.as_slice()))
}

/// Whether the key of these values in the index is a unique key.
fn is_unique(def: &IndexDef, values: &Row) -> bool
    ensures { result ≡ is_unique_in def.now values.now }
{
    def.unique && !has_unknown(def.parts.as_slice(), values.as_slice())
}
