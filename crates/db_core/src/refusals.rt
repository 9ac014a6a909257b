//! Whether an operation is allowed or refused. It depends on the schema and the control data alone.

ghost use Rattle.std.specs.Prelude.{◌≡◌, ◌<◌, ◌↔◌, IsTrue, length};
ghost use Rattle.database_meaning.specs.Answers.{AsksAgain, FitsRow, HasOrder, IsWellFormed};
ghost use Rattle.database_meaning.specs.Setting.{HasSequence, HasTable};
ghost use Rattle.database_meaning.specs.State.{HoldsExclusively, depth_of};
ghost use Rattle.db_core.specs.Known.{IsAllowed, IsWaiting, known, setting_at};

use crate::control::{Control, depth};
use abl_base::limits::MAX_ROW_BYTES;
use abl_base::{Row, RowId};
use abl_values::Schema;
use database_protocol::Op;
use row_store::answers::rows::{fits, size_within};

/// Whether there is a table of this number.
fn has_table(schema: &Schema, table: u16) -> bool
    ensures { IsTrue result ↔ HasTable schema.now table }
{
    table < schema.tables()
}

/// Whether there is a sequence of this number.
fn has_sequence(schema: &Schema, sequence: u16) -> bool
    ensures { IsTrue result ↔ HasSequence schema.now sequence }
{
    usize::from(sequence) < schema.sequences().len()
}

/// Whether there is such a table, and it has the index, if one is named.
fn has_order(schema: &Schema, control: &Control, table: u16, index: Option<u16>) -> bool
    ensures { IsTrue result ↔ (HasTable schema.now table × HasOrder (setting_at schema.now control.now) table index) }
{
    if !has_table(schema, table) {
        return false;
    }
    match index {
        None => true,
        Some(index) => usize::from(index) < schema.indexes(table).len(),
    }
}

/// Whether there is such a table, and the values are a row of it, of at most 30,000 bytes.
fn fits_row(schema: &Schema, control: &Control, table: u16, values: &Row) -> bool
    ensures { IsTrue result ↔ (HasTable schema.now table × FitsRow (setting_at schema.now control.now) table values.now) }
{
    if !has_table(schema, table) {
        return false;
    }
    if !fits(schema.fields(table), values.as_slice()) {
        return false;
    }
    match size_within(values.as_slice(), MAX_ROW_BYTES as u64) {
        None => false,
        Some(_) => true,
    }
}

/// The number of levels that the client has open.
#[tactic(auto, using(crate::proofs::RefusalLaws::known_depth))]
fn open_levels(control: &Control, client: u16) -> usize
    ensures { result ≡ depth_of (known control.now) client }
{
    depth(control, client)
}

/// Whether the client holds the row exclusively.
fn holds_exclusively(control: &Control, client: u16, row: RowId) -> bool
    ensures { IsTrue result ↔ HoldsExclusively (known control.now) client row.0 }
{
    match control.locks.held(client, row) {
        Some(exclusive) => exclusive,
        None => false,
    }
}

/// Whether there is such a table, the values fit it, and a level is open.
fn is_entry_well_formed(
    schema: &Schema,
    control: &Control,
    client: u16,
    table: u16,
    values: &Row,
) -> bool
    ensures { IsTrue result ↔ IsWellFormed (setting_at schema.now control.now) (known control.now) client (Op.Insert table values.now) }
{
    let level = open_levels(control, client) > 0;
    fits_row(schema, control, table, values) && level
}

/// Whether the operation names what there is, and its level, lock and values are right.
fn is_well_formed(schema: &Schema, control: &Control, client: u16, op: &Op) -> bool
    ensures { IsTrue result ↔ IsWellFormed (setting_at schema.now control.now) (known control.now) client op.now }
{
    match op {
        Op::Enter => true,
        Op::Leave { .. } => open_levels(control, client) > 0,
        Op::Back { depth } => {
            let open = open_levels(control, client);
            *depth > 0 && *depth as usize <= open
        }
        Op::Next { table, index, .. } => has_order(schema, control, *table, *index),
        Op::Get { table, .. } => has_table(schema, *table),
        Op::Lock { table, .. } => has_table(schema, *table),
        Op::Insert { table, values } => {
            is_entry_well_formed(schema, control, client, *table, values)
        }
        Op::Put { table, row, values } => {
            let held = holds_exclusively(control, client, *row);
            is_entry_well_formed(schema, control, client, *table, values) && held
        }
        Op::Delete { table, row } => {
            let level = open_levels(control, client) > 0;
            let held = holds_exclusively(control, client, *row);
            has_table(schema, *table) && (level && held)
        }
        Op::Drop { .. } => true,
        Op::NextValue { sequence } => has_sequence(schema, *sequence),
        Op::CurrentValue { sequence } => has_sequence(schema, *sequence),
        Op::End => true,
    }
}

/// Whether the client asks its blocked request again, and nothing was freed since.
#[tactic(auto, using(row_store::proofs::AnswersLemmas::Agreeing::blocked_same))]
fn asks_again(control: &Control, client: u16, op: &Op) -> bool
    ensures { IsTrue result ↔ AsksAgain (known control.now) client op.now }
{
    match control.sessions.get(usize::from(client)) {
        None => false,
        Some(session) => match &session.blocked {
            None => false,
            Some(blocked) => blocked.frees == control.frees && blocked.op.is_same(op),
        },
    }
}

/// Whether the operation is allowed. Where it is not, the answer is Refused: that is so in each state
/// that the control data may represent (`laws::refusals_are_known`).
pub fn is_allowed(schema: &Schema, control: &Control, client: u16, op: &Op) -> bool
    ensures { IsTrue result ↔ IsAllowed (setting_at schema.now control.now) (known control.now) client op.now }
{
    if usize::from(client) >= control.sessions.len() {
        return false;
    }
    is_well_formed(schema, control, client, op) && !asks_again(control, client, op)
}

/// Whether the client was answered Blocked, and nothing was freed since.
pub fn is_waiting(control: &Control, client: u16) -> bool
    ensures { IsTrue result ↔ IsWaiting (known control.now) client }
{
    match control.sessions.get(usize::from(client)) {
        None => false,
        Some(session) => match &session.blocked {
            None => false,
            Some(blocked) => blocked.frees == control.frees,
        },
    }
}
