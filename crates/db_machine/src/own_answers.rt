//! Which answers an operation can have, by the operation and the schema alone.

ghost use Rattle.std.specs.Prelude.{IsTrue};
ghost use Rattle.database_meaning.specs.Fits.{IsNoEnd, IsOwnAnswer};
ghost use Rattle.database_meaning.specs.Setting.{FitsTable, HasIndex};
ghost use Rattle.db_machine.specs.OwnAnswers.{IsEntryAnswer};

use abl_base::Row;
use abl_values::Schema;
use database_protocol::{Answer, Op};
use row_store::answers::rows::fits;

/// Whether the values are a row of the table.
fn is_row_of(schema: &Schema, table: u16, values: &Row) -> bool
    ensures { IsTrue result → FitsTable schema.now table values.now }
{
    table < schema.tables() && fits(schema.fields(table), values.as_slice())
}

/// Whether the table has the index.
fn has_index(schema: &Schema, table: u16, index: u16) -> bool
    ensures { IsTrue result → HasIndex schema.now table index }
{
    table < schema.tables() && usize::from(index) < schema.indexes(table).len()
}

/// Whether an Insert or Put into the table can have the answer, success and Gone aside.
fn can_be_entered(schema: &Schema, table: u16, answer: &Answer) -> bool
    ensures { IsTrue result → IsEntryAnswer schema.now table answer.now }
{
    match answer {
        Answer::KeyTooLong { index } | Answer::Duplicate { index, .. } => {
            has_index(schema, table, *index)
        }
        Answer::Blocked { .. } | Answer::Deadlock { .. } | Answer::Full | Answer::TxFull => true,
        _ => false,
    }
}

/// Whether the operation is no End, and the answer is one of its own.
pub(crate) fn can_have(schema: &Schema, op: &Op, answer: &Answer) -> bool
    ensures { IsTrue result → IsNoEnd op.now × IsOwnAnswer schema.now op.now answer.now }
{
    match op {
        Op::Enter | Op::Back { .. } | Op::Drop { .. } => matches!(answer, Answer::Done),
        Op::Leave { .. } => matches!(answer, Answer::Done | Answer::Committed { .. }),
        Op::Next { table, .. } => match answer {
            Answer::Found { values, .. } => is_row_of(schema, *table, values),
            _ => matches!(answer, Answer::AtEnd),
        },
        Op::Get { table, .. } => match answer {
            Answer::Row(values) => is_row_of(schema, *table, values),
            _ => matches!(answer, Answer::Gone),
        },
        Op::Lock { wait, .. } => match answer {
            Answer::Granted | Answer::Gone => true,
            Answer::Busy { .. } => !*wait,
            Answer::Blocked { .. } | Answer::Deadlock { .. } => *wait,
            _ => false,
        },
        Op::Insert { table, .. } => match answer {
            Answer::Inserted { .. } => true,
            _ => can_be_entered(schema, *table, answer),
        },
        Op::Put { table, .. } => match answer {
            Answer::Done | Answer::Gone => true,
            _ => can_be_entered(schema, *table, answer),
        },
        Op::Delete { .. } => matches!(answer, Answer::Done | Answer::Gone | Answer::TxFull),
        Op::NextValue { .. } => matches!(answer, Answer::Value(_) | Answer::SequenceEnd),
        Op::CurrentValue { .. } => matches!(answer, Answer::Value(_)),
        Op::End => false,
    }
}
