//! The answers to operations on sequences. Nothing changes here.

ghost use Rattle.std.specs.Prelude.{◌≡◌, ◌<◌, ℕ, ℤ, None, length};
ghost use Rattle.database_protocol.specs.declared.operation.Op.{Op as Asked};
ghost use Rattle.database_meaning.specs.Answers.{FromGone, next_value};
ghost use Rattle.database_meaning.specs.Setting.{Setting, increment_of};
ghost use Rattle.database_meaning.specs.State.{State};
ghost use Rattle.database_meaning.specs.Steps.{blocked_after};
ghost use Rattle.row_store.specs.Rows.{RowState};
ghost use Rattle.db_core.specs.Represents.{Represents};

use crate::control::Control;
use database_protocol::{Answer, Op};

/// The answer to a NextValue of a sequence with this increment.
pub fn decide_next_value(control: &Control, sequence: u16, increment: i64) -> Answer
    requires { sequence < length control.now.sequences.items }
    ensures answer { (f : Setting) (rows : RowState) (s : State) (c : ℕ) → Represents f rows control.now s → increment ≡ increment_of f.schema sequence →
        FromGone f s c (Op.NextValue sequence) result }
    ensures value { (f : Setting) (rows : RowState) (s : State) (value : ℤ) → Represents f rows control.now s → increment ≡ increment_of f.schema sequence →
        result ≡ Answer.Value value → value ≡ next_value f s sequence }
{
    let current = control.sequences[usize::from(sequence)];
    match current.checked_add(increment) {
        None => Answer::SequenceEnd,
        Some(value) => Answer::Value(value),
    }
}

/// The answer to a CurrentValue.
pub fn decide_current_value(control: &Control, sequence: u16) -> Answer
    requires { sequence < length control.now.sequences.items }
    ensures answer { (f : Setting) (rows : RowState) (s : State) (c : ℕ) → Represents f rows control.now s →
        FromGone f s c (Op.CurrentValue sequence) result }
    ensures quiet { (s : State) (c : ℕ) (op : Asked) → blocked_after s c op result ≡ None }
{
    Answer::Value(control.sequences[usize::from(sequence)])
}
