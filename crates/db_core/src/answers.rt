//! Answers that change no row, lock or level.

ghost use Rattle.std.specs.Prelude.{◌≡◌, ◌⊎◌, ◌<◌, None, false, length};
ghost use Rattle.database_protocol.specs.declared.answer.Answer.{Answer as Given};
ghost use Rattle.database_protocol.specs.declared.operation.Op.{Op as Asked};
ghost use Rattle.database_meaning.specs.Answers.{next_value};
ghost use Rattle.database_meaning.specs.Setting.{Setting};
ghost use Rattle.database_meaning.specs.State.{State};
ghost use Rattle.database_meaning.specs.Steps.{after, blocked_after, is_success};
ghost use Rattle.row_store.specs.Rows.{RowState};
ghost use Rattle.db_core.specs.Keeps.{IsFailure, RepresentsBut, SameCounts};
ghost use Rattle.db_core.specs.Moves.{IsQuestion};
ghost use Rattle.db_core.specs.Represents.{IsSound, Represents};

use crate::control::{Control, end_wait, set_sequence};
use database_protocol::{Answer, Op};

/// After an answer to a question, or an answer that is no success: the client's blocked request ends,
/// and nothing else changes. Refused and Blocked are no such answers.
pub fn end_request(control: &mut Control, client: u16)
    requires { client < length control.old.sessions.items }
    ensures represents { (f : Setting) (rows : RowState) (s : State) (op : Asked) (a : Given) → Represents f rows control.old s →
        blocked_after s client op a ≡ None → (is_success a ≡ false) ⊎ IsQuestion op → Represents f rows control.new (after f s client op a) }
    ensures sound { (rows : RowState) → IsSound rows control.old → IsSound rows control.new }
    ensures counts { SameCounts control.old control.new }
{
    end_wait(control, client);
}

/// After an error: the answer is NoMemory or Closed, the client's blocked request ends, and nothing
/// else changes.
pub fn end_failed(control: &mut Control, client: u16)
    requires { client < length control.old.sessions.items }
    ensures represents { (f : Setting) (rows : RowState) (s : State) (op : Asked) (a : Given) → RepresentsBut f rows control.old client s →
        IsFailure a → Represents f rows control.new (after f s client op a) }
    ensures sound { (rows : RowState) → IsSound rows control.old → IsSound rows control.new }
    ensures counts { SameCounts control.old control.new }
{
    end_wait(control, client);
}

/// Gives a sequence its next value. It takes no memory.
pub fn move_sequence(control: &mut Control, client: u16, sequence: u16, value: i64)
    requires known { client < length control.old.sessions.items }
    requires sequence { sequence < length control.old.sequences.items }
    ensures represents { (f : Setting) (rows : RowState) (s : State) → value ≡ next_value f s sequence → Represents f rows control.old s →
        Represents f rows control.new (after f s client (Op.NextValue sequence) (Answer.Value value)) }
    ensures sound { (rows : RowState) → IsSound rows control.old → IsSound rows control.new }
    ensures counts { SameCounts control.old control.new }
{
    set_sequence(control, client, sequence, value);
}
