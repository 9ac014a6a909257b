//! Laws of representing a state. Each is the contract of a function that does nothing.

ghost use Rattle.std.specs.Prelude.{◌≡◌, ◌≢◌, ◌<◌, ◌↔◌, ℕ, IsFalse, IsTrue, length};
ghost use Rattle.database_meaning.specs.declared.contents.Contents.{Contents};
ghost use Rattle.database_meaning.specs.Setting.{Setting};
ghost use Rattle.database_meaning.specs.State.{HoldsExclusively, State, view};
ghost use Rattle.database_meaning.specs.Traces.{opened};
ghost use Rattle.row_store.specs.Rows.{Fails, IsConsistent, RowState, IsObservable};
ghost use Rattle.database_protocol.specs.declared.answer.Answer.TheVariants.{Refused};
ghost use Rattle.database_protocol.specs.declared.operation.Op.{Op as Asked};
ghost use Rattle.database_meaning.specs.Steps.{after};
ghost use Rattle.db_core.specs.declared.control.Control.{Control};
ghost use Rattle.db_core.specs.Opening.{IsNew, IsOpened};
ghost use Rattle.abl_values.specs.Schema.{SchemaData};
ghost use Rattle.db_core.specs.Known.{IsAllowed, IsWaiting, known, setting_at};
ghost use Rattle.db_core.specs.Represents.{IsSound, Represents};

/// The rows of the store are the view.
pub fn rows_are_the_view()
    ensures { (f : Setting) (rows : RowState) (control : Control) (s : State) →
        Represents f rows control s → IsSound rows control → IsConsistent rows → IsObservable rows →
        (k : ℕ) → rows.rows k ≡ view f s k }
{}

/// A newly opened store and new control data represent the state at opening.
pub fn a_new_database_is_represented()
    ensures sound { (rows : RowState) (control : Control) (contents : Contents) →
        IsOpened rows contents → IsNew control contents → IsSound rows control }
    ensures represents { (f : Setting) (rows : RowState) (control : Control) (contents : Contents) →
        f.schema ≡ rows.schema → f.clients ≡ length control.sessions.items →
        IsOpened rows contents → IsNew control contents → Represents f rows control (opened contents) }
{}

/// After the answer Refused the relation stays: nothing changes.
pub fn a_refusal_changes_nothing()
    ensures { (f : Setting) (rows : RowState) (control : Control) (s : State) (c : ℕ) (op : Asked) →
        Represents f rows control s → Represents f rows control (after f s c op Refused) }
{}

/// After an error of the disk the relation stays, and so does that the control data are sound.
pub fn a_disk_error_keeps_the_state()
    ensures represents { (f : Setting) (old new : RowState) (control : Control) (s : State) →
        Fails old new → Represents f old control s → Represents f new control s }
    ensures sound { (old new : RowState) (control : Control) → Fails old new → IsSound old control → IsSound new control }
{}

/// Whether an operation is allowed, and whether a client waits, is known from the control data.
pub fn refusals_are_known()
    ensures allowed { (f : Setting) (rows : RowState) (control : Control) (s : State) (schema : SchemaData) →
        Represents f rows control s → IsTrue rows.observable → f.schema ≡ schema →
        (c : ℕ) (op : Asked) → IsAllowed (setting_at schema control) (known control) c op ↔ IsAllowed f s c op }
    ensures waiting { (f : Setting) (rows : RowState) (control : Control) (s : State) (schema : SchemaData) →
        Represents f rows control s → IsTrue rows.observable → f.schema ≡ schema →
        (c : ℕ) → IsWaiting (known control) c ↔ IsWaiting s c }
{}

/// A row that a client holds exclusively is touched by no other client's transaction.
pub fn held_rows_are_untouched_by_others()
    ensures { (f : Setting) (rows : RowState) (control : Control) (s : State) (c d row : ℕ) →
        Represents f rows control s → IsObservable rows → d ≢ c → HoldsExclusively (known control) c row →
        IsFalse ((rows.transaction d).touched row) }
{}
