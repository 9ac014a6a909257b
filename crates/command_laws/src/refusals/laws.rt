//! The laws. Each is the contract of a function with an empty body.

ghost use Rattle.std.specs.Prelude.{◌<◌, List, All, length, ℕ};
ghost use Rattle.client_threads.specs.clients.Outcome.{RanAsMeant};
ghost use Rattle.block_meaning.specs.declared.wants.Piece.{Piece};
ghost use Rattle.block_meaning.specs.Meaning.{run};
ghost use Rattle.block_meaning.specs.Program.{Program};
ghost use Rattle.client_core.specs.ClientView.{ClientView};
ghost use Rattle.database_protocol.specs.declared.ends.ClientEnd.{ClientEnd};
ghost use Rattle.database_protocol.specs.declared.event.Event.{Event};
ghost use Rattle.client_output.specs.declared.section.Section.{Section};
ghost use Rattle.database_protocol.specs.declared.next_step.NextStep.{NextStep as Step};
ghost use Rattle.client_runner.specs.Meant.{AllFit, RefusesOnlyUnsure, client_in};
ghost use Rattle.client_threads.specs.session.Along.{Along};
ghost use Rattle.database_meaning.specs.declared.contents.Contents.{Contents};
ghost use Rattle.database_meaning.specs.Setting.{Setting};
ghost use Rattle.command_laws.specs.refusals.Unrefused.{IsNeverRefused, IsOfFile, NoneRefused};
ghost use Rattle.command_laws.specs.refusals.Works.{AreOfTexts, IsSchemaOfFile};
ghost use Rattle.client_threads.specs.runs.Unrefused.{RefusesRightly};
ghost use Rattle.client_threads.specs.served.Works.{DidAsMeant, Work};
ghost use Rattle.turn_lock.specs.Journal.{own_entries};

/// No answer to a client of a source text is Refused, where it ran to its end as the text means
/// (`RanAsMeant`), the answers fit their operations, and only operations were Refused that the client's
/// own events before them did not make well formed (`HasRunIn` of `client_threads::clients` has both). The text
/// and the schema file break no rule, and the database has the schema of the file.
pub fn no_answer_to_a_text_is_refused()
    ensures { (file text : List ℕ) (p : Program) (units : ℕ) (setting : Setting) (own : List Event) (how : ClientEnd) (pieces : List Piece) →
        IsOfFile file text setting.schema p → RanAsMeant (run p units) own how pieces → AllFit setting own → RefusesOnlyUnsure setting own → NoneRefused own }
{}

/// So it is in a run of works of source texts, which `client_threads::served` serves over any database: no answer
/// in its trace is Refused. The texts and the schema file break no rule, and the database has the
/// schema of the file.
pub fn no_answer_to_works_of_texts_is_refused()
    ensures { (file : List ℕ) (texts : List (List ℕ)) (works : List Work) (units : ℕ) (setting : Setting) (trace : List Event) (ends : List ClientEnd) (parts : List (List Section)) →
        IsSchemaOfFile file setting.schema → AreOfTexts setting.schema texts works → DidAsMeant setting units trace 0 works ends parts → All (λ (e : Event). e.client < length works) trace → NoneRefused trace }
{}

/// So it is at any point of a client's run: where its own events in a trace are those of its run (`Along`,
/// which `Session` keeps), their answers fit, and the database refuses rightly, no answer is Refused,
/// and what it requests next is well formed in the state that the trace leaves: its table, index or
/// sequence is declared, its values are a row of the table, its level is open, and its row is held
/// exclusively.
pub fn no_operation_of_a_text_is_refused()
    ensures { (file text : List ℕ) (p : Program) (client : ClientView) (names : List (List ℕ)) (units : ℕ) (next : Step) (setting : Setting) (contents : Contents) (n : ℕ) (trace : List Event) →
        IsOfFile file text setting.schema p → Along client (record { names = names; run = run p units }) (own_entries client_in n trace) next →
        AllFit setting (own_entries client_in n trace) → RefusesRightly setting n trace → IsNeverRefused setting contents n trace (own_entries client_in n trace) next }
{}
