//! The laws. Each is the contract of a function with an empty body.

ghost use Rattle.std.specs.Prelude.{◌≡◌, ◌++◌, ◌∷◌, ℕ, List};
ghost use Rattle.database_protocol.specs.declared.answer.Answer.{Answer};
ghost use Rattle.database_protocol.specs.declared.operation.Op.{Op};
ghost use Rattle.database_protocol.specs.declared.next_step.NextStep.{NextStep as Step};
ghost use Rattle.block_meaning.specs.Program.{Program};
ghost use Rattle.block_meaning.specs.Meaning.{run};
ghost use Rattle.database_protocol.specs.declared.event.Event.{Event};
ghost use Rattle.database_meaning.specs.declared.contents.Contents.{Contents};
ghost use Rattle.database_meaning.specs.Setting.{Setting};
ghost use Rattle.turn_lock.specs.Journal.{own_entries};
ghost use Rattle.client_core.specs.ClientView.{ClientView};
ghost use Rattle.client_runner.specs.Meant.{AllFit, client_in};
ghost use Rattle.client_threads.specs.session.Along.{Along, IsCareful};
ghost use Rattle.client_threads.specs.runs.Careful.{IsStop};
ghost use Rattle.client_threads.specs.runs.Unrefused.{IsUnrefused, RefusesRightly};

use client_runner::laws::open_levels_are_of_own_events;

/// After NoMemory, Closed, Deadlock, TxFull or TraceFull a client requests nothing but End, whatever
/// is answered later.
pub fn a_stop_is_followed_by_end_alone()
    ensures { (p : Program) (units : ℕ) (before more : List Answer) (a : Answer) (op : Op) → IsStop a → (run p units (before ++ a ∷ more)).wants ≡ Step.Ask op → op ≡ Op.End }
{}

/// The run of every source is careful: where the answers of its own events fit and no operation on
/// levels was Refused, it requests Leave and Back only of levels that these events have left open.
pub fn every_run_is_careful()
    ensures { (names : List (List ℕ)) (p : Program) (units : ℕ) → IsCareful (record { names = names; run = run p units }) }
{}

/// No operation on levels of a client of block code is refused. Where its own events in a trace are
/// those of its run (`Along`, which `Session` keeps), their answers fit, and the database refuses
/// rightly, no answer to Enter, Leave, Back or End is Refused, and such an operation that it requests
/// next is well formed in the state that the trace leaves: a Leave or Back names a level that its own
/// events have left open.
pub fn no_operation_on_levels_is_refused()
    ensures { (client : ClientView) (names : List (List ℕ)) (p : Program) (units : ℕ) (next : Step) (setting : Setting) (contents : Contents) (n : ℕ) (trace : List Event) →
        Along client (record { names = names; run = run p units }) (own_entries client_in n trace) next →
        AllFit setting (own_entries client_in n trace) → RefusesRightly setting n trace →
        IsUnrefused setting contents n trace (own_entries client_in n trace) next }
{
    open_levels_are_of_own_events();
}
