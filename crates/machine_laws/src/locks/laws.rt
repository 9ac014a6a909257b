//! The law. It is the contract of a function with an empty body.

ghost use Rattle.std.specs.Prelude.{◌≡◌, ◌↔◌, List, true, ℕ};
ghost use Rattle.database_protocol.specs.declared.event.Event.{Event};
ghost use Rattle.client_runner.specs.Meant.{client_in};
ghost use Rattle.database_meaning.specs.Setting.{Setting};
ghost use Rattle.database_meaning.specs.State.{HoldsExclusively};
ghost use Rattle.database_meaning.specs.Traces.{left_by};
ghost use Rattle.database_meaning.specs.declared.contents.Contents.{Contents};
ghost use Rattle.machine_laws.specs.locks.Exclusive.{holds};
ghost use Rattle.turn_lock.specs.Journal.{own_entries};

/// Which rows a client holds exclusively is determined by its own events, whatever the other clients
/// do.
pub fn exclusive_locks_are_of_own_events()
    ensures { (setting : Setting) (contents : Contents) (n : ℕ) (trace : List Event) (row : ℕ) → HoldsExclusively (left_by setting contents trace) n row ↔ holds (own_entries client_in n trace) row ≡ true }
{}
