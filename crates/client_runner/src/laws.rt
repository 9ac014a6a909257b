//! What a client's own events determine. Each law is the contract of a function that does nothing.

ghost use Rattle.std.specs.Prelude.{◌≡◌, ℕ, List, map};
ghost use Rattle.database_protocol.specs.declared.event.Event.{Event};
ghost use Rattle.database_meaning.specs.declared.contents.Contents.{Contents};
ghost use Rattle.database_meaning.specs.Setting.{Setting};
ghost use Rattle.database_meaning.specs.State.{depth_of};
ghost use Rattle.database_meaning.specs.Traces.{answers_of, operations_of, left_by};
ghost use Rattle.turn_lock.specs.Journal.{own_entries};
ghost use Rattle.client_runner.specs.Meant.{client_in};
ghost use Rattle.client_runner.specs.Levels.{levels_left};

/// The answers of a client in a trace are those of its own events, in order, and so are the
/// operations that it requested.
pub fn answers_are_of_own_events()
    ensures answers { (n : ℕ) (trace : List Event) → answers_of n trace ≡ map (λ (e : Event). e.answer) (own_entries client_in n trace) }
    ensures operations { (n : ℕ) (trace : List Event) → operations_of n trace ≡ map (λ (e : Event). e.op) (own_entries client_in n trace) }
{}

/// The number of levels that a client has open is determined by its own events, whatever the other
/// clients do.
pub fn open_levels_are_of_own_events()
    ensures { (setting : Setting) (contents : Contents) (n : ℕ) (trace : List Event) → depth_of (left_by setting contents trace) n ≡ levels_left 0 (own_entries client_in n trace) }
{}
