//! Laws that hold over every legal trace of the database machine. Each is the contract of a
//! function that does nothing.

ghost use Rattle.std.specs.Prelude.{◌⊎◌, ◌≡◌, ◌++◌, ℕ, List, false};
ghost use Rattle.database_meaning.specs.Setting.{Setting};
ghost use Rattle.database_meaning.specs.State.{State};
ghost use Rattle.database_meaning.specs.Waiting.{HasNoCycle, WaitsFor, Closes, IsCycle};
ghost use Rattle.database_meaning.specs.Traces.{IsLegal, left_by, HasUniqueKeys};
ghost use Rattle.database_meaning.specs.Steps.{is_success, after};
ghost use Rattle.database_meaning.specs.Laws.{IsIsolatedThroughout, IsExclusive, HasApartOverlays, HasApartKeys, ReadsAsCommitted, AnswersFit, IsUnchanged, HasOneAnswer};
ghost use Rattle.database_meaning.specs.declared.contents.Contents.{Contents as Opening};
ghost use Rattle.database_protocol.specs.declared.event.Event.{Event as TraceEvent};
ghost use Rattle.database_protocol.specs.declared.operation.Op.{Op as Asked};
ghost use Rattle.database_protocol.specs.declared.answer.Answer.{Answer as Given};

/// No client ever waits for itself, directly or over other clients.
pub fn no_cycle_ever()
    ensures { (f : Setting) (contents : Opening) (trace : List TraceEvent) → IsLegal f contents trace → HasNoCycle (WaitsFor f (left_by f contents trace)) }
{}

/// A row that one client holds exclusively is held by no other, and no row is in the overlays of
/// two clients.
pub fn locks_are_apart()
    ensures exclusive { (f : Setting) (contents : Opening) (trace : List TraceEvent) → IsLegal f contents trace → IsExclusive (left_by f contents trace) }
    ensures overlays { (f : Setting) (contents : Opening) (trace : List TraceEvent) → IsLegal f contents trace → HasApartOverlays (left_by f contents trace) }
{}

/// No two clients ever reserve one unique key, and no two committed rows ever have one.
pub fn keys_are_apart()
    ensures reserved_keys { (f : Setting) (contents : Opening) (trace : List TraceEvent) → IsLegal f contents trace → HasApartKeys (left_by f contents trace) }
    ensures committed { (f : Setting) (contents : Opening) (trace : List TraceEvent) → IsLegal f contents trace → HasUniqueKeys f (left_by f contents trace).committed }
{}

/// What a client reads under a lock inside a transaction that commits is its own change, or what
/// is committed for the row just before that commit: as if transactions ran one at a time, in the
/// order of their commits.
pub fn locked_reads_are_serial()
    ensures { (f : Setting) (contents : Opening) → ReadsAsCommitted f contents }
{}

/// What a trace was before some of its events is legal where the trace is.
pub fn prefixes_are_legal()
    ensures { (f : Setting) (contents : Opening) (before later : List TraceEvent) → IsLegal f contents (before ++ later) → IsLegal f contents before }
{}

/// At each moment of a trace no client waits for itself, exclusive locks, overlays and reserved keys of
/// different clients are apart, and unique keys are unique. What a client reads under a lock inside a
/// transaction is its own change, or what is committed for the row up to its commit.
pub fn legal_traces_are_isolated()
    ensures { (f : Setting) (contents : Opening) (trace : List TraceEvent) → IsLegal f contents trace → IsIsolatedThroughout f contents trace }
{}

/// Where waiting would close a cycle, some cycle of different clients begins with the caller, so that
/// Deadlock can be answered.
pub fn deadlocks_can_be_answered()
    ensures { (f : Setting) (s : State) (c : ℕ) (op : Asked) → Closes f s c op → (cycle : List ℕ) × IsCycle f s c op cycle }
{}

/// The answer of each event fits its operation.
pub fn answers_fit()
    ensures { (f : Setting) (contents : Opening) → AnswersFit f contents }
{}

/// After an answer that is no success rows, locks, reserved keys, levels and sequences are as before.
pub fn refusals_change_nothing()
    ensures { (f : Setting) (s : State) (c : ℕ) (op : Asked) (a : Given) → is_success a ≡ false → IsUnchanged f s (after f s c op a) }
{}

/// The table allows one answer, except for the row of an Insert, the moment of a commit and the choice
/// among several cycles. The only answers outside the table are NoMemory and, after a disk fault, Closed.
pub fn answers_are_one()
    ensures { (f : Setting) (contents : Opening) (trace : List TraceEvent) → IsLegal f contents trace → HasOneAnswer f (left_by f contents trace) }
{}
