//! What the runner asks of a client.

ghost use Rattle.std.specs.Prelude.{◌≡◌, ◌++◌, ◌∷◌, [], ℕ, List, None, IfSome};
ghost use Rattle.database_protocol.specs.declared.event.Event.{Event};
ghost use Rattle.database_protocol.specs.declared.operation.Op.{Op};
ghost use Rattle.database_meaning.specs.Setting.{Setting};
ghost use Rattle.database_protocol.specs.declared.next_step.NextStep.{NextStep as Step};
ghost use Rattle.database_interface.specs.Step.{event_of};
ghost use Rattle.client_runner.specs.Meant.{Meant, IsSureOf, IsOver, Requests, NoneIsRefused, AllFit};

use database_protocol::{Answer, NextStep};

/// The session of a client: a machine that requests operations, receives their answers, and ends.
pub trait Session {
    /// It has not begun, and this is its meaning.
    ghost begins: { Self → Meant → Type 0 };

    /// These are its own events so far, in order. It agrees with its meaning under their answers,
    /// and this is its next step.
    ghost along: { Self → Meant → List Event → Step → Type 0 };

    /// This was its last step: it awaits the answer to this operation, or has ended so.
    ghost shows: { Self → Step → Type 0 };

    /// An operation that such a session may request.
    ghost may_request: { Op → Type 0 };

    /// The session was built for the tables and sequences of this setting.
    ghost suits: { Self → Setting → Type 0 };

    /// The meaning requests nothing that the client's own events forbid, if none was refused.
    ghost careful: { Meant → Type 0 };

    /// An operation that is well formed wherever a session with a careful meaning requests it.
    ghost certain: { Op → Type 0 };

    /// Takes the answer to the last request, or None at the first call. Returns the next request,
    /// or how the session has ended. Blocked makes it repeat the same request. After End it has
    /// ended.
    fn resume(&mut self, answer: Option<Answer>) -> NextStep
        ensures first { (m : Meant) → answer ≡ None → begins self.old m → along self.new m [] result }
        ensures next { (m : Meant) (own : List Event) (op : Op) (n : ℕ) → along self.old m own (Step.Ask op) → IfSome answer (λ a. along self.new m (own ++ event_of n op a ∷ []) result) }
        ensures shows { shows self.new result }
        ensures requests { Requests may_request result }
        ensures over { shows self.old (Step.Ask Op.End) → IfSome answer (λ _. IsOver result) }
        ensures suits { (setting : Setting) → suits self.old setting → suits self.new setting };

    /// For any trace: if these are its own events, their answers fit, and none of those to certain
    /// operations is Refused, then a certain request of a session with a careful meaning is well
    /// formed.
    ghost sure: { (session : Self) (setting : Setting) (m : Meant) (n : ℕ) (own : List Event) (op : Op) → suits session setting → careful m → along session m own (Step.Ask op) → certain op → AllFit setting own → NoneIsRefused certain own → IsSureOf setting n own op };
}
