//! The trait of databases.

ghost use Rattle.std.specs.Prelude.{◌≡◌, ◌≢◌, ◌++◌, ◌∷◌, ◌<◌, ◌↔◌, [], ℕ, List, length, None, IfSome, IsTrue};
ghost use Rattle.database_meaning.specs.declared.contents.Contents.{Contents};
ghost use Rattle.database_protocol.specs.declared.event.Event.{Event};
ghost use Rattle.database_protocol.specs.declared.operation.Op.{Op};
ghost use Rattle.database_meaning.specs.Setting.{Setting};
ghost use Rattle.database_meaning.specs.Fits.{Fits};
ghost use Rattle.database_meaning.specs.Traces.{IsLegal, left_by};
ghost use Rattle.database_interface.specs.Step.{event_of, StaysBlocked, IsRefusedRightly};

use database_protocol::{Answer, Op};

/// A database that answers the operations of its clients, which are numbered from 0.
///
/// Contracts see its setting (tables, sequences and number of clients), its trace, and the contents
/// with which it was opened, where those are observable. The state of the database is the one that
/// its trace leaves.
pub trait Database {
    /// It may be a database of this setting. A database with tables of its own has one setting; one
    /// that looks at no table has many.
    ghost has_setting: { Self → Setting → Type 0 };

    /// It may be a database of this setting that was opened with these contents. Of a database on a
    /// disk whose contents are not observable it holds for no contents.
    ghost opened: { Self → Setting → Contents → Type 0 };

    /// Its events, the oldest first.
    ghost trace: { Self → List Event };

    /// It answers this operation of this client. A database need not know every operation; what runs
    /// clients requires those that they may request.
    ghost serves: { Self → ℕ → Op → Type 0 };

    /// The client has not ended, and there is memory for the event of its End.
    ghost active: { Self → ℕ → Type 0 };

    /// The client was answered Blocked, and no step has freed a lock or a reserved key since.
    ghost blocked: { Self → ℕ → Type 0 };

    /// The number of its events.
    fn events(&self) -> u64
        ensures { result ≡ length (trace self.now) };

    /// The number of steps that have freed a lock or a reserved key. It takes no memory.
    fn frees(&self) -> u64
        ensures { (setting : Setting) (contents : Contents) → opened self.now setting contents → result ≡ (left_by setting contents (trace self.now)).frees };

    /// Whether the client was answered Blocked, and nothing was freed since: asking again would be
    /// refused. It takes no memory.
    fn waits(&self, client: u16) -> bool
        requires active { active self.now client }
        ensures { IsTrue result ↔ blocked self.now client };

    /// Answers the operation of the client, which is one event more. None means that there is no
    /// memory for the event; then nothing happened, and the client can only end. End is always
    /// answered. The calling client stays active until its End, and each other client stays as it was.
    /// Refused comes only to a client that waits, or to an operation that names what is not there.
    fn step(&mut self, client: u16, op: Op) -> Option<Answer>
        requires served { serves self.old client op }
        requires active { active self.old client }
        ensures event { IfSome result (λ answer. trace self.new ≡ trace self.old ++ event_of client op answer ∷ []) }
        ensures none { result ≡ None → trace self.new ≡ trace self.old }
        ensures end { result ≡ None → op ≢ Op.End }
        ensures refused { (setting : Setting) → has_setting self.old setting → IfSome result (λ answer. IsRefusedRightly setting (trace self.old) (blocked self.old client) client op answer) }
        ensures fits { (setting : Setting) → has_setting self.old setting → IfSome result (λ answer. Fits setting.schema op answer) }
        ensures active { op ≢ Op.End → active self.new client }
        ensures others { (other : ℕ) → other ≢ client → active self.old other → active self.new other }
        ensures setting { (setting : Setting) → has_setting self.old setting → has_setting self.new setting }
        ensures opened { (setting : Setting) (contents : Contents) → opened self.old setting contents → opened self.new setting contents }
        ensures serves { (other : ℕ) (next : Op) → serves self.old other next → serves self.new other next };

    /// The trace stays legal.
    ghost legal: { (database : Self) (setting : Setting) (contents : Contents) → opened database setting contents → IsLegal setting contents (trace database) };

    /// What it was opened with has its setting.
    ghost opened_of: { (database : Self) (setting : Setting) (contents : Contents) → opened database setting contents → has_setting database setting };

    /// An active client is one of the setting.
    ghost known: { (database : Self) (setting : Setting) (client : ℕ) → has_setting database setting → active database client → client < setting.clients };

    /// A client is blocked as the state that the trace leaves says.
    ghost blocked_as: { (database : Self) (setting : Setting) (contents : Contents) (client : ℕ) → opened database setting contents → blocked database client ↔ StaysBlocked (left_by setting contents (trace database)) client };
}
