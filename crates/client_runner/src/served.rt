//! The database under the lock.

ghost use Rattle.std.specs.Prelude.{◌≡◌, ◌≢◌, ◌++◌, ◌∷◌, [], ◌+◌, ◌≤◌, ◌↔◌, ℕ, List, None, IfSome, IsTrue};
ghost use Rattle.database_meaning.specs.declared.contents.Contents.{Contents};
ghost use Rattle.database_meaning.specs.Setting.{Setting};
ghost use Rattle.database_meaning.specs.Traces.{IsLegal};
ghost use Rattle.database_meaning.specs.Fits.{Fits};
ghost use Rattle.database_protocol.specs.declared.operation.Op.{Op as Operation};
ghost use Rattle.database_protocol.specs.declared.answer.Answer.TheVariants.{Refused};
ghost use Rattle.database_interface.specs.Step.{event_of};
ghost use Rattle.turn_lock.specs.Journal.{own_entries};
ghost use Rattle.client_runner.specs.Meant.{IsSureOf, HasNotEnded, client_in};
ghost use Rattle.client_runner.specs.Served.{IsKept, IsOneOf, IsAmong, AreActive};

use crate::start::Start;
use database_interface::Database;
use database_protocol::{Answer, Event, Op};
use std::marker::Model;
use std::snapshot::Snapshot;
use turn_lock::Journal;

/// A database that is served to the clients of one run. Its list is the trace; its origin is what
/// the run began with. Its trace is always the one handed in and then events of these clients
/// alone, and each of them is active until its End.
pub struct Served<D: Database> {
    database: D,
    start: Start<D>,
}

impl<D: Database> Model for Served<D> {
    ghost use Rattle.client_runner.specs.Served.{Serving, IsServed};

    ghost Value = { Serving D };

    ghost view = { λ s. record { database = s.database; start = s.start } };

    ghost invariant = { λ s. IsServed D.has_setting D.opened D.trace D.serves D.active s.database s.start };
}

impl<D: Database> Journal for Served<D> {
    type Entry = Event;

    type Origin = Start<D>;

    ghost entries = { λ s. D.trace s.database };

    ghost client = { λ e. e.client };

    ghost origin = { λ s. s.start };

    fn entries(&self) -> u64 {
        self.database.events()
    }
}

impl<D: Database> Served<D> {
    /// The database, served to this number of clients from the first on.
    pub fn new(database: D, first: u16, clients: u16) -> Served<D>
        requires active { AreActive D.trace D.active database first clients }
        ensures database { result.database ≡ database }
        ensures start { (result.start.database.value ≡ database) × (result.start.first ≡ first) × (result.start.clients ≡ clients) }
    {
        let start = Start {
            database: Snapshot::of(&database),
            first,
            clients,
        };
        Served { database, start }
    }

    /// Whether the client is blocked and nothing was freed since.
    pub fn waits(&self, client: u16) -> bool
        requires one { IsOneOf self.now.start client }
        requires active { HasNotEnded (own_entries client_in client (D.trace self.now.database)) }
        ensures { IsTrue result ↔ D.blocked self.now.database client }
    {
        self.database.waits(client)
    }

    /// The number of steps that have freed a lock or a reserved key.
    pub fn frees(&self) -> u64 {
        self.database.frees()
    }

    /// One step of one of the clients. None means out of memory, and nothing happened.
    pub fn step(&mut self, client: u16, op: Op) -> Option<Answer>
        requires one { IsOneOf self.old.start client }
        requires active { HasNotEnded (own_entries client_in client (D.trace self.old.database)) }
        requires served { D.serves self.old.start.database.value client op }
        ensures start { self.new.start ≡ self.old.start }
        ensures event { IfSome result (λ answer. D.trace self.new.database ≡ D.trace self.old.database ++ event_of client op answer ∷ []) }
        ensures none { result ≡ None → D.trace self.new.database ≡ D.trace self.old.database }
        ensures end { result ≡ None → op ≢ Operation.End }
        ensures fits { (setting : Setting) → D.has_setting self.old.start.database.value setting → IfSome result (λ answer. Fits setting.schema op answer) }
        ensures sure { (setting : Setting) → D.has_setting self.old.start.database.value setting
            → IsSureOf setting client (own_entries client_in client (D.trace self.old.database)) op
            → ¬ D.blocked self.old.database client → IfSome result (λ answer. answer ≢ Refused) }
    {
        self.database.step(client, op)
    }

    /// The database again.
    pub fn finish(self) -> D
        ensures database { result ≡ self.database }
        ensures kept { IsKept D.has_setting D.opened D.trace D.serves D.active self.start.database.value result self.start.first self.start.clients }
        ensures legal { (setting : Setting) (contents : Contents) → D.opened self.start.database.value setting contents → IsLegal setting contents (D.trace result) }
    {
        let Served { database, start } = self;
        drop(start);
        database
    }
}
