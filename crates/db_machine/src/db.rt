//! The database.

ghost use Rattle.std.specs.Prelude.{◌≡◌, ◌≢◌, ◌⊎◌, ◌<◌, ◌≤◌, ◌+◌, ◌↔◌, ◌||◌, ◌++◌, ◌∷◌, [], ℕ, None, IfErr, IfOk, IfSome, IsTrue, false, true, length, replicate, slice_get, vec_capacity, vec_len};
ghost use Rattle.database_protocol.specs.declared.answer.Answer.TheVariants.{Closed, NoMemory};
ghost use Rattle.database_interface.specs.Step.{IsRefusedRightly, event_of};
ghost use Rattle.database_meaning.specs.declared.contents.Contents.{Contents};
ghost use Rattle.database_meaning.specs.Fits.{Fits};
ghost use Rattle.database_meaning.specs.Laws.{HasApartKeys, HasApartOverlays, IsExclusive, ReadsAsCommitted};
ghost use Rattle.database_meaning.specs.Setting.{Setting};
ghost use Rattle.database_meaning.specs.State.{depth_of};
ghost use Rattle.database_meaning.specs.Steps.{is_closed};
ghost use Rattle.database_meaning.specs.Waiting.{HasNoCycle, WaitsFor};
ghost use Rattle.database_meaning.specs.Traces.{IsLegal, IsSoundContents, left_by};
ghost use Rattle.row_store.specs.Rows.{Durable};
ghost use Rattle.db_core.specs.Crashes.{StartsFrom, Survives};
ghost use Rattle.db_core.specs.Opening.{IsNew, IsOpened as IsStoreOpened};
ghost use Rattle.db_core.specs.Represents.{blocked_in, marks_in};
ghost use Rattle.db_machine.specs.Database.{HasSetting, IsActive, IsBlocked, IsOpened};
ghost use Rattle.db_machine.specs.Memory.{MayLackMemory};

use crate::running::Running;
use crate::steps::answer;
use crate::trace_size::{counted, is_end};
use abl_base::Items;
use abl_values::Schema;
use database_interface::Database;
use database_meaning::laws::{
    keys_are_apart, locked_reads_are_serial, locks_are_apart, no_cycle_ever,
};
use database_protocol::{Answer, Event, Op, Trace};
use db_core::laws::a_new_database_is_represented;
use db_core::refusals::is_waiting;
use db_core::{Control, Session};
use record_locks::Locks;
use row_store::RowStore;
use std::alloc::{AllocError, Global};
use std::marker::Model;

/// A database of rows that a store keeps, with its trace. It has memory for the End of each client
/// that has not ended.
#[derive(Drop)]
pub struct Db<R: RowStore + Drop> {
    alloc: Global,
    rows: R,
    control: Control,
    schema: Schema,
    size: u64,
    closed: bool,
    running: Running,
    trace: Vec<Event>,
}

impl<R: RowStore + Drop> Model for Db<R> {
    ghost use Rattle.std.specs.Prelude.{vec_capacity};
    ghost use Rattle.db_machine.specs.Machine.{IsReserved, IsSafe, Machine, machine_code};

    ghost Value = { Machine R };

    ghost coded = { machine_code R.code };

    ghost view = { λ d. record { rows = d.rows; control = d.control; schema = d.schema; size = d.size; closed = d.closed; running = d.running; trace = d.trace.items } };

    ghost invariant = { λ d. IsSafe (R.RowStore.state d.rows) d.control d.schema d.size d.closed d.trace.items × IsReserved d.control d.running d.trace.items (vec_capacity d.trace) };
}

impl<R: RowStore + Drop> Db<R> {
    /// The database over a store in which no transaction is begun, with these sequence values and this
    /// number of clients, none of which has ended. An error means out of memory, and gives the store
    /// back.
    pub fn new(
        alloc: Global,
        rows: R,
        schema: Schema,
        sequences: Vec<i64>,
        clients: u16,
    ) -> Result<Db<R>, (AllocError, R)>
        requires few { clients ≤ 16 }
        requires fine { (R.RowStore.state rows).failed ≡ false }
        requires schema { (R.RowStore.state rows).schema ≡ schema }
        requires sequences { length sequences.items ≡ length schema.sequences }
        requires opened { (contents : Contents) × IsStoreOpened (R.RowStore.state rows) contents × (sequences.items ≡ contents.sequences) }
        ensures refused { IfErr result (λ e. e.1 ≡ rows) }
        ensures rows { IfOk result (λ db. db.rows ≡ rows) }
        ensures trace { IfOk result (λ db. db.trace ≡ []) }
        ensures setting { IfOk result (λ db. HasSetting db (record { schema = schema; clients = clients })) }
        ensures opened { IfOk result (λ db. (contents : Contents) →
            IsStoreOpened (R.RowStore.state rows) contents → sequences.items ≡ contents.sequences → IsTrue (R.RowStore.state rows).observable →
            IsSoundContents (record { schema = schema; clients = clients }) contents →
            ((first : Durable) → R.RowStore.left rows (R.RowStore.times rows).since first → StartsFrom (R.RowStore.state rows) (R.RowStore.left rows) (R.RowStore.times rows) contents) →
            IsOpened (R.RowStore.state db.rows) (R.RowStore.left db.rows) (R.RowStore.times db.rows) db (record { schema = schema; clients = clients }) contents) }
        ensures active { IfOk result (λ db. (client : ℕ) → client < clients → IsActive db client) }
    {
        a_new_database_is_represented();
        match Start::new(alloc, sequences, clients) {
            Ok(start) => Ok(Db {
                alloc,
                rows,
                control: start.control,
                schema,
                size: 0,
                closed: false,
                running: start.running,
                trace: start.trace,
            }),
            Err(error) => Err((error, rows)),
        }
    }

    /// Whether this is a client of the database that has not ended: then its operations are answered.
    pub fn is_active(&self, client: u16) -> bool
        ensures { IsTrue result ↔ IsActive self.now client }
    {
        (client as usize) < self.control.sessions.len() && self.running.has(client)
    }

    /// Answers the operation of a client that has not ended, and adds one event to the trace. None
    /// means that there is no memory for the event; then nothing happened. NoMemory is never the answer
    /// to End, Back, Drop, the Leave of an inner level, or a commit that names no row whose lock stays.
    /// Closed is the answer only after an earlier Closed, or where the disk has failed in this step.
    pub fn execute(&mut self, client: u16, op: Op) -> Option<Answer>
        requires { IsActive self.old client }
        ensures event { IfSome result (λ answer. self.new.trace ≡ self.old.trace ++ event_of client op answer ∷ []) }
        ensures none { result ≡ None → self.new.trace ≡ self.old.trace }
        ensures end { result ≡ None → op ≢ Op.End }
        ensures refused { (f : Setting) → HasSetting self.old f → IfSome result (λ answer. IsRefusedRightly f self.old.trace (IsBlocked self.old client) client op answer) }
        ensures fits { (f : Setting) → HasSetting self.old f → IfSome result (λ answer. Fits f.schema op answer) }
        ensures memory { (f : Setting) (contents : Contents) → HasSetting self.old f → IfSome result (λ answer. answer ≡ NoMemory → MayLackMemory (depth_of (left_by f contents self.old.trace) client) op) }
        ensures closed { IfSome result (λ answer. answer ≡ Closed → IsTrue self.old.closed ⊎ IsTrue (R.RowStore.state self.new.rows).failed) }
        ensures active { op ≢ Op.End → IsActive self.new client }
        ensures others { (other : ℕ) → other ≢ client → IsActive self.old other → IsActive self.new other }
        ensures setting { (f : Setting) → HasSetting self.old f → HasSetting self.new f }
        ensures since { (R.RowStore.times self.new.rows).since ≡ (R.RowStore.times self.old.rows).since }
        ensures opened { (f : Setting) (contents : Contents) → IsOpened (R.RowStore.state self.old.rows) (R.RowStore.left self.old.rows) (R.RowStore.times self.old.rows) self.old f contents → IsOpened (R.RowStore.state self.new.rows) (R.RowStore.left self.new.rows) (R.RowStore.times self.new.rows) self.new f contents }
    {
        if !has_room(&op, self.running.count(), &mut self.trace) {
            return None;
        }
        let reply = answer(
            self.alloc,
            &mut self.rows,
            &mut self.control,
            &self.schema,
            self.size,
            self.closed,
            client,
            &op,
        );
        self.running.note(client, &op);
        self.size = counted(self.size, &op, &reply.answer);
        self.closed = is_closed(self.closed, &reply.answer);
        self.trace.push_reserved(Event {
            client,
            op,
            answer: reply.copy,
        });
        Some(reply.answer)
    }

    /// The store, and the trace. A stop of the store leaves the contents after the commits that were
    /// acknowledged by then, or after one commit more.
    pub fn close(self) -> (R, Trace)
        ensures rows { result.0 ≡ self.rows }
        ensures trace { result.1 ≡ self.trace }
        ensures legal { (f : Setting) (contents : Contents) → IsOpened (R.RowStore.state self.rows) (R.RowStore.left self.rows) (R.RowStore.times self.rows) self f contents → IsLegal f contents result.1 }
        ensures no_cycle { (f : Setting) (contents : Contents) → IsOpened (R.RowStore.state self.rows) (R.RowStore.left self.rows) (R.RowStore.times self.rows) self f contents → HasNoCycle (WaitsFor f (left_by f contents result.1)) }
        ensures locks { (f : Setting) (contents : Contents) → IsOpened (R.RowStore.state self.rows) (R.RowStore.left self.rows) (R.RowStore.times self.rows) self f contents → IsExclusive (left_by f contents result.1) }
        ensures overlays { (f : Setting) (contents : Contents) → IsOpened (R.RowStore.state self.rows) (R.RowStore.left self.rows) (R.RowStore.times self.rows) self f contents → HasApartOverlays (left_by f contents result.1) }
        ensures keys { (f : Setting) (contents : Contents) → IsOpened (R.RowStore.state self.rows) (R.RowStore.left self.rows) (R.RowStore.times self.rows) self f contents → HasApartKeys (left_by f contents result.1) }
        ensures crashes { (f : Setting) (contents : Contents) → IsOpened (R.RowStore.state self.rows) (R.RowStore.left self.rows) (R.RowStore.times self.rows) self f contents →
            (first : Durable) → R.RowStore.left self.rows (R.RowStore.times self.rows).since first → Survives (R.RowStore.left self.rows) (R.RowStore.times self.rows) f contents result.1 }
        ensures serial { (f : Setting) (contents : Contents) → ReadsAsCommitted f contents }
    {
        no_cycle_ever();
        locks_are_apart();
        keys_are_apart();
        locked_reads_are_serial();
        let Db { rows, trace, .. } = self;
        (rows, Items::from_vec(trace))
    }
}

impl<R: RowStore + Drop> Database for Db<R> {
    ghost use Rattle.std.specs.Prelude.{⊤};
    ghost use Rattle.db_machine.specs.Database.{HasSetting, IsActive, IsBlocked, IsOpened, blocked_as, legal, one_of};

    ghost has_setting = { λ db f. HasSetting db f };

    ghost opened = { λ db f contents. IsOpened (R.RowStore.state db.rows) (R.RowStore.left db.rows) (R.RowStore.times db.rows) db f contents };

    ghost trace = { λ db. db.trace };

    ghost serves = { λ db client op. ⊤ };

    ghost active = { λ db client. IsActive db client };

    ghost blocked = { λ db client. IsBlocked db client };

    fn events(&self) -> u64 {
        self.trace.len() as u64
    }

    fn frees(&self) -> u64 {
        self.control.frees
    }

    fn waits(&self, client: u16) -> bool {
        is_waiting(&self.control, client)
    }

    fn step(&mut self, client: u16, op: Op) -> Option<Answer> {
        self.execute(client, op)
    }

    ghost legal = { λ db f contents opened. legal (R.RowStore.state db.rows) (R.RowStore.left db.rows) (R.RowStore.times db.rows) db f contents opened };

    ghost opened_of = { λ db f contents opened. opened.setting };

    ghost known = { λ db f client has active. one_of db f client has active };

    ghost blocked_as = { λ db f contents client opened. blocked_as (R.RowStore.state db.rows) (R.RowStore.left db.rows) (R.RowStore.times db.rows) db f contents client opened };
}

/// Sessions of `count` clients that have requested nothing yet.
fn new_sessions(alloc: Global, count: u16) -> Result<Vec<Session>, AllocError>
    ensures count { IfOk result (λ sessions. length sessions.items ≡ count) }
    ensures marks { IfOk result (λ sessions. (c : ℕ) → marks_in (slice_get sessions.items c) ≡ []) }
    ensures blocked { IfOk result (λ sessions. (c : ℕ) → blocked_in (slice_get sessions.items c) ≡ None) }
{
    if count == 0 {
        return Ok(Vec::new(alloc));
    }
    let mut sessions = new_sessions(alloc, count - 1)?;
    sessions.push(Session {
        marks: Vec::new(alloc),
        blocked: None,
    })?;
    Ok(sessions)
}

/// What a database that was just opened has beside its store.
#[derive(Drop)]
struct Start {
    control: Control,
    running: Running,
    trace: Vec<Event>,
}

impl Start {
    /// No client holds anything or has ended, and there is memory for the End of each.
    fn new(alloc: Global, sequences: Vec<i64>, clients: u16) -> Result<Start, AllocError>
        ensures count { IfOk result (λ start. length start.control.sessions.items ≡ clients) }
        ensures sequences { IfOk result (λ start. start.control.sequences.items ≡ sequences.items) }
        ensures frees { IfOk result (λ start. start.control.frees ≡ 0) }
        ensures new { IfOk result (λ start. (contents : Contents) → sequences.items ≡ contents.sequences → IsNew start.control contents) }
        ensures running { IfOk result (λ start. start.running ≡ replicate clients true) }
        ensures trace { IfOk result (λ start. start.trace.items ≡ []) }
        ensures room { IfOk result (λ start. clients ≤ vec_capacity start.trace) }
    {
        let control = new_control(alloc, sequences, clients)?;
        let running = Running::new(alloc, clients)?;
        let trace = Vec::with_capacity(alloc, clients as usize)?;
        Ok(Start {
            control,
            running,
            trace,
        })
    }
}

/// The control data of a database that was just opened.
fn new_control(alloc: Global, sequences: Vec<i64>, clients: u16) -> Result<Control, AllocError>
    ensures count { IfOk result (λ control. length control.sessions.items ≡ clients) }
    ensures sequences { IfOk result (λ control. control.sequences.items ≡ sequences.items) }
    ensures frees { IfOk result (λ control. control.frees ≡ 0) }
    ensures new { IfOk result (λ control. (contents : Contents) → sequences.items ≡ contents.sequences → IsNew control contents) }
{
    let sessions = new_sessions(alloc, clients)?;
    Ok(Control {
        locks: Locks::new(alloc),
        sessions,
        sequences,
        frees: 0,
    })
}

/// Whether there is room for the event of the operation and, after another operation than End, for
/// the Ends of the clients that have not ended.
fn has_room(op: &Op, running: usize, trace: &mut Vec<Event>) -> bool
    requires { vec_len trace.old + running ≤ vec_capacity trace.old }
    ensures items { trace.new.items ≡ trace.old.items }
    ensures len { vec_len trace.new ≡ vec_len trace.old }
    ensures capacity { vec_capacity trace.old ≤ vec_capacity trace.new }
    ensures end { op.now ≡ Op.End → IsTrue result }
    ensures room { IsTrue result → op.now ≢ Op.End → vec_len trace.new + running < vec_capacity trace.new }
{
    is_end(op) || trace.reserve(running + 1).is_ok() || trace.capacity() - trace.len() > running
}

/// Whether the database is closed after the answer.
fn is_closed(closed: bool, answer: &Answer) -> bool
    ensures { result ≡ closed || is_closed answer.now }
{
    closed || matches!(answer, Answer::Closed)
}
