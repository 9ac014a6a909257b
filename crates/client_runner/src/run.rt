//! All clients together.

ghost use Rattle.std.specs.Prelude.{◌≡◌, ◌⊎◌, ℕ, ◌+◌, ◌≤◌, ◌<◌, [], length, map, slice_index_or, IfOk, IfErr};
ghost use Rattle.database_protocol.specs.declared.operation.Op.{Op as Operation};
ghost use Rattle.database_meaning.specs.declared.contents.Contents.{Contents};
ghost use Rattle.database_meaning.specs.Setting.{Setting};
ghost use Rattle.database_meaning.specs.Traces.{IsLegal};
ghost use Rattle.turn_lock.specs.Journal.{own_entries};
ghost use Rattle.turn_lock.specs.Shared.{seats_of};
ghost use Rattle.turn_lock.specs.Passes.{passes_from};
ghost use Rattle.client_runner.specs.Meant.{client_in};
ghost use Rattle.client_runner.specs.Served.{IsKept, IsAmong};
ghost use Rattle.client_runner.specs.Tasks.{IsReady, HasPass, HasRun, IsOneOfLock, ServesAtLock, pass_of, CameToItsEnd, AreHandedOut, AreTheSame};

use crate::noted::Noted;
use crate::served::Served;
use crate::session::Session;
use crate::task::Task;
use database_interface::Database;
use host_io::Gate;
use std::alloc::Global;
use std::sync::Wait;
use std::thread;
use std::thread::Threads;
use turn_lock::{NoMemory, Passes, Shared};

/// Runs each client on a thread of its own over the database, and gives the database back. The
/// client at place k has the number `first + k`. It calls the gate before each step.
///
/// The clients are active, and no event of the database is of a client numbered `first` or above.
/// `Err` means that there was no memory for the lock: the database is as it was, and no client has
/// begun. Where there was no memory for the event of an operation, that client ends as NoMemory.
pub fn run_clients<R: Threads + Wait + Sync, C: Session + Send, D: Database + Send, G: Gate + Sync>(
    rt: &R,
    alloc: Global,
    database: D,
    first: u16,
    tasks: &mut [Task<C, D>],
    gate: &G,
) -> Result<D, D>
    requires some { 0 < length tasks.old }
    requires room { first + length tasks.old ≤ 65535 }
    requires fresh { (n : ℕ) → first ≤ n → own_entries client_in n (D.trace database) ≡ [] }
    requires active { (n : ℕ) → IsAmong first (length tasks.old) n → D.active database n }
    requires serves { (n : ℕ) (op : Operation) → IsAmong first (length tasks.old) n → C.may_request op ⊎ (op ≡ Operation.End) → D.serves database n op }
    ensures kept { IfOk result (λ d. IsKept D.has_setting D.opened D.trace D.serves D.active database d first (length tasks.old)) }
    ensures legal { (setting : Setting) (contents : Contents) → D.opened database setting contents → IfOk result (λ d. IsLegal setting contents (D.trace d)) }
    ensures came { IfOk result (λ d. (k : ℕ) (t : _) → k < length tasks.old → CameToItsEnd C.begins C.along C.suits C.careful C.certain (D.has_setting database) (own_entries client_in (first + k) (D.trace d)) (slice_index_or tasks.old k t) (slice_index_or tasks.new k t)) }
    ensures back { IfErr result (λ d. d ≡ database) }
{
    let clients = tasks.len() as u16;
    let served = Served::new(database, first, clients);
    let (shared, mut passes) = match Shared::new(alloc, served, first, clients) {
        Ok(made) => made,
        Err((NoMemory, served)) => return Err(served.finish()),
    };
    hand_out(&mut passes, tasks, first);
    run_all(rt, &shared, tasks, gate);
    collect(&mut passes, tasks);
    Ok(shared.close(passes).finish())
}

// Hands the passes out, the last one first.
fn hand_out<C, D: Database>(passes: &mut Passes<Served<D>>, tasks: &mut [Task<C, D>], first: u16)
    requires passes { passes.old.passes ≡ passes_from passes.old.lock first (length tasks.old) }
    requires room { first + length tasks.old ≤ 65535 }
    ensures lock { passes.new.lock ≡ passes.old.lock }
    ensures empty { passes.new.passes ≡ [] }
    ensures ready { AreHandedOut passes.new.lock first tasks.old tasks.new }
{
    let mut i = tasks.len();
    while i > 0 {
        i -= 1;
        let pass = passes.take_last();
        let task = &mut tasks[i];
        task.number = first + i as u16;
        task.pass = pass;
    }
}

// Runs each client on a thread of its own.
fn run_all<R: Threads + Wait + Sync, C: Session + Send, D: Database + Send, G: Gate + Sync>(
    rt: &R,
    shared: &Shared<Served<D>>,
    tasks: &mut [Task<C, D>],
    gate: &G,
)
    requires ready { (k : ℕ) (t : _) → k < length tasks.old → IsReady shared.now (slice_index_or tasks.old k t) }
    requires serves { (n : ℕ) (op : Operation) → IsOneOfLock shared.now n → C.may_request op ⊎ (op ≡ Operation.End) → ServesAtLock D.serves shared.now n op }
    ensures run { (k : ℕ) (t : _) → k < length tasks.old → HasRun C.begins C.along C.suits C.careful C.certain D.has_setting shared.now (slice_index_or tasks.old k t) (slice_index_or tasks.new k t) }
{
    let count = tasks.len();
    if count == 0 {
        return;
    }
    let noted = Noted::new();
    thread::for_each_mut(
        rt,
        tasks,
        count,
        &|_, task: &mut Task<C, D>|
            requires ready { IsReady shared.now task.old }
            requires serves { (n : ℕ) (op : Operation) → IsOneOfLock shared.now n → C.may_request op ⊎ (op ≡ Operation.End) → ServesAtLock D.serves shared.now n op }
            ensures { HasRun C.begins C.along C.suits C.careful C.certain D.has_setting shared.entry.now task.old task.new }
        { task.run(rt, shared, &noted, gate) },
    );
}

// Takes the passes in, the first one first.
fn collect<C, D: Database>(passes: &mut Passes<Served<D>>, tasks: &mut [Task<C, D>])
    requires ready { (k : ℕ) (t : _) → k < length tasks.old → HasPass passes.old.lock (slice_index_or tasks.old k t) }
    requires empty { passes.old.passes ≡ [] }
    requires room { length tasks.old ≤ seats_of passes.old.lock }
    ensures lock { passes.new.lock ≡ passes.old.lock }
    ensures all { passes.new.passes ≡ map (pass_of passes.old.lock) tasks.old }
    ensures same { AreTheSame tasks.old tasks.new }
{
    for task in tasks.iter_mut() {
        let Some(pass) = task.pass.take() else {
            unreachable!()
        };
        passes.put_back(pass);
    }
}
