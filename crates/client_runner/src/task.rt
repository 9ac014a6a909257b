//! One client on a thread of its own.

ghost use Rattle.std.specs.Prelude.{◌≡◌, ◌≢◌, ◌⊎◌, ◌++◌, ◌∷◌, [], ℕ, None, IfSome};
ghost use Rattle.database_meaning.specs.Setting.{Setting};
ghost use Rattle.database_meaning.specs.Fits.{Fits};
ghost use Rattle.database_protocol.specs.declared.operation.Op.{Op as Operation};
ghost use Rattle.database_protocol.specs.declared.answer.Answer.TheVariants.{Refused};
ghost use Rattle.database_interface.specs.Step.{event_of};
ghost use Rattle.client_runner.specs.Meant.{IsSureOf, HasNotEnded};
ghost use Rattle.client_runner.specs.Tasks.{IsReady, HasRun, IsOneOfLock, HasSettingAtLock, ServesAtLock, EndedBy};

use crate::noted::Noted;
use crate::served::Served;
use crate::session::Session;
use database_interface::Database;
use database_protocol::{Answer, ClientEnd, NextStep, Op};
use host_io::Gate;
use std::sync::Wait;
use turn_lock::{Pass, Shared};

/// A client, its number and its pass while it runs, and then its end.
#[derive(Drop)]
pub struct Task<C, D: Database> {
    pub client: C,
    pub number: u16,
    pub pass: Option<Pass<Served<D>>>,
    pub end: Option<ClientEnd>,
}

/// The result of an operation: its answer, and the pass after it. None means out of memory for the
/// event.
pub(crate) struct Answered<D: Database> {
    answer: Option<Answer>,
    pass: Pass<Served<D>>,
}

/// Whether the client is to wait and ask again.
fn is_blocked(answer: &Option<Answer>) -> bool {
    matches!(answer, Some(Answer::Blocked { .. }))
}

/// Takes the turn and gives it back, until the operation is answered: while the database says that
/// the client is blocked and nothing was freed, the client gives it back unchanged and waits outside.
/// After Blocked it waits outside until something was freed.
pub(crate) fn answer<R: Wait, D: Database, G: Gate>(
    rt: &R,
    shared: &Shared<Served<D>>,
    noted: &Noted,
    gate: &G,
    pass: Pass<Served<D>>,
    number: u16,
    operation: u64,
    op: Op,
) -> Answered<D>
    requires lock { pass.lock ≡ shared.now }
    requires client { pass.client ≡ number }
    requires one { IsOneOfLock shared.now number }
    requires active { HasNotEnded pass.list }
    requires served { ServesAtLock D.serves shared.now number op }
    ensures lock { result.pass.lock ≡ shared.now }
    ensures client { result.pass.client ≡ number }
    ensures event { IfSome result.answer (λ answer. result.pass.list ≡ pass.list ++ event_of number op answer ∷ []) }
    ensures none { result.answer ≡ None → result.pass.list ≡ pass.list }
    ensures end { result.answer ≡ None → op ≢ Operation.End }
    ensures fits { (setting : Setting) → HasSettingAtLock D.has_setting shared.now setting → IfSome result.answer (λ answer. Fits setting.schema op answer) }
    ensures sure { (setting : Setting) → HasSettingAtLock D.has_setting shared.now setting → IsSureOf setting number pass.list op → IfSome result.answer (λ answer. answer ≢ Refused) }
{
    let mut pass = pass;
    for _ in rt.forever() {
        gate.at(number, operation);
        let (mut served, turn) = shared.take(rt, pass);
        if !served.waits(number) {
            let answer = served.step(number, op);
            let frees = served.frees();
            let pass = shared.give(turn, served);
            noted.note(rt, frees);
            if is_blocked(&answer) {
                noted.wait_past(rt, frees);
            }
            return Answered { answer, pass };
        }
        let frees = served.frees();
        pass = shared.give(turn, served);
        noted.wait_past(rt, frees);
    }
    unreachable!()
}

impl<C: Session, D: Database> Task<C, D> {
    /// A client that is to run.
    pub fn new(client: C) -> Task<C, D>
        ensures { result.client ≡ client }
    {
        Task {
            client,
            number: 0,
            pass: None,
            end: None,
        }
    }

    /// Runs the client to its end: it takes turns and receives the answers. If there is no memory
    /// for the event of an operation, End is requested instead, and the client ends.
    pub(crate) fn run<R: Wait, G: Gate>(
        &mut self,
        rt: &R,
        shared: &Shared<Served<D>>,
        noted: &Noted,
        gate: &G,
    )
        requires ready { IsReady shared.now self.old }
        requires serves { (op : Operation) → C.may_request op ⊎ (op ≡ Operation.End) → ServesAtLock D.serves shared.now self.old.number op }
        ensures run { HasRun C.begins C.along C.suits C.careful C.certain D.has_setting shared.now self.old self.new }
    {
        let Some(mut pass) = self.pass.take() else {
            unreachable!()
        };
        let mut operation = 0u64;
        let mut blocked = false;
        let mut wants = self.client.resume(None);
        for _ in rt.forever() {
            match wants {
                NextStep::Ended(end) => {
                    self.pass = Some(pass);
                    self.end = Some(end);
                    return;
                }
                NextStep::Ask(op) => {
                    if !blocked {
                        operation = operation.saturating_add(1);
                    }
                    let Answered {
                        answer: heard,
                        pass: next,
                    } = answer(rt, shared, noted, gate, pass, self.number, operation, op);
                    blocked = is_blocked(&heard);
                    match heard {
                        Some(given) => {
                            pass = next;
                            wants = self.client.resume(Some(given));
                        }
                        None => {
                            let last = request_end(
                                rt,
                                shared,
                                noted,
                                gate,
                                next,
                                self.number,
                                operation,
                            );
                            self.pass = Some(last);
                            self.end = Some(ClientEnd::NoMemory);
                            return;
                        }
                    }
                }
            }
        }
        unreachable!()
    }
}

/// Requests End instead of an operation for whose event there was no memory.
fn request_end<R: Wait, D: Database, G: Gate>(
    rt: &R,
    shared: &Shared<Served<D>>,
    noted: &Noted,
    gate: &G,
    pass: Pass<Served<D>>,
    number: u16,
    operation: u64,
) -> Pass<Served<D>>
    requires lock { pass.lock ≡ shared.now }
    requires client { pass.client ≡ number }
    requires one { IsOneOfLock shared.now number }
    requires active { HasNotEnded pass.list }
    requires served { ServesAtLock D.serves shared.now number Operation.End }
    ensures lock { result.lock ≡ shared.now }
    ensures client { result.client ≡ number }
    ensures ended { EndedBy D.has_setting shared.now number pass.list result.list }
{
    let Answered {
        answer: heard,
        pass: last,
    } = answer(rt, shared, noted, gate, pass, number, operation, Op::End);
    drop(heard);
    last
}
