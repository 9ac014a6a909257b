//! The client: a machine from one answer to the next.

ghost use Rattle.std.specs.Prelude.{◌≡◌, ◌⊎◌, ◌∷◌, ◌++◌, ◌<◌, ◌+◌, ℕ, List, [], Some, true, false, IfOk, IfSome};
ghost use Rattle.database_protocol.specs.declared.answer.Answer.{Answer};
ghost use Rattle.database_protocol.specs.declared.operation.Op.{Op};
ghost use Rattle.database_protocol.specs.declared.ends.ClientEnd.{ClientEnd};
ghost use Rattle.database_protocol.specs.declared.next_step.NextStep.{NextStep};
ghost use Rattle.bound_tree.specs.declared.procedure.Bound.{Bound};
ghost use Rattle.bound_tree.specs.Bound.{source_of};
ghost use Rattle.evaluator.specs.Forms.{AreForms};
ghost use Rattle.value_formats.specs.Imports.{line_at};
ghost use Rattle.block_meaning.specs.declared.wants.Piece.{Piece};
ghost use Rattle.block_meaning.specs.State.{Progress};
ghost use Rattle.block_meaning.specs.Program.{Program};
ghost use Rattle.block_meaning.specs.Meaning.{run as run_of};
ghost use Rattle.block_code.specs.Code.{IsCompiled};
ghost use Rattle.client_output.specs.Sections.{sections_of};
ghost use Rattle.client_machine.specs.Step.{IsAwaiting};
ghost use Rattle.client_core.specs.declared.client.Phase.{Phase};
ghost use Rattle.client_core.specs.NextStep.{IsAsking, IsEnded, IsPlain};
ghost use Rattle.client_core.specs.ClientView.{HasWritten};
ghost use Rattle.client_core.specs.Work.{most_operations, IsWaiting, IsEnding, AsksNoEnd, ShowsNextStep};
ghost use Rattle.client_core.specs.Refines.{Refines, HasGivenUp, AfterResume, HasNotBegun, IsExpected, answers_with, Follows, RunsOn};

use crate::answers::take_answer;
use crate::begin::first_machine;
use crate::steps::step;
use block_code::Code;
use client_machine::inputs::Inputs;
use client_machine::machine::Machine;
use client_machine::mode::Mode;
use client_output::Section;
use database_protocol::{Answer, ClientEnd, NextStep, Op};
use std::alloc::{AllocError, Global};

/// Where a client is between two calls.
#[derive(Clone, Copy, Debug)]
pub enum Phase {
    Running,
    /// It is out of memory: End was asked.
    GivingUp,
    Ended,
}

/// A client that runs.
#[derive(Drop)]
pub struct Client {
    pub machine: Machine,
    pub phase: Phase,
}

impl Client {
    /// A client that has not begun, with this number of units. Out of memory is the only error.
    pub fn new(alloc: Global, code: Code, inputs: Inputs, units: u64) -> Result<Client, AllocError>
        ensures refines { IfOk result (λ client. (bound : Bound) (p : Program) → IsCompiled code bound → p.source ≡ source_of bound → p.tables ≡ inputs.schema.tables → p.input ≡ inputs.own → p.inputs ≡ inputs.named.items → AreForms p.forms → p.forms.line_at ≡ line_at → Refines client bound.outputs.items (run_of p units) []) }
        ensures begins { IfOk result (λ client. HasNotBegun client) }
    {
        let machine = first_machine(alloc, code, inputs, units)?;
        Ok(Client {
            machine,
            phase: Phase::Running,
        })
    }

    /// Takes the answer to the last request, or None at the first call. Returns the next request,
    /// or how the client has ended. Blocked makes it repeat the same request.
    pub fn resume(&mut self, answer: Option<Answer>) -> NextStep
        ensures refines { (names : List (List ℕ)) (m : List Answer → Progress) (answers : List Answer) → IsExpected answer self.old answers → Refines self.old names m answers → AfterResume self.new names m (answers_with answers answer) result }
        ensures given_up { (names : List (List ℕ)) (m : List Answer → Progress) (answers : List Answer) (pieces : List Piece) → HasGivenUp self.old names m answers pieces → IfSome answer (λ _. (result ≡ NextStep.Ended ClientEnd.NoMemory) × HasWritten self.new names pieces) }
        ensures waits { IsAsking result → IsWaiting self.new }
        ensures fewer { IfSome answer (λ a. IsPlain a → IsWaiting self.old → most_operations self.new < most_operations self.old) }
        ensures wants { ShowsNextStep self.new result }
        ensures gives_up { answer ≡ Some Answer.NoMemory → IsWaiting self.old → IsEnding self.new ⊎ IsEnded result }
        ensures ended { IsEnding self.old → IfSome answer (λ _. IsEnded result) }
    {
        match answer {
            Some(answer) => self.resume_with(answer),
            None => self.begin(),
        }
    }

    /// The first call.
    fn begin(&mut self) -> NextStep
        ensures refines { (names : List (List ℕ)) (m : List Answer → Progress) (answers : List Answer) → HasNotBegun self.old → answers ≡ [] → Refines self.old names m answers → AfterResume self.new names m answers result }
        ensures wants { ShowsNextStep self.new result }
    {
        match self.phase {
            Phase::Running => self.run_on(u64::MAX),
            Phase::GivingUp | Phase::Ended => self.give_up(),
        }
    }

    /// Takes the answer to the last request, and returns the next step.
    fn resume_with(&mut self, answer: Answer) -> NextStep
        ensures refines { (names : List (List ℕ)) (m : List Answer → Progress) (answers : List Answer) → IsWaiting self.old → Refines self.old names m answers → AfterResume self.new names m (answers ++ answer ∷ []) result }
        ensures given_up { (names : List (List ℕ)) (m : List Answer → Progress) (answers : List Answer) (pieces : List Piece) → HasGivenUp self.old names m answers pieces → (result ≡ NextStep.Ended ClientEnd.NoMemory) × HasWritten self.new names pieces }
        ensures fewer { IsPlain answer → IsWaiting self.old → most_operations self.new < most_operations self.old }
        ensures wants { ShowsNextStep self.new result }
        ensures gives_up { answer ≡ Answer.NoMemory → IsWaiting self.old → IsEnding self.new ⊎ IsEnded result }
        ensures ended { IsEnding self.old → IsEnded result }
    {
        match self.phase {
            Phase::Running => self.run_with(answer),
            Phase::GivingUp => {
                self.phase = Phase::Ended;
                NextStep::Ended(ClientEnd::NoMemory)
            }
            Phase::Ended => NextStep::Ended(ClientEnd::NoMemory),
        }
    }

    /// Takes the answer to the machine's last request, and returns the next step.
    fn run_with(&mut self, answer: Answer) -> NextStep
        requires running { self.old.phase ≡ Phase.Running }
        ensures refines { (names : List (List ℕ)) (m : List Answer → Progress) (answers : List Answer) → IsWaiting self.old → Refines self.old names m answers → AfterResume self.new names m (answers ++ answer ∷ []) result }
        ensures fewer { IsPlain answer → IsWaiting self.old → most_operations self.new < most_operations self.old }
        ensures wants { ShowsNextStep self.new result }
        ensures gives_up { answer ≡ Answer.NoMemory → IsWaiting self.old → IsEnding self.new ⊎ IsEnded result }
        ensures ended { IsEnding self.old → IsEnded result }
    {
        if !self.machine.is_awaiting() {
            self.phase = Phase::Ended;
            return NextStep::Ended(self.machine.end());
        }
        if is_no_memory(&answer) {
            return self.give_up();
        }
        let limit = limit_after(&answer, self.machine.units);
        match take_answer(&mut self.machine, answer) {
            Ok(()) => self.run_on(limit),
            Err(_) => self.give_up(),
        }
    }

    /// Steps the machine until it has a request. An operation costs a unit, so fewer than `limit`
    /// units are left when it requests one.
    fn run_on(&mut self, limit: u64) -> NextStep
        ensures follows { (names : List (List ℕ)) (m : List Answer → Progress) (from : List Piece) → self.old.phase ≡ Phase.Running → Follows m names from self.old.machine → RunsOn m names from self.new result }
        ensures fewer { self.old.phase ≡ Phase.Running → most_operations self.new < limit + 2 }
        ensures wants { self.old.phase ≡ Phase.Running → ShowsNextStep self.new result }
    {
        for _ in 0..u64::MAX {
            if !self.is_executing() {
                let wants = match self.machine.next_step() {
                    Ok(wants) => wants,
                    Err(_) => return self.give_up(),
                };
                if let Some(wants) = wants {
                    if self.asks_too_much(limit) {
                        return self.give_up();
                    }
                    if !self.may_ask(&wants) {
                        return self.give_up();
                    }
                    return wants;
                }
            }
            match step(&mut self.machine) {
                Ok(()) => {}
                Err(_) => return self.give_up(),
            }
        }
        self.give_up()
    }

    /// Whether the machine is about to execute a task. Then it has no request.
    fn is_executing(&self) -> bool {
        matches!(self.machine.mode, Mode::Execute(_))
    }

    /// Whether the machine awaits an operation with at least `limit` units left.
    fn asks_too_much(&self, limit: u64) -> bool
        ensures { result ≡ false → IsAwaiting self.now.machine.mode → self.now.machine.units < limit }
    {
        self.machine.is_awaiting() && self.machine.units >= limit
    }

    /// Whether it does not request End while the machine awaits an answer. A machine that refines its
    /// run never does (`IsAskedFor` of `client_machine`).
    fn may_ask(&self, wants: &NextStep) -> bool
        ensures { result ≡ true → AsksNoEnd self.now.machine.mode wants.now }
    {
        !(self.machine.is_awaiting() && is_end(wants))
    }

    /// The client is out of memory.
    fn give_up(&mut self) -> NextStep
        ensures asks { result ≡ NextStep.Ask Op.End }
        ensures new { self.new ≡ record self.old { phase = Phase.GivingUp } }
    {
        self.phase = Phase::GivingUp;
        NextStep::Ask(Op::End)
    }

    /// What it has written, the default output first.
    pub fn output(&self) -> &[Section]
        ensures { (names : List (List ℕ)) (pieces : List Piece) → HasWritten self.now names pieces → result.now ≡ sections_of names pieces }
    {
        &self.machine.output.sections
    }
}

/// Whether End is requested.
fn is_end(wants: &NextStep) -> bool
    ensures { result ≡ false → wants.now ≡ NextStep.Ask Op.End → ⊥ }
{
    matches!(wants, NextStep::Ask(Op::End))
}

/// Whether the database answered out of memory.
fn is_no_memory(answer: &Answer) -> bool
    ensures { result ≡ false → answer.now ≡ Answer.NoMemory → ⊥ }
{
    matches!(answer, Answer::NoMemory)
}

/// The limit for the next request: the units left, or no limit after Blocked, because repeating the
/// operation costs nothing.
fn limit_after(answer: &Answer, units: u64) -> u64
    ensures { IsPlain answer.now → result ≡ units }
{
    match answer {
        Answer::Blocked { .. } => u64::MAX,
        _ => units,
    }
}
