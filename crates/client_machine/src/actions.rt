//! What follows an UNDO: RETRY, LEAVE, NEXT or RETURN. The expression of a RETURN stays in the code:
//! an action names the place of its instruction, and where it stands there.

ghost use Rattle.std.specs.Prelude.{Bool, Option, ◌≡◌, [], ℕ, List, None, Some, OnOk, OnErr, IfOk, MatchOption, true};
ghost use Rattle.database_protocol.specs.declared.answer.Answer.{Answer};
ghost use Rattle.block_meaning.specs.State.{State, Copy, Done};
ghost use Rattle.block_meaning.specs.Program.{Program};
ghost use Rattle.block_meaning.specs.Blocks.{acts, instead_of_retry, text_to_return};
ghost use Rattle.bound_tree.specs.Bound.{action_of, expr_of, on_of};
ghost use Rattle.evaluator.specs.Forms.{AreForms};
ghost use Rattle.block_code.specs.declared.code.Instr.{Instr};
ghost use Rattle.block_code.specs.Code.{instr_of};
ghost use Rattle.client_output.specs.Written.{IsUnchanged};
ghost use Rattle.client_machine.specs.Actions.{value_in, value_on, returned_in, action_in};
ghost use Rattle.client_machine.specs.Undone.{after_action};
ghost use Rattle.flat_machine.specs.Flat as flat;
ghost use Rattle.client_machine.specs.Order.{ClosesIteration, InOrder, ModeInOrder, Nesting, first_in};
ghost use Rattle.client_machine.specs.Config.{completion_of, turn_of, iteration_without, mode_of, after_undo_of, instr_at, header_at, AreEven};
ghost use Rattle.client_machine.specs.Machine.{state_in};
ghost use Rattle.client_machine.specs.Step.{KeepsTask};
ghost use Rattle.client_machine.specs.declared.mode.Task.{Task};
ghost use Rattle.client_machine.specs.declared.mode.Mode.{Mode};
ghost use Rattle.client_machine.specs.declared.mode.Completion.{Completion};
ghost use Rattle.client_machine.specs.declared.mode.StackEntry.{StackEntry};
ghost use Rattle.client_machine.specs.declared.mode.ends.EndTask.{EndTask};
ghost use Rattle.client_machine.specs.declared.mode.ReturnSource.{ReturnSource};

use crate::machine::Machine;
use crate::mode::ends::EndTask;
use crate::mode::{AfterUndo, Completion, Mode, ReturnSource, Task, TurnData};
use abl_base::Bytes;
use block_code::Instr;
use bound_tree::{Action, Expr, OnPhrase, Stmt};
use evaluator::EvalFault;
use std::alloc::AllocError;
use value_masks::plain;

/// The block that a condition undoes, and what happens then.
#[derive(Clone, Copy, Debug)]
pub struct OnCondition {
    pub block: u32,
    pub after_undo: AfterUndo,
}

impl Machine {
    /// Does what follows an UNDO, once the block at the place is undone.
    pub fn act(
        &mut self,
        place: usize,
        turn: TurnData,
        after_undo: AfterUndo,
        retry: bool,
    ) -> Result<(), AllocError>
        ensures ok { OnOk result (KeepsTask (Task.Acts place turn after_undo retry) self.old self.new) }
        ensures err { OnErr result (IsUnchanged self.old.output self.new.output) }
    {
        self.set_returned(after_undo, retry)?;
        if !self.is_bufferless(place) {
            let mode = self.mode_undone(place, turn, after_undo);
            self.set_mode(mode);
            return Ok(());
        }
        let completion = self.completion_undone(place, turn, after_undo);
        self.set_mode(Mode::Unwind(completion));
        Ok(())
    }

    /// Sets RETURN-VALUE where the action is RETURN.
    fn set_returned(&mut self, after_undo: AfterUndo, retry: bool) -> Result<(), AllocError>
        ensures moved { OnOk result (self.new ≡ record self.old { returned = self.new.returned }) }
        ensures err { OnErr result (self.new ≡ self.old) }
        ensures ok { OnOk result (AreEven self.old.procedures.items self.old.memory → (rest : State) (p : Program) → AreForms p.forms → rest.status ≡ self.old.status → rest.returned ≡ self.old.returned
            → after_action p (after_undo_of self.old.code.instrs.items after_undo) retry (state_in rest self.old) ≡ state_in (record rest { returned = self.new.returned }) self.old) }
    {
        match after_undo {
            AfterUndo::Return { place, source, .. } => {
                let text = self.text_to_return(place, source, retry)?;
                self.set_return_value(text);
                Ok(())
            }
            AfterUndo::Retry | AfterUndo::Leave(_) | AfterUndo::Next(_) | AfterUndo::Error => Ok(
                (),
            ),
        }
    }

    /// Sets RETURN-VALUE.
    pub fn set_return_value(&mut self, text: Bytes)
        ensures { self.new ≡ record self.old { returned = text } }
    {
        self.returned = text;
    }

    /// The text of a RETURN; empty where it has no expression, or one that fails.
    pub fn text_to_return(
        &self,
        place: usize,
        source: ReturnSource,
        retry: bool,
    ) -> Result<Bytes, AllocError>
        ensures { AreEven self.now.procedures.items self.now.memory → IfOk result (λ text. (rest : State) (p : Program) → AreForms p.forms → rest.status ≡ self.now.status → rest.returned ≡ self.now.returned
            → text_to_return p (returned_in source (instr_at self.now.code.instrs.items place)) retry (state_in rest self.now) ≡ text) }
    {
        let Some(expression) = self.expression_at(place, source) else {
            return Ok(Bytes::empty(self.alloc));
        };
        match self.value_of(self.alloc, expression, retry) {
            Ok(value) => plain(self.alloc, &value),
            Err(EvalFault::Fault(_)) => Ok(Bytes::empty(self.alloc)),
            Err(EvalFault::NoMemory) => Err(AllocError),
        }
    }

    /// The expression of a RETURN.
    fn expression_at(&self, place: usize, source: ReturnSource) -> Option<&Expr>
        ensures { MatchOption result (returned_in source (instr_at self.now.code.instrs.items place) ≡ None)
            (λ e. returned_in source (instr_at self.now.code.instrs.items place) ≡ Some (expr_of e.now)) }
    {
        let instr = self.code.instrs.get(place)?;
        match source {
            ReturnSource::Statement => statement_value(instr),
            ReturnSource::Undo => undo_value(instr),
            ReturnSource::OnError => error_value(instr),
            ReturnSource::OnEndKey => endkey_value(instr),
        }
    }

    /// The action of the statement UNDO at the place.
    pub fn undo_action_at(&self, place: usize) -> AfterUndo
        ensures { after_undo_of self.now.code.instrs.items result ≡ action_in (instr_at self.now.code.instrs.items place) }
    {
        match self.code.instrs.get(place) {
            Some(instr) => undo_action(instr, place),
            None => AfterUndo::Retry,
        }
    }

    /// What follows an UNDO of the block at the place, whose buffers are released then.
    fn mode_undone(&self, place: usize, turn: TurnData, after_undo: AfterUndo) -> Mode
        ensures same { (cs : List Copy) (p : Program) (retry : Bool) (ks : List flat.StackEntry) (s : State) → flat.config (mode_of self.now.code.instrs.items cs result) ks (after_action p (after_undo_of self.now.code.instrs.items after_undo) retry s) ≡ flat.act_step p (after_undo_of self.now.code.instrs.items after_undo) (header_at self.now.code.instrs.items place) (iteration_without turn) retry ks s }
        ensures order { (n : Nesting) (ks : List StackEntry) → InOrder n ks → ModeInOrder n result ks }
    {
        match after_undo {
            AfterUndo::Retry => {
                if self.names_retry(place) {
                    again_mode(turn)
                } else {
                    let number = self.number_at(place);
                    let completion = instead_of_retry_at(self.iterates_at(place), number);
                    closes_mode(place, turn, completion)
                }
            }
            AfterUndo::Leave(block) => closes_mode(place, turn, Completion::Leaves(block)),
            AfterUndo::Next(block) => closes_mode(place, turn, Completion::Nexts(block)),
            AfterUndo::Return { error, .. } => closes_mode(place, turn, Completion::Returns(error)),
            AfterUndo::Error => closes_mode(place, turn, Completion::Returns(true)),
        }
    }

    /// The completion of the block after it was undone.
    pub fn completion_undone(
        &self,
        place: usize,
        turn: TurnData,
        after_undo: AfterUndo,
    ) -> Completion
        ensures same { (cs : List Copy) (p : Program) (copy : Option Copy) (retry : Bool) (s : State) (ans : List Answer) → (header_at self.now.code.instrs.items place).scoped ≡ []
            → acts p (header_at self.now.code.instrs.items place) (record { copy = copy; turn = turn_of turn }) (after_undo_of self.now.code.instrs.items after_undo) retry s ans
            ≡ Done (completion_of self.now.code.instrs.items cs result) (after_action p (after_undo_of self.now.code.instrs.items after_undo) retry s) ans }
        ensures plain { first_in result ≡ None }
    {
        match after_undo {
            AfterUndo::Retry => {
                if self.names_retry(place) {
                    Completion::Again(TurnData {
                        retry: true,
                        start: turn.start,
                        by: turn.by,
                        own: turn.own,
                    })
                } else {
                    let number = self.number_at(place);
                    let completion = instead_of_retry_at(self.iterates_at(place), number);
                    self.completion_after(place, turn, completion)
                }
            }
            AfterUndo::Leave(block) => self.completion_after(
                place,
                turn,
                Completion::Leaves(block),
            ),
            AfterUndo::Next(block) => self.completion_after(place, turn, Completion::Nexts(block)),
            AfterUndo::Return { error, .. } => Completion::Returns(error),
            AfterUndo::Error => Completion::Returns(true),
        }
    }
}

/// A retry with the data of the iteration.
fn again_mode(turn: TurnData) -> Mode
    ensures { result ≡ Mode.Unwind (Completion.Again (record turn { retry = true })) }
{
    Mode::Unwind(Completion::Again(TurnData {
        retry: true,
        start: turn.start,
        by: turn.by,
        own: turn.own,
    }))
}

/// The buffers of the undone iteration are released, and it ends.
fn closes_mode(place: usize, turn: TurnData, completion: Completion) -> Mode
    ensures { result ≡ Mode.Execute (Task.End (EndTask.Closes place turn completion)) }
{
    Mode::Execute(Task::End(EndTask::Closes {
        place,
        turn,
        completion,
    }))
}

/// What happens after a block was undone, by an action that stands there.
pub fn after_undo_at(action: &Action, place: usize, source: ReturnSource) -> AfterUndo
    ensures { (code : List Instr) → returned_in source (instr_at code place) ≡ value_in (action_of action.now) → after_undo_of code result ≡ action_of action.now }
{
    match action {
        Action::Retry => AfterUndo::Retry,
        Action::Leave(block) => AfterUndo::Leave(*block),
        Action::Next(block) => AfterUndo::Next(*block),
        Action::Return { error, .. } => AfterUndo::Return {
            error: *error,
            place,
            source,
        },
    }
}

/// The action of a statement UNDO that stands there.
fn undo_action(instr: &Instr, place: usize) -> AfterUndo
    ensures { (code : List Instr) → instr_at code place ≡ instr_of instr.now → after_undo_of code result ≡ action_in (instr_of instr.now) }
{
    match instr {
        Instr::Simple {
            stmt: Stmt::Undo { action, .. },
            ..
        } => after_undo_at(action, place, ReturnSource::Undo),
        _ => AfterUndo::Retry,
    }
}

/// The expression of RETURN in an action.
fn action_value(action: &Action) -> Option<&Expr>
    ensures { MatchOption result (value_in (action_of action.now) ≡ None) (λ e. value_in (action_of action.now) ≡ Some (expr_of e.now)) }
{
    match action {
        Action::Return { value, .. } => value.as_ref(),
        Action::Retry | Action::Leave(_) | Action::Next(_) => None,
    }
}

/// In an ON phrase.
fn on_value(on: &Option<OnPhrase>) -> Option<&Expr>
    ensures { MatchOption result (value_on (on_of on.now) ≡ None) (λ e. value_on (on_of on.now) ≡ Some (expr_of e.now)) }
{
    match on {
        Some(on) => action_value(&on.action),
        None => None,
    }
}

/// In a statement RETURN or RETURN ERROR.
fn statement_value(instr: &Instr) -> Option<&Expr>
    ensures { MatchOption result (returned_in ReturnSource.Statement (instr_of instr.now) ≡ None) (λ e. returned_in ReturnSource.Statement (instr_of instr.now) ≡ Some (expr_of e.now)) }
{
    match instr {
        Instr::Simple {
            stmt: Stmt::Return(value),
            ..
        } => value.as_ref(),
        Instr::Simple {
            stmt: Stmt::ReturnError { value, .. },
            ..
        } => value.as_ref(),
        _ => None,
    }
}

/// In a statement UNDO.
fn undo_value(instr: &Instr) -> Option<&Expr>
    ensures { MatchOption result (returned_in ReturnSource.Undo (instr_of instr.now) ≡ None) (λ e. returned_in ReturnSource.Undo (instr_of instr.now) ≡ Some (expr_of e.now)) }
{
    match instr {
        Instr::Simple {
            stmt: Stmt::Undo { action, .. },
            ..
        } => action_value(action),
        _ => None,
    }
}

/// In ON ERROR.
fn error_value(instr: &Instr) -> Option<&Expr>
    ensures { MatchOption result (returned_in ReturnSource.OnError (instr_of instr.now) ≡ None) (λ e. returned_in ReturnSource.OnError (instr_of instr.now) ≡ Some (expr_of e.now)) }
{
    match instr {
        Instr::Block { header, .. } => on_value(&header.on_error),
        _ => None,
    }
}

/// In ON ENDKEY.
fn endkey_value(instr: &Instr) -> Option<&Expr>
    ensures { MatchOption result (returned_in ReturnSource.OnEndKey (instr_of instr.now) ≡ None) (λ e. returned_in ReturnSource.OnEndKey (instr_of instr.now) ≡ Some (expr_of e.now)) }
{
    match instr {
        Instr::Block { header, .. } => on_value(&header.on_endkey),
        _ => None,
    }
}

/// The completion in place of RETRY of a block that does not name it.
fn instead_of_retry_at(iterates: bool, number: u32) -> Completion
    ensures same { (code : List Instr) (cs : List Copy) → completion_of code cs result ≡ instead_of_retry iterates number }
    ensures plain { first_in result ≡ None }
    ensures is_simple { ClosesIteration result }
{
    if iterates {
        Completion::Nexts(number)
    } else {
        Completion::Leaves(number)
    }
}
