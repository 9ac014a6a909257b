//! How an iteration ends, and how a completion unwinds.

ghost use Rattle.std.specs.Prelude.{Bool, Option, ◌≡◌, ◌⊎◌, ◌∷◌, [], ℕ, List, None, Some, OnOk, OnErr, IfSome, true, false, reverse};
ghost use Rattle.database_protocol.specs.declared.answer.Answer.{Answer};
ghost use Rattle.database_protocol.specs.declared.operation.Op.{Op};
ghost use Rattle.database_protocol.specs.declared.next_step.NextStep.{NextStep};
ghost use Rattle.bound_tree.specs.Tree.{Body};
ghost use Rattle.block_meaning.specs.State.{State};
ghost use Rattle.block_meaning.specs.Program.{Program};
ghost use Rattle.block_meaning.specs.Meaning.{finished};
ghost use Rattle.flat_machine.specs.Flat.{means};
ghost use Rattle.flat_machine.specs.Works.{IsRunning};
ghost use Rattle.flat_machine.specs.Flat as flat;
ghost use Rattle.block_meaning.specs.State.{Copy, Done};
ghost use Rattle.block_meaning.specs.Blocks.{own_or_outer, after_iteration, iterates, acts, instead_of_retry};
ghost use Rattle.bound_tree.specs.Bound.{action_of};
ghost use Rattle.block_code.specs.declared.code.Instr.{Instr};
ghost use Rattle.client_machine.specs.declared.mode.StackEntry.{StackEntry};
ghost use Rattle.client_machine.specs.InstrClasses.{IsOfClass};
ghost use Rattle.client_machine.specs.Order.{CanReach, ClosesIteration, CompletesInOrder, InOrder, ModeInOrder, Nesting, first_in, outer_of};
ghost use Rattle.client_machine.specs.Config.{mode_of, entry_of, completion_of, turn_of, after_undo_of, instr_at, header_at, body_at};
ghost use Rattle.client_output.specs.Written.{IsUnchanged};
ghost use Rattle.client_machine.specs.Machine.{config_of, stack_in, state_in};
ghost use Rattle.client_machine.specs.AnswerClass.{IsOfAnswerClass, KeepsAnswer};
ghost use Rattle.client_machine.specs.declared.answers.AnswerClass.{AnswerClass};
ghost use Rattle.client_machine.specs.declared.mode.OnAnswer.{OnAnswer};
ghost use Rattle.client_machine.specs.Step.{Fits, KeepsRun, KeepsTask, KeepsCompletion, KeepsEntry, NextStepIs, IsAwaiting, IsAtEnd};
ghost use Rattle.client_machine.specs.declared.mode.Mode.{Mode};
ghost use Rattle.client_machine.specs.declared.mode.Task.{Task};
ghost use Rattle.client_machine.specs.declared.mode.Completion.{Completion};

use crate::machine::{Machine, mode_again, mode_then};
use crate::mode::ends::{EndEntry, EndTask};
use crate::mode::{
    AfterUndo, Completion, IterationData, Mode, OnAnswer, PassedLevels, StackEntry, Task, TurnData,
};
use abl_base::{Bytes, Value};
use block_code::Instr;
use bound_tree::{Action, BlockKind, Stmt};
use database_protocol::{Answer, ClientEnd, NextStep, Op, RowIds, StopWhy};
use std::alloc::{AllocError, Global};
use std::mem;

impl Machine {
    /// Ends an iteration whose body completed so.
    pub fn ends_with(
        &mut self,
        place: usize,
        iteration: IterationData,
        completion: Completion,
    ) -> Result<(), AllocError>
        ensures ok { OnOk result (KeepsTask (Task.EndsWith place iteration completion) self.old self.new) }
        ensures err { OnErr result (IsUnchanged self.old.output self.new.output) }
    {
        if closes_iteration(&completion) {
            return self.closes(place, iteration, completion);
        }
        match completion {
            Completion::Undoes {
                block,
                after_undo,
                retry,
                passed,
            } => {
                self.set_mode(Mode::Execute(Task::UndoComes {
                    place,
                    iteration,
                    block,
                    after_undo,
                    retry,
                    passed,
                }));
                Ok(())
            }
            Completion::Raises(passed) => self.error_comes(place, iteration, passed),
            Completion::EndKeys(passed) => self.endkey_comes(place, iteration, passed),
            Completion::Stops(why) => self.stop_iteration(place, iteration, why),
            Completion::Normal => Err(AllocError),
            Completion::Again(_turn) => Err(AllocError),
            Completion::Leaves(_block) => Err(AllocError),
            Completion::Nexts(_block) => Err(AllocError),
            Completion::Faults(_fault) => Err(AllocError),
            Completion::Found(_cursor) => Err(AllocError),
            Completion::Lost => Err(AllocError),
            Completion::NotFound => Err(AllocError),
            Completion::Returns(_error) => Err(AllocError),
        }
    }

    /// The client stops, whatever is on the stack.
    pub fn stop_iteration(
        &mut self,
        place: usize,
        iteration: IterationData,
        why: StopWhy,
    ) -> Result<(), AllocError>
        ensures ok { OnOk result (KeepsTask (Task.EndsWith place iteration (Completion.Stops why)) self.old self.new) }
        ensures err { OnErr result (IsUnchanged self.old.output self.new.output) }
    {
        self.set_mode(Mode::Unwind(Completion::Stops(why)));
        Ok(())
    }

    /// Closes an iteration: leaves its level, if it has one, and propagates the completion.
    pub fn closes(
        &mut self,
        place: usize,
        iteration: IterationData,
        completion: Completion,
    ) -> Result<(), AllocError>
        requires plain { ClosesIteration completion }
        ensures ok { OnOk result (KeepsTask (Task.EndsWith place iteration completion) self.old self.new) }
        ensures err { OnErr result (IsUnchanged self.old.output self.new.output) }
    {
        if !self.is_bufferless(place) {
            return self.closes_records(place, iteration, completion);
        }
        if self.memory.has_buffers() {
            return self.closes_records(place, iteration, completion);
        }
        let depth = iteration.depth;
        let completion = self.completion_after(place, iteration.turn, completion);
        match depth {
            None => self.set_mode(Mode::Unwind(completion)),
            Some(_) => {
                self.stack
                    .push(StackEntry::Then(Task::Completes(completion)))?;
                self.set_mode(Mode::Execute(Task::LeavesNow));
            }
        }
        Ok(())
    }

    /// The same where there are record buffers: pending records are inserted and buffers released
    /// first.
    fn closes_records(
        &mut self,
        place: usize,
        iteration: IterationData,
        completion: Completion,
    ) -> Result<(), AllocError>
        requires plain { ClosesIteration completion }
        ensures ok { OnOk result (KeepsTask (Task.EndsWith place iteration completion) self.old self.new) }
        ensures err { OnErr result (IsUnchanged self.old.output self.new.output) }
    {
        let depth = iteration.depth;
        self.stack.push(StackEntry::End(EndEntry::AfterClosing {
            place,
            iteration,
            completion,
        }))?;
        self.set_mode(Mode::Execute(Task::End(EndTask::Closing { place, depth })));
        Ok(())
    }

    /// The completion after an iteration of the block at the place that completed so.
    pub fn completion_after(
        &self,
        place: usize,
        turn: TurnData,
        completion: Completion,
    ) -> Completion
        ensures same { (code : List Instr) (cs : List Copy) (copy : Option Copy) → completion_of code cs result ≡ after_iteration (header_at self.now.code.instrs.items place) (record { copy = copy; turn = turn_of turn }) (completion_of code cs completion) }
        ensures plain { first_in completion ≡ None → first_in result ≡ None }
    {
        match completion {
            Completion::Normal => {
                if self.iterates_at(place) {
                    Completion::Again(TurnData {
                        retry: false,
                        start: turn.start,
                        by: turn.by,
                        own: turn.own,
                    })
                } else {
                    Completion::Normal
                }
            }
            Completion::Leaves(block) => {
                if block == self.number_at(place) {
                    Completion::Normal
                } else {
                    Completion::Leaves(block)
                }
            }
            Completion::Nexts(block) => {
                if block == self.number_at(place) {
                    Completion::Again(TurnData {
                        retry: false,
                        start: turn.start,
                        by: turn.by,
                        own: turn.own,
                    })
                } else {
                    Completion::Nexts(block)
                }
            }
            _ => completion,
        }
    }

    /// Completes so.
    pub fn completes_with(&mut self, completion: Completion) -> Result<(), AllocError>
        ensures ok { OnOk result (KeepsTask (Task.Completes completion) self.old self.new) }
        ensures err { OnErr result (IsUnchanged self.old.output self.new.output) }
    {
        self.set_mode(Mode::Unwind(completion));
        Ok(())
    }

    /// The completion reaches the entry, which was the innermost one. The end of a RUN is taken by
    /// the layer above.
    pub fn unwind_to(&mut self, entry: StackEntry, completion: Completion) -> Result<(), AllocError>
        ensures ok { OnOk result (KeepsEntry entry completion self.old self.new) }
        ensures err { OnErr result (IsUnchanged self.old.output self.new.output) }
    {
        match entry {
            StackEntry::Then(task) => self.then_executes(task, completion),
            StackEntry::Handles(quiet) => self.handles(quiet, completion),
            StackEntry::In { place, iteration } => self.ends_iteration(
                place, iteration, completion,
            ),
            StackEntry::AndAgain {
                fuel,
                place,
                outer,
                left,
            } => self.again(fuel, place, outer, left, completion),
            _ => {
                drop(entry);
                drop(completion);
                Err(AllocError)
            }
        }
    }

    /// A task follows a normal completion. No other one but a stop comes while a level is left.
    fn then_executes(&mut self, task: Task, completion: Completion) -> Result<(), AllocError>
        ensures ok { OnOk result (KeepsEntry (StackEntry.Then task) completion self.old self.new) }
        ensures err { OnErr result (IsUnchanged self.old.output self.new.output) }
    {
        if !can_reach(&task, &completion) {
            drop(task);
            drop(completion);
            return Err(AllocError);
        }
        let mode = mode_then(task, completion);
        self.set_mode(mode);
        Ok(())
    }

    /// The body of an iteration has completed.
    fn ends_iteration(
        &mut self,
        place: usize,
        iteration: IterationData,
        completion: Completion,
    ) -> Result<(), AllocError>
        ensures ok { OnOk result (KeepsEntry (StackEntry.In place iteration) completion self.old self.new) }
        ensures err { OnErr result (IsUnchanged self.old.output self.new.output) }
    {
        self.set_mode(Mode::Execute(Task::EndsWith {
            place,
            iteration,
            completion,
        }));
        Ok(())
    }

    /// An iteration has completed, and another one may follow.
    fn again(
        &mut self,
        fuel: u64,
        place: usize,
        outer: bool,
        left: u32,
        completion: Completion,
    ) -> Result<(), AllocError>
        ensures ok { OnOk result (KeepsEntry (StackEntry.AndAgain fuel place outer left) completion self.old self.new) }
        ensures err { OnErr result (IsUnchanged self.old.output self.new.output) }
    {
        let mode = mode_again(fuel, place, outer, left, completion);
        self.set_mode(mode);
        Ok(())
    }
}

/// Whether the completion may reach the task: where that leaves a level it is normal, or a stop.
fn can_reach(task: &Task, completion: &Completion) -> bool
    ensures { result ≡ true → CanReach task.now completion.now }
{
    match task {
        Task::End(EndTask::LeavesNow(_)) => matches!(
            completion,
            Completion::Normal | Completion::Stops(_)
        ),
        _ => true,
    }
}

/// Whether the completion is none of UNDO, ERROR and a stop.
fn closes_iteration(completion: &Completion) -> bool
    ensures { result ≡ true → ClosesIteration completion.now }
{
    matches!(
        completion,
        Completion::Normal
            | Completion::Again(_)
            | Completion::Leaves(_)
            | Completion::Nexts(_)
            | Completion::Faults(_)
            | Completion::Returns(_)
    )
}
