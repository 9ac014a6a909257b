//! What the machine does from one operation to the next.

ghost use Rattle.std.specs.Prelude.{Bool, Option, ◌≡◌, ◌⊎◌, ◌∷◌, [], ℕ, List, None, Some, OnOk, OnErr, IfOk, Ok, IfSome, true, false, reverse};
ghost use Rattle.database_protocol.specs.declared.answer.Answer.{Answer};
ghost use Rattle.database_protocol.specs.declared.operation.Op.{Op};
ghost use Rattle.database_protocol.specs.declared.next_step.NextStep.{NextStep};
ghost use Rattle.bound_tree.specs.Tree.{Body};
ghost use Rattle.block_meaning.specs.State.{State};
ghost use Rattle.block_meaning.specs.Program.{Program};
ghost use Rattle.block_meaning.specs.Meaning.{finished};
ghost use Rattle.flat_machine.specs.Flat.{means};
ghost use Rattle.flat_machine.specs.Works.{IsRunning};
ghost use Rattle.flat_machine.specs.Flat as flat;
ghost use Rattle.block_meaning.specs.State.{Copy, Done};
ghost use Rattle.block_meaning.specs.Blocks.{own_or_outer, after_iteration, iterates, acts, instead_of_retry};
ghost use Rattle.bound_tree.specs.Bound.{action_of};
ghost use Rattle.block_code.specs.declared.code.Instr.{Instr};
ghost use Rattle.client_machine.specs.declared.mode.StackEntry.{StackEntry};
ghost use Rattle.client_machine.specs.InstrClasses.{IsOfClass};
ghost use Rattle.client_machine.specs.Order.{outer_of, ClosesIteration, InOrder, Named, first_in, ModeInOrder};
ghost use Rattle.client_machine.specs.Config.{mode_of, entry_of, completion_of, turn_of, after_undo_of, instr_at, header_at, body_at};
ghost use Rattle.client_output.specs.Written.{IsUnchanged};
ghost use Rattle.client_machine.specs.Machine.{config_of, stack_in, state_in};
ghost use Rattle.client_machine.specs.AnswerClass.{IsOfAnswerClass, KeepsAnswer};
ghost use Rattle.client_machine.specs.declared.answers.AnswerClass.{AnswerClass};
ghost use Rattle.client_machine.specs.declared.mode.OnAnswer.{OnAnswer};
ghost use Rattle.client_machine.specs.Shows.{Shows};
ghost use Rattle.client_machine.specs.Step.{Fits, KeepsRun, KeepsTask, KeepsCompletion, NextStepIs, AsksOpenLevels, IsAwaiting, IsAtEnd};
ghost use Rattle.client_machine.specs.declared.mode.Mode.{Mode};
ghost use Rattle.client_machine.specs.declared.mode.Task.{Task};
ghost use Rattle.client_machine.specs.declared.mode.Completion.{Completion};

use crate::machine::{Machine, mode_again, mode_then};
use crate::mode::{
    AfterUndo, Completion, IterationData, Mode, OnAnswer, PassedLevels, StackEntry, Task, TurnData,
};
use abl_base::{Bytes, Value};
use block_code::Instr;
use bound_tree::{Action, BlockKind, Stmt};
use database_protocol::{Answer, ClientEnd, NextStep, Op, RowIds, StopWhy};
use std::alloc::{AllocError, Global};
use std::mem;

impl Machine {
    /// What it asks for, where it does not run by itself. Out of memory is the only error.
    pub fn next_step(&self) -> Result<Option<NextStep>, AllocError>
        ensures some { IfOk result (λ step. IfSome step (λ wants. NextStepIs wants self.now)) }
        ensures none { result ≡ Ok None → IsRunning (mode_of self.now.code.instrs.items self.now.memory.copies self.now.mode) }
        ensures waits { IfOk result (λ step. IfSome step (λ _. IsAwaiting self.now.mode ⊎ IsAtEnd self.now)) }
        ensures levels { IfOk result (λ step. IfSome step (λ wants. AsksOpenLevels wants self.now)) }
        ensures shows { IfOk result (λ step. IfSome step (λ wants. Shows self.now.mode self.now.stack.items wants)) }
    {
        match &self.mode {
            Mode::Execute(_) => Ok(None),
            Mode::Unwind(_) => {
                if self.stack.is_empty() {
                    Ok(Some(NextStep::Ask(Op::End)))
                } else {
                    Ok(None)
                }
            }
            Mode::Await { op, .. } => {
                let op = op.copy()?;
                Ok(Some(NextStep::Ask(op)))
            }
        }
    }

    /// Whether it awaits an answer.
    pub fn is_awaiting(&self) -> bool
        ensures yes { result ≡ true → IsAwaiting self.now.mode }
        ensures no { result ≡ false → IsAwaiting self.now.mode → ⊥ }
    {
        matches!(self.mode, Mode::Await { .. })
    }

    /// Executes a task. A RUN is executed by the layer above.
    pub fn execute(&mut self, task: Task) -> Result<(), AllocError>
        ensures ok { OnOk result (KeepsTask task self.old self.new) }
        ensures err { OnErr result (IsUnchanged self.old.output self.new.output) }
    {
        match task {
            Task::Blocks { place, outer, left } => self.open_header(place, outer, left),
            Task::Turns {
                fuel,
                place,
                outer,
                left,
                turn,
            } => self.turns(fuel, place, outer, left, turn),
            Task::Iterates {
                place,
                outer,
                left,
                turn,
            } => self.iterates(place, outer, left, turn),
            Task::EntersLevel {
                place,
                turn,
                retry,
                left,
            } => self.enters_level(place, turn, retry, left),
            Task::Begins {
                place,
                depth,
                turn,
                retry,
                left,
            } => self.begins(place, depth, turn, retry, left),
            Task::GoesBack(depth) => self.goes_back(depth),
            Task::LeavesNow => self.leaves_now(),
            Task::Completes(completion) => self.completes_with(completion),
            Task::RunsFrom { place, left, retry } => self.run_from(place, left, retry),
            Task::UndoComes {
                place,
                iteration,
                block,
                after_undo,
                retry,
                passed,
            } => self.undo_comes(place, iteration, block, after_undo, retry, passed),
            Task::EndsWith {
                place,
                iteration,
                completion,
            } => self.ends_with(place, iteration, completion),
            Task::Acts {
                place,
                turn,
                after_undo,
                retry,
            } => self.act(place, turn, after_undo, retry),
            Task::Calls { .. } => Err(AllocError),
            Task::End(_) => Err(AllocError),
            Task::Read(_) => Err(AllocError),
            Task::Change(_) => Err(AllocError),
        }
    }

    /// How the client ends.
    pub fn end(&mut self) -> ClientEnd
        ensures ends { IsAtEnd self.old → (tree : ℕ → Body) (p : Program) (rest : State) → Fits p rest self.old → (a : Answer) (ans : List Answer) → finished (means tree p (config_of rest self.old) (a ∷ ans)) ≡ record { written = rest.written; wants = NextStep.Ended result } }
        ensures sections { IsUnchanged self.old.output self.new.output }
    {
        match &self.mode {
            Mode::Unwind(Completion::Returns(true)) => {
                let empty = Bytes::empty(self.alloc);
                ClientEnd::Error(mem::replace(&mut self.returned, empty))
            }
            Mode::Unwind(Completion::Returns(false)) => ClientEnd::Returned,
            Mode::Unwind(Completion::Stops(why)) => ClientEnd::Stop(*why),
            _ => ClientEnd::Normal,
        }
    }
}
