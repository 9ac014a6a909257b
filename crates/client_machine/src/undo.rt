//! UNDO.

ghost use Rattle.std.specs.Prelude.{Bool, Option, ◌≡◌, ◌⊎◌, ◌∷◌, [], ℕ, List, None, Some, OnOk, OnErr, IfOk, IfSome, ◌++◌, true, false, reverse};
ghost use Rattle.database_protocol.specs.declared.answer.Answer.{Answer};
ghost use Rattle.database_protocol.specs.declared.operation.Op.{Op};
ghost use Rattle.database_protocol.specs.declared.next_step.NextStep.{NextStep};
ghost use Rattle.bound_tree.specs.Tree.{Body};
ghost use Rattle.block_meaning.specs.State.{State};
ghost use Rattle.block_meaning.specs.Program.{Program};
ghost use Rattle.block_meaning.specs.Meaning.{finished};
ghost use Rattle.flat_machine.specs.Flat.{means};
ghost use Rattle.flat_machine.specs.Works.{IsRunning};
ghost use Rattle.flat_machine.specs.Flat as flat;
ghost use Rattle.block_meaning.specs.State.{Copy, Done};
ghost use Rattle.block_meaning.specs.Blocks.{own_or_outer, after_iteration, iterates, acts, instead_of_retry};
ghost use Rattle.bound_tree.specs.Bound.{action_of};
ghost use Rattle.block_code.specs.declared.code.Instr.{Instr};
ghost use Rattle.client_machine.specs.declared.mode.StackEntry.{StackEntry};
ghost use Rattle.client_machine.specs.InstrClasses.{IsOfClass};
ghost use Rattle.client_machine.specs.Order.{outer_of, ClosesIteration, InOrder, Named, Nesting, first_in, ModeInOrder, TaskInOrder};
ghost use Rattle.client_machine.specs.Config.{mode_of, entry_of, completion_of, copy_in, task_of, buffers_of, turn_of, after_undo_of, instr_at, header_at, body_at};
ghost use Rattle.client_output.specs.Written.{IsUnchanged};
ghost use Rattle.client_machine.specs.Machine.{config_of, stack_in, state_in};
ghost use Rattle.client_machine.specs.AnswerClass.{IsOfAnswerClass, KeepsAnswer};
ghost use Rattle.client_machine.specs.declared.answers.AnswerClass.{AnswerClass};
ghost use Rattle.client_machine.specs.declared.mode.OnAnswer.{OnAnswer};
ghost use Rattle.client_machine.specs.Step.{Fits, KeepsRun, KeepsTask, KeepsCompletion, NextStepIs, IsAwaiting, IsAtEnd};
ghost use Rattle.client_machine.specs.declared.mode.Mode.{Mode};
ghost use Rattle.client_machine.specs.declared.mode.Task.{Task};
ghost use Rattle.client_machine.specs.declared.mode.Completion.{Completion};

use crate::machine::{Machine, mode_again, mode_then};
use crate::mode::ends::{BufferList, EndTask};
use crate::mode::{
    AfterUndo, Completion, IterationData, Mode, OnAnswer, PassedLevels, StackEntry, Task, TurnData,
};
use abl_base::{Bytes, Items, Value};
use block_code::Instr;
use bound_tree::{Action, BlockKind, Stmt};
use database_protocol::{Answer, ClientEnd, NextStep, Op, RowIds, StopWhy};
use std::alloc::{AllocError, Global};
use std::mem;

impl Machine {
    /// An UNDO arrives at an iteration: its block is reached, or the iteration is passed.
    pub fn undo_comes(
        &mut self,
        place: usize,
        iteration: IterationData,
        block: u32,
        after_undo: AfterUndo,
        retry: bool,
        passed: PassedLevels,
    ) -> Result<(), AllocError>
        ensures ok { OnOk result (KeepsTask (Task.UndoComes place iteration block after_undo retry passed) self.old self.new) }
        ensures err { OnErr result (IsUnchanged self.old.output self.new.output) }
    {
        if block == self.number_at(place) {
            return self.undo_reached(place, iteration, block, after_undo, retry, passed);
        }
        if self.memory.depth() == 0 {
            return self.ends_passed(
                place,
                Completion::Undoes {
                    block,
                    after_undo,
                    retry,
                    passed,
                },
            );
        }
        let passed = self.passed_with(place, iteration.depth, passed)?;
        self.set_mode(Mode::Unwind(Completion::Undoes {
            block,
            after_undo,
            retry,
            passed,
        }));
        Ok(())
    }

    /// An UNDO of the block at the place arrives at its iteration.
    fn undo_reached(
        &mut self,
        place: usize,
        iteration: IterationData,
        block: u32,
        after_undo: AfterUndo,
        retry: bool,
        passed: PassedLevels,
    ) -> Result<(), AllocError>
        requires reached { block ≡ (header_at self.old.code.instrs.items place).number }
        ensures ok { OnOk result (KeepsTask (Task.UndoComes place iteration block after_undo retry passed) self.old self.new) }
        ensures err { OnErr result (IsUnchanged self.old.output self.new.output) }
    {
        let passed = self.passed_with(place, iteration.depth, passed)?;
        self.stack.push(StackEntry::Then(Task::Acts {
            place,
            turn: iteration.turn,
            after_undo,
            retry,
        }))?;
        let task = back_task(passed);
        self.set_mode(Mode::Execute(task));
        Ok(())
    }

    /// With no level open the iteration of the block at the place ends, and its buffers are released.
    pub fn ends_passed(&mut self, place: usize, completion: Completion) -> Result<(), AllocError>
        ensures moved { OnOk result (self.new ≡ record self.old { mode = self.new.mode; stack = self.new.stack }) }
        ensures order { OnOk result ((n : Nesting) → first_in completion ≡ None → InOrder n (reverse self.old.stack.items) → ModeInOrder n self.new.mode (reverse self.new.stack.items)) }
        ensures same { OnOk result ((tree : ℕ → Body) (p : Program) (rest : State) (ans : List Answer) → means tree p (config_of rest self.new) ans ≡ means tree p (flat.config (flat.Execute (flat.Releases (header_at self.old.code.instrs.items place).scoped)) (flat.ThenDo (flat.Completes (completion_of self.old.code.instrs.items self.old.memory.copies completion)) ∷ stack_in self.old) (state_in rest self.old)) ans) }
        ensures err { OnErr result (IsUnchanged self.old.output self.new.output) }
    {
        if self.is_bufferless(place) {
            self.set_mode(Mode::Unwind(completion));
            return Ok(());
        }
        self.stack
            .push(StackEntry::Then(Task::Completes(completion)))?;
        self.set_mode(Mode::Execute(Task::End(EndTask::Releases { place, from: 0 })));
        Ok(())
    }

    /// What an unwinding has passed once it leaves an iteration of the block at the place, of this
    /// level, too.
    pub fn passed_with(
        &self,
        place: usize,
        depth: Option<u32>,
        passed: PassedLevels,
    ) -> Result<PassedLevels, AllocError>
        ensures first { IfOk result (λ x. x.first ≡ outer_of depth passed.first) }
        ensures buffers { IfOk result (λ x. buffers_of self.now.code.instrs.items x.buffers ≡ (header_at self.now.code.instrs.items place).scoped ++ buffers_of self.now.code.instrs.items passed.buffers) }
    {
        let buffers = self.with_scoped(place, passed.buffers)?;
        Ok(PassedLevels {
            first: outer(depth, passed.first),
            buffers,
        })
    }

    /// The buffers scoped to the block at the place, and those of the list.
    fn with_scoped(&self, place: usize, inner: BufferList) -> Result<BufferList, AllocError>
        ensures { IfOk result (λ all. buffers_of self.now.code.instrs.items all ≡ (header_at self.now.code.instrs.items place).scoped ++ buffers_of self.now.code.instrs.items inner) }
    {
        if self.is_bufferless(place) {
            return Ok(inner);
        }
        match inner {
            BufferList::None => Ok(BufferList::Scoped(place)),
            BufferList::Scoped(block) => self.joined(place, self.scoped_at(block)),
            BufferList::These(buffers) => self.joined(place, buffers.as_slice()),
        }
    }

    /// The buffers scoped to the block at the place, and others.
    fn joined(&self, place: usize, others: &[u32]) -> Result<BufferList, AllocError>
        ensures { IfOk result (λ all. buffers_of self.now.code.instrs.items all ≡ (header_at self.now.code.instrs.items place).scoped ++ others.now) }
    {
        let mut all = Vec::from_slice(self.alloc, self.scoped_at(place))?;
        all.extend_from_slice(others)?;
        Ok(BufferList::These(Items::from_vec(all)))
    }

    /// The buffers scoped to the block at the place.
    pub fn scoped_at(&self, place: usize) -> &[u32]
        ensures { result.now ≡ (header_at self.now.code.instrs.items place).scoped }
    {
        match self.code.instrs.get(place) {
            Some(Instr::Block { header, .. }) => header.scoped.as_slice(),
            _ => &[],
        }
    }

    /// Whether no buffer is scoped to the block at the place.
    pub fn is_bufferless(&self, place: usize) -> bool
        ensures { result ≡ true → (header_at self.now.code.instrs.items place).scoped ≡ [] }
    {
        match self.code.instrs.get(place) {
            Some(Instr::Block { header, .. }) => header.scoped.is_empty(),
            _ => true,
        }
    }

    /// Asks for Back, where there is a level to go back to.
    pub fn goes_back(&mut self, depth: Option<u32>) -> Result<(), AllocError>
        ensures ok { OnOk result (KeepsTask (Task.GoesBack depth) self.old self.new) }
        ensures err { OnErr result (IsUnchanged self.old.output self.new.output) }
    {
        match depth {
            None => self.set_mode(Mode::Unwind(Completion::Normal)),
            Some(depth) => self.ask(Op::Back { depth }, OnAnswer::WasBack(depth)),
        }
        Ok(())
    }
}

/// Goes back to the outermost level that an unwinding has passed, if there is one.
fn back_task(passed: PassedLevels) -> Task
    ensures same { (code : List Instr) (cs : List Copy) → task_of code cs result ≡ flat.GoesBack (copy_in cs passed.first) (buffers_of code passed.buffers) }
    ensures order { (n : Nesting) (ks : List StackEntry) → Named n passed.first ks → TaskInOrder n result ks }
{
    let PassedLevels {
        first: depth,
        buffers,
    } = passed;
    match buffers {
        BufferList::None => Task::GoesBack(depth),
        but => Task::End(EndTask::GoesBack { depth, but }),
    }
}

/// The outer one of two levels.
pub fn outer(one: Option<u32>, inner: Option<u32>) -> Option<u32>
    ensures { result ≡ outer_of one inner }
{
    match one {
        None => inner,
        Some(depth) => Some(depth),
    }
}
