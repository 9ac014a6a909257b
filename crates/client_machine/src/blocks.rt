//! The iterations of a block, and its level.

ghost use Rattle.std.specs.Prelude.{Bool, Option, ◌≡◌, ◌⊎◌, ◌∷◌, [], ℕ, List, None, Some, OnOk, OnErr, IfSome, true, false, reverse};
ghost use Rattle.database_protocol.specs.declared.answer.Answer.{Answer};
ghost use Rattle.database_protocol.specs.declared.operation.Op.{Op};
ghost use Rattle.database_protocol.specs.declared.next_step.NextStep.{NextStep};
ghost use Rattle.bound_tree.specs.Tree.{Body};
ghost use Rattle.block_meaning.specs.State.{State};
ghost use Rattle.block_meaning.specs.Program.{Program};
ghost use Rattle.block_meaning.specs.Meaning.{finished};
ghost use Rattle.flat_machine.specs.Flat.{means};
ghost use Rattle.flat_machine.specs.Works.{IsRunning};
ghost use Rattle.flat_machine.specs.Flat as flat;
ghost use Rattle.block_meaning.specs.State.{Copy, Done};
ghost use Rattle.block_meaning.specs.Blocks.{own_or_outer, after_iteration, iterates, acts, instead_of_retry};
ghost use Rattle.bound_tree.specs.Bound.{action_of};
ghost use Rattle.block_code.specs.declared.code.Instr.{Instr};
ghost use Rattle.client_machine.specs.declared.mode.StackEntry.{StackEntry};
ghost use Rattle.client_machine.specs.InstrClasses.{IsOfClass};
ghost use Rattle.client_machine.specs.Order.{outer_of, ClosesIteration, InOrder, Named, first_in, ModeInOrder};
ghost use Rattle.client_machine.specs.Config.{mode_of, entry_of, completion_of, turn_of, after_undo_of, instr_at, header_at, body_at, fetch_at};
ghost use Rattle.client_output.specs.Written.{IsUnchanged};
ghost use Rattle.client_machine.specs.Machine.{config_of, stack_in, state_in};
ghost use Rattle.client_machine.specs.AnswerClass.{IsOfAnswerClass, KeepsAnswer};
ghost use Rattle.client_machine.specs.declared.answers.AnswerClass.{AnswerClass};
ghost use Rattle.client_machine.specs.declared.mode.OnAnswer.{OnAnswer};
ghost use Rattle.client_machine.specs.Step.{Fits, KeepsRun, KeepsTask, KeepsCompletion, NextStepIs, IsAwaiting, IsAtEnd};
ghost use Rattle.client_machine.specs.declared.mode.Mode.{Mode};
ghost use Rattle.client_machine.specs.declared.mode.Task.{Task};
ghost use Rattle.client_machine.specs.declared.mode.Completion.{Completion};

use crate::machine::{Machine, mode_again, mode_then};
use crate::mode::ends::{BufferList, EndTask};
use crate::mode::reads::{ReadEntry, ReadTask};
use crate::mode::{
    AfterUndo, Completion, IterationData, Mode, OnAnswer, PassedLevels, StackEntry, Task, TurnData,
};
use abl_base::{Bytes, Value};
use block_code::Instr;
use bound_tree::{Action, BlockKind, Stmt};
use database_protocol::{Answer, ClientEnd, NextStep, Op, RowIds, StopWhy};
use std::alloc::{AllocError, Global};
use std::mem;

impl Machine {
    /// An iteration of it, of at most `fuel`.
    pub fn turns(
        &mut self,
        fuel: u64,
        place: usize,
        outer: bool,
        left: u32,
        turn: TurnData,
    ) -> Result<(), AllocError>
        ensures ok { OnOk result (KeepsTask (Task.Turns fuel place outer left turn) self.old self.new) }
        ensures err { OnErr result (IsUnchanged self.old.output self.new.output) }
    {
        self.turn(fuel, place, outer, left, turn)
    }

    /// Asks for Enter where the header says so.
    pub fn enters_level(
        &mut self,
        place: usize,
        turn: TurnData,
        retry: bool,
        left: u32,
    ) -> Result<(), AllocError>
        ensures ok { OnOk result (KeepsTask (Task.EntersLevel place turn retry left) self.old self.new) }
        ensures err { OnErr result (IsUnchanged self.old.output self.new.output) }
    {
        if self.enters(place) {
            self.ask(
                Op::Enter,
                OnAnswer::WasEntered {
                    place,
                    turn,
                    retry,
                    left,
                },
            );
        } else {
            self.set_mode(Mode::Execute(Task::Begins {
                place,
                depth: None,
                turn,
                retry,
                left,
            }));
        }
        Ok(())
    }

    /// The body runs.
    pub fn begins(
        &mut self,
        place: usize,
        depth: Option<u32>,
        turn: TurnData,
        retry: bool,
        left: u32,
    ) -> Result<(), AllocError>
        ensures ok { OnOk result (KeepsTask (Task.Begins place depth turn retry left) self.old self.new) }
        ensures err { OnErr result (IsUnchanged self.old.output self.new.output) }
    {
        if !self.has_no_fetch(place) {
            return self.begins_fetch(place, depth, turn, retry, left);
        }
        let body = self.body_at(place);
        self.stack.push(StackEntry::In {
            place,
            iteration: IterationData { depth, turn },
        })?;
        self.set_mode(Mode::Execute(Task::RunsFrom {
            place: body,
            left,
            retry,
        }));
        Ok(())
    }

    /// A FOR reads its record.
    fn begins_fetch(
        &mut self,
        place: usize,
        depth: Option<u32>,
        turn: TurnData,
        retry: bool,
        left: u32,
    ) -> Result<(), AllocError>
        requires reads { (header_at self.old.code.instrs.items place).fetch ≡ Some (fetch_at self.old.code.instrs.items place) }
        ensures ok { OnOk result (KeepsTask (Task.Begins place depth turn retry left) self.old self.new) }
        ensures err { OnErr result (IsUnchanged self.old.output self.new.output) }
    {
        let TurnData {
            retry: again,
            start,
            by,
            own,
        } = turn;
        self.stack.push(StackEntry::Read(ReadEntry::FetchedAs {
            place,
            depth,
            turn: TurnData {
                retry: again,
                start,
                by,
                own: None,
            },
            retry,
            left,
        }))?;
        self.set_mode(Mode::Execute(Task::Read(ReadTask::Fetches {
            place,
            again,
            retry,
            own,
        })));
        Ok(())
    }

    /// Whether the block at the place is no FOR.
    fn has_no_fetch(&self, place: usize) -> bool
        ensures none { result ≡ true → (header_at self.now.code.instrs.items place).fetch ≡ None }
        ensures some { result ≡ false → (header_at self.now.code.instrs.items place).fetch ≡ Some (fetch_at self.now.code.instrs.items place) }
    {
        match self.code.instrs.get(place) {
            Some(Instr::Block { header, .. }) => header.fetch.is_none(),
            _ => true,
        }
    }

    /// Asks for Leave.
    pub fn leaves_now(&mut self) -> Result<(), AllocError>
        ensures ok { OnOk result (KeepsTask Task.LeavesNow self.old self.new) }
        ensures err { OnErr result (IsUnchanged self.old.output self.new.output) }
    {
        if self.memory.has_buffers() {
            self.set_mode(Mode::Execute(Task::End(EndTask::LeavesNow(BufferList::None))));
            return Ok(());
        }
        let keep = RowIds::empty(self.alloc);
        self.ask(Op::Leave { keep }, OnAnswer::WasLeft);
        Ok(())
    }
}
