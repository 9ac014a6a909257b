//! What a machine reads of the header of a block, and how a block begins.

ghost use Rattle.std.specs.Prelude.{Bool, Option, ◌≡◌, ◌⊎◌, ◌∷◌, [], ℕ, List, None, Some, OnOk, OnErr, IfSome, true, false, reverse};
ghost use Rattle.database_protocol.specs.declared.answer.Answer.{Answer};
ghost use Rattle.database_protocol.specs.declared.operation.Op.{Op};
ghost use Rattle.database_protocol.specs.declared.next_step.NextStep.{NextStep};
ghost use Rattle.bound_tree.specs.Tree.{Body};
ghost use Rattle.block_meaning.specs.State.{State};
ghost use Rattle.block_meaning.specs.Program.{Program};
ghost use Rattle.block_meaning.specs.Meaning.{finished};
ghost use Rattle.flat_machine.specs.Flat.{means};
ghost use Rattle.flat_machine.specs.Works.{IsRunning};
ghost use Rattle.flat_machine.specs.Flat as flat;
ghost use Rattle.block_meaning.specs.State.{Copy, Done};
ghost use Rattle.block_meaning.specs.Blocks.{own_or_outer, after_iteration, iterates, acts, instead_of_retry};
ghost use Rattle.bound_tree.specs.Bound.{action_of};
ghost use Rattle.block_code.specs.declared.code.Instr.{Instr};
ghost use Rattle.client_machine.specs.declared.mode.StackEntry.{StackEntry};
ghost use Rattle.client_machine.specs.InstrClasses.{IsOfClass};
ghost use Rattle.client_machine.specs.Order.{outer_of, ClosesIteration, InOrder, Named, first_in, ModeInOrder};
ghost use Rattle.client_machine.specs.Config.{mode_of, entry_of, completion_of, turn_of, after_undo_of, instr_at, header_at, body_at};
ghost use Rattle.client_output.specs.Written.{IsUnchanged};
ghost use Rattle.client_machine.specs.Machine.{config_of, stack_in, state_in};
ghost use Rattle.client_machine.specs.AnswerClass.{IsOfAnswerClass, KeepsAnswer};
ghost use Rattle.client_machine.specs.declared.answers.AnswerClass.{AnswerClass};
ghost use Rattle.client_machine.specs.declared.mode.OnAnswer.{OnAnswer};
ghost use Rattle.client_machine.specs.Step.{Fits, KeepsRun, KeepsTask, KeepsCompletion, NextStepIs, IsAwaiting, IsAtEnd};
ghost use Rattle.client_machine.specs.declared.mode.Mode.{Mode};
ghost use Rattle.client_machine.specs.declared.mode.Task.{Task};
ghost use Rattle.client_machine.specs.declared.mode.Completion.{Completion};

use crate::machine::{Machine, mode_again, mode_then};
use crate::mode::{
    AfterUndo, Completion, IterationData, Mode, OnAnswer, PassedLevels, StackEntry, Task, TurnData,
};
use abl_base::{Bytes, Value};
use block_code::Instr;
use bound_tree::{Action, BlockKind, Stmt};
use database_protocol::{Answer, ClientEnd, NextStep, Op, RowIds, StopWhy};
use std::alloc::{AllocError, Global};
use std::mem;

impl Machine {
    /// Whether it has the undo property.
    pub fn can_undo(&self, place: usize) -> bool
        ensures { result ≡ (header_at self.now.code.instrs.items place).flags.undo }
    {
        match self.code.instrs.get(place) {
            Some(Instr::Block { header, .. }) => header.flags.undo,
            _ => true,
        }
    }

    /// RETRY inside of an iteration of it.
    pub fn retry_in(&self, place: usize, own: bool, outer: bool) -> bool
        ensures { result ≡ own_or_outer (header_at self.now.code.instrs.items place).flags.undo own outer }
    {
        if self.can_undo(place) { own } else { outer }
    }

    /// The place of its body.
    pub fn body_at(&self, place: usize) -> usize
        ensures { result ≡ body_at self.now.code.instrs.items place }
    {
        match self.code.instrs.get(place) {
            Some(Instr::Block { body, .. }) => *body,
            _ => 0,
        }
    }

    /// The number of the block at the place.
    pub fn number_at(&self, place: usize) -> u32
        ensures { result ≡ (header_at self.now.code.instrs.items place).number }
    {
        match self.code.instrs.get(place) {
            Some(Instr::Block { header, .. }) => header.number,
            _ => 0,
        }
    }

    /// Whether it names RETRY.
    pub fn names_retry(&self, place: usize) -> bool
        ensures { result ≡ (header_at self.now.code.instrs.items place).flags.retry_seen }
    {
        match self.code.instrs.get(place) {
            Some(Instr::Block { header, .. }) => header.flags.retry_seen,
            _ => false,
        }
    }

    /// Whether it iterates.
    pub fn iterates_at(&self, place: usize) -> bool
        ensures { result ≡ iterates (header_at self.now.code.instrs.items place) }
    {
        match self.code.instrs.get(place) {
            Some(Instr::Block { header, .. }) => {
                matches!(header.kind, BlockKind::Repeat | BlockKind::For)
                    || header.to.is_some()
                    || header.while_test.is_some()
            }
            _ => false,
        }
    }
}
