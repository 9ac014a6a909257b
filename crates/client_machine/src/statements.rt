//! The instructions of a body.

ghost use Rattle.std.specs.Prelude.{Bool, Option, ◌≡◌, ◌⊎◌, ◌∷◌, [], ℕ, List, None, Some, OnOk, OnErr, IfSome, true, false, reverse};
ghost use Rattle.database_protocol.specs.declared.answer.Answer.{Answer};
ghost use Rattle.database_protocol.specs.declared.operation.Op.{Op};
ghost use Rattle.database_protocol.specs.declared.next_step.NextStep.{NextStep};
ghost use Rattle.bound_tree.specs.Tree.{Assign, Body};
ghost use Rattle.bound_tree.specs.Tree.{Assignment as AssignmentMeant};
ghost use Rattle.bound_tree.specs.Bound.{stmt_of};
ghost use Rattle.block_meaning.specs.State.{State};
ghost use Rattle.block_meaning.specs.Program.{Program};
ghost use Rattle.block_meaning.specs.Meaning.{finished};
ghost use Rattle.flat_machine.specs.Flat.{means};
ghost use Rattle.flat_machine.specs.Works.{IsRunning};
ghost use Rattle.flat_machine.specs.Flat as flat;
ghost use Rattle.block_meaning.specs.State.{Copy, Done};
ghost use Rattle.block_meaning.specs.Blocks.{own_or_outer, after_iteration, iterates, acts, instead_of_retry};
ghost use Rattle.bound_tree.specs.Bound.{action_of};
ghost use Rattle.block_code.specs.declared.code.Instr.{Instr};
ghost use Rattle.client_machine.specs.declared.mode.StackEntry.{StackEntry};
ghost use Rattle.client_machine.specs.InstrClasses.{IsOfClass};
ghost use Rattle.client_machine.specs.Order.{ClosesIteration, CompletesInOrder, InOrder, ModeInOrder, Nesting, first_in, outer_of};
ghost use Rattle.client_machine.specs.Config.{mode_of, entry_of, completion_of, turn_of, after_undo_of, instr_at, header_at, body_at};
ghost use Rattle.client_output.specs.Written.{IsUnchanged};
ghost use Rattle.client_machine.specs.Machine.{config_of, stack_in, state_in};
ghost use Rattle.client_machine.specs.AnswerClass.{IsOfAnswerClass, KeepsAnswer};
ghost use Rattle.client_machine.specs.declared.answers.AnswerClass.{AnswerClass};
ghost use Rattle.client_machine.specs.declared.mode.OnAnswer.{OnAnswer};
ghost use Rattle.client_machine.specs.Step.{Fits, KeepsRun, KeepsTask, KeepsCompletion, NextStepIs, IsAwaiting, IsAtEnd};
ghost use Rattle.client_machine.specs.declared.mode.Mode.{Mode};
ghost use Rattle.client_machine.specs.declared.mode.Task.{Task};
ghost use Rattle.client_machine.specs.declared.mode.Completion.{Completion};

use crate::machine::Machine;
use crate::mode::ends::BufferList;
use crate::mode::{
    AfterUndo, Completion, IterationData, Mode, OnAnswer, PassedLevels, StackEntry, Task, TurnData,
};
use abl_base::{Bytes, Value};
use block_code::Instr;
use bound_tree::{Action, Assignment, BlockKind, Right, Stmt, Target};
use database_protocol::{Answer, ClientEnd, NextStep, Op, RowIds, StopWhy};
use std::alloc::{AllocError, Global};
use std::mem;

/// How an instruction is executed.
#[derive(Clone, Copy, Debug)]
pub enum InstrClass {
    End,
    Block(usize),
    Undo {
        block: u32,
        next: usize,
    },
    Leave {
        block: u32,
        next: usize,
    },
    Next {
        block: u32,
        next: usize,
    },
    /// RETURN.
    Return(usize),
    ReturnError {
        block: u32,
        next: usize,
    },
    Stop(usize),
    /// IF: the places of its branches.
    Test {
        one: usize,
        other: usize,
    },
    /// An assignment, or ASSIGN, of expressions to variables.
    Assign {
        no_error: bool,
        next: usize,
    },
    /// A statement on records.
    Record {
        stmt: RecordStmt,
        no_error: bool,
        next: usize,
    },
    /// RUN, or a statement on streams: a layer above executes it.
    Other,
}

/// A statement on records, or an assignment to a field or from a sequence.
#[derive(Clone, Copy, Debug)]
pub enum RecordStmt {
    Find,
    FindCurrent,
    Create(u32),
    Delete(u32),
    Release(u32),
    Assign,
}

/// A statement that is neither a block nor an IF, and the place after it.
#[derive(Clone, Copy)]
struct SimpleStmt<'a> {
    stmt: &'a Stmt,
    next: usize,
}

impl Machine {
    /// Executes the instruction at the place.
    pub fn run_from(&mut self, place: usize, left: u32, retry: bool) -> Result<(), AllocError>
        ensures ok { OnOk result (KeepsTask (Task.RunsFrom place left retry) self.old self.new) }
        ensures err { OnErr result (IsUnchanged self.old.output self.new.output) }
    {
        match self.class_at(place) {
            InstrClass::End => self.end_body(place, left, retry),
            InstrClass::Block(next) => self.open_block(place, next, left, retry),
            InstrClass::Undo { block, next } => self.complete_statement(
                Completion::Undoes {
                    block,
                    after_undo: self.undo_action_at(place),
                    retry,
                    passed: PassedLevels {
                        first: None,
                        buffers: BufferList::None,
                    },
                },
                next,
                left,
                retry,
            ),
            InstrClass::Leave { block, next } => self.complete_statement(
                Completion::Leaves(block),
                next,
                left,
                retry,
            ),
            InstrClass::Next { block, next } => self.complete_statement(
                Completion::Nexts(block),
                next,
                left,
                retry,
            ),
            InstrClass::Return(next) => self.return_as(
                place,
                Completion::Returns(false),
                next,
                left,
                retry,
            ),
            InstrClass::ReturnError { block, next } => self.return_as(
                place,
                Completion::Undoes {
                    block,
                    after_undo: AfterUndo::Error,
                    retry,
                    passed: PassedLevels {
                        first: None,
                        buffers: BufferList::None,
                    },
                },
                next,
                left,
                retry,
            ),
            InstrClass::Stop(next) => self.complete_statement(
                Completion::Stops(StopWhy::Statement),
                next,
                left,
                retry,
            ),
            InstrClass::Test { one, other } => self.test(place, one, other, left, retry),
            InstrClass::Assign { no_error, next } => {
                self.assign(place, next, no_error, left, retry)
            }
            InstrClass::Record {
                stmt,
                no_error,
                next,
            } => { self.begin_record_stmt(place, stmt, no_error, next, left, retry) }
            InstrClass::Other => Err(AllocError),
        }
    }

    /// How the instruction at the place is executed.
    pub fn class_at(&self, place: usize) -> InstrClass
        ensures { IsOfClass result (instr_at self.now.code.instrs.items place) }
    {
        if let Some(simple) = self.simple_at(place) {
            return stmt_class(simple.stmt, simple.next);
        }
        match self.code.instrs.get(place) {
            None | Some(Instr::End) => InstrClass::End,
            Some(Instr::Block { next, .. }) => InstrClass::Block(*next),
            Some(
                Instr::If {
                    then_place,
                    else_place,
                    ..
                },
            ) => InstrClass::Test {
                one: *then_place,
                other: *else_place,
            },
            _ => InstrClass::Other,
        }
    }

    /// The statement at the place, where that is neither a block nor an IF.
    fn simple_at(&self, place: usize) -> Option<SimpleStmt<'_>>
        ensures { IfSome result (λ simple. instr_at self.now.code.instrs.items place ≡ flat.Plain (stmt_of simple.stmt.now) simple.next) }
    {
        match self.code.instrs.get(place) {
            Some(Instr::Simple { stmt, next }) => Some(SimpleStmt { stmt, next: *next }),
            _ => None,
        }
    }

    /// The body ends.
    pub fn end_body(&mut self, place: usize, left: u32, retry: bool) -> Result<(), AllocError>
        requires ends { instr_at self.old.code.instrs.items place ≡ flat.Ends }
        ensures ok { OnOk result (KeepsTask (Task.RunsFrom place left retry) self.old self.new) }
        ensures err { OnErr result (IsUnchanged self.old.output self.new.output) }
    {
        self.set_mode(Mode::Unwind(Completion::Normal));
        Ok(())
    }

    /// A statement that completes so at once.
    pub fn complete_statement(
        &mut self,
        completion: Completion,
        next: usize,
        left: u32,
        retry: bool,
    ) -> Result<(), AllocError>
        ensures ok { OnOk result ((rest : State) → config_of rest self.new ≡ flat.costing self.old.units (λ s. flat.config (flat.Unwind (completion_of self.old.code.instrs.items self.old.memory.copies completion)) (flat.Handles false ∷ flat.ThenDo (flat.RunsFrom next left retry) ∷ stack_in self.old) s) (stack_in self.old) (state_in rest self.old)) }
        ensures moved { OnOk result (self.new ≡ record self.old { mode = self.new.mode; stack = self.new.stack; units = self.new.units }) }
        ensures order { OnOk result (first_in completion ≡ None → (n : Nesting) → InOrder n (reverse self.old.stack.items) → ModeInOrder n self.new.mode (reverse self.new.stack.items)) }
        ensures err { OnErr result (IsUnchanged self.old.output self.new.output) }
    {
        if !self.charge() {
            drop(completion);
            return Ok(());
        }
        self.stack.push(StackEntry::Then(Task::RunsFrom {
            place: next,
            left,
            retry,
        }))?;
        self.stack.push(StackEntry::Handles(false))?;
        self.set_mode(Mode::Unwind(completion));
        Ok(())
    }
}

/// How a statement is executed, after which the code continues at `next`.
fn stmt_class(stmt: &Stmt, next: usize) -> InstrClass
    ensures { IsOfClass result (flat.Plain (stmt_of stmt.now) next) }
{
    match stmt {
        Stmt::Assign { pairs, no_error } => assign_class(pairs.as_slice(), *no_error, next),
        Stmt::Undo { block, .. } => InstrClass::Undo {
            block: *block,
            next,
        },
        Stmt::Leave(block) => InstrClass::Leave {
            block: *block,
            next,
        },
        Stmt::Next(block) => InstrClass::Next {
            block: *block,
            next,
        },
        Stmt::Return(_) => InstrClass::Return(next),
        Stmt::ReturnError { block, .. } => InstrClass::ReturnError {
            block: *block,
            next,
        },
        Stmt::Stop => InstrClass::Stop(next),
        _ => record_class(stmt, next),
    }
}

/// The same for another statement.
fn record_class(stmt: &Stmt, next: usize) -> InstrClass
    ensures { IsOfClass result (flat.Plain (stmt_of stmt.now) next) }
{
    match stmt {
        Stmt::Find { no_error, .. } => InstrClass::Record {
            stmt: RecordStmt::Find,
            no_error: *no_error,
            next,
        },
        Stmt::FindCurrent { no_error, .. } => InstrClass::Record {
            stmt: RecordStmt::FindCurrent,
            no_error: *no_error,
            next,
        },
        Stmt::Create { buffer, no_error } => InstrClass::Record {
            stmt: RecordStmt::Create(*buffer),
            no_error: *no_error,
            next,
        },
        Stmt::Delete { buffer, no_error } => InstrClass::Record {
            stmt: RecordStmt::Delete(*buffer),
            no_error: *no_error,
            next,
        },
        Stmt::Release { buffer, no_error } => InstrClass::Record {
            stmt: RecordStmt::Release(*buffer),
            no_error: *no_error,
            next,
        },
        _ => InstrClass::Other,
    }
}

/// How an assignment is executed: at once where it assigns expressions to variables.
fn assign_class(pairs: &[Assignment], no_error: bool, next: usize) -> InstrClass
    ensures { (xs : List AssignmentMeant) → IsOfClass result (flat.Plain (Assign xs no_error) next) }
{
    if is_at_once(pairs) {
        InstrClass::Assign { no_error, next }
    } else {
        InstrClass::Record {
            stmt: RecordStmt::Assign,
            no_error,
            next,
        }
    }
}

/// Whether all assignments are of expressions to variables.
fn is_at_once(pairs: &[Assignment]) -> bool {
    pairs.iter().all(|pair| {
        matches!(pair.target, Target::Variable(_)) && matches!(pair.right, Right::Value(_))
    })
}
