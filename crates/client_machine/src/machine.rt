//! The machine.

ghost use Rattle.std.specs.Prelude.{ℕ, List, ◌≡◌, ◌⊎◌, ◌<◌, ◌-◌, ◌+◌, ◌∷◌, [], OnOk, OnErr, IfOk, None, Some, true, false, length, reverse, slice_get};
ghost use Rattle.block_meaning.specs.State.{State, Copy};
ghost use Rattle.block_meaning.specs.Frames.{put_back};
ghost use Rattle.client_memory.specs.Memory.{IsWhole, last_copy, left, entered as enters};
ghost use Rattle.block_code.specs.declared.code.Instr.{Instr};
ghost use Rattle.block_meaning.specs.Blocks.{enters_at as enters_here};
ghost use Rattle.flat_machine.specs.Flat as flat;
ghost use Rattle.database_protocol.specs.declared.operation.Op.{Op};
ghost use Rattle.database_protocol.specs.declared.answer.Answer.{Answer};
ghost use Rattle.block_meaning.specs.Program.{Program};
ghost use Rattle.block_meaning.specs.Lines.{complaint_of};
ghost use Rattle.block_meaning.specs.Values.{value_now, Gives, Fails};
ghost use Rattle.bound_tree.specs.Bound.{expr_of};
ghost use Rattle.expression_meaning.specs.declared.fault.RunFault.{RunFault};
ghost use Rattle.evaluator.specs.Forms.{AreForms};
ghost use Rattle.client_machine.specs.declared.mode.Task.{Task};
ghost use Rattle.client_machine.specs.declared.mode.Mode.{Mode};
ghost use Rattle.client_machine.specs.declared.mode.Completion.{Completion};
ghost use Rattle.database_protocol.specs.declared.ends.StopWhy.{StopWhy};
ghost use Rattle.client_machine.specs.declared.mode.OnAnswer.{OnAnswer};
ghost use Rattle.client_machine.specs.declared.mode.StackEntry.{StackEntry};
ghost use Rattle.client_machine.specs.Order.{CanReach, CompletesInOrder, InOrder, ModeInOrder, Nesting, first_in};
ghost use Rattle.client_machine.specs.Config.{header_at, body_at, turn_of, completion_of, copy_in, task_of, entry_of, mode_of, on_answer_of, AllBelow, AreEven};
ghost use Rattle.client_output.specs.Written.{IsUnchanged};
ghost use Rattle.client_machine.specs.Machine.{config_of, stack_in, state_in};

use crate::inputs::{Inputs, Stream};
use crate::mode::{Completion, Mode, OnAnswer, StackEntry, Task, TurnData};
use abl_base::{Bytes, Value};
use block_code::{Code, Instr};
use bound_tree::Expr;
use client_memory::Memory;
use client_output::Output;
use client_values::value::{Status, value_of};
use database_protocol::Op;
use evaluator::EvalFault;
use std::alloc::{AllocError, Global};
use std::mem;

/// A machine between two steps.
#[derive(Drop)]
pub struct Machine {
    pub code: Code,
    pub mode: Mode,
    /// The outermost first.
    pub stack: Vec<StackEntry>,
    /// The numbers of the open procedures, the outermost first.
    pub procedures: Vec<u32>,
    pub memory: Memory,
    /// Budget units that are left.
    pub units: u64,
    /// The number of CREATEs so far.
    pub made: u64,
    /// ERROR-STATUS:ERROR.
    pub status: bool,
    /// RETURN-VALUE.
    pub returned: Bytes,
    pub alloc: Global,
    /// What it has written.
    pub output: Output,
    /// The unnamed stream first.
    pub streams: Vec<Stream>,
    /// The place of the next byte in the client's own input.
    pub own_at: usize,
    /// What it may read.
    pub inputs: Inputs,
}

impl Machine {
    /// Sets the mode. A step has mostly taken the old one already, and then there is nothing to drop:
    /// dropping it by cases costs more than the rest of the step.
    pub fn set_mode(&mut self, mode: Mode)
        ensures { self.new ≡ record self.old { mode = mode } }
    {
        if owns_nothing(&self.mode) {
            mem::forget(mem::replace(&mut self.mode, mode));
        } else {
            drop(mem::replace(&mut self.mode, mode));
        }
    }

    /// Takes a unit, or stops the client.
    pub fn charge(&mut self) -> bool
        ensures paid { result ≡ true → (rest : State) (ks : List flat.StackEntry) (go : State → flat.Config) → flat.costing self.old.units go ks (state_in rest self.old) ≡ go (state_in rest self.new) }
        ensures same { result ≡ true → self.new ≡ record self.old { units = self.new.units } }
        ensures stopped { result ≡ false → self.new ≡ record self.old { mode = Mode.Unwind (Completion.Stops StopWhy.Budget) } }
        ensures stops { result ≡ false → (rest : State) (go : State → flat.Config) → config_of rest self.new ≡ flat.costing self.old.units go (stack_in self.old) (state_in rest self.old) }
    {
        match self.units.checked_sub(1) {
            Some(units) => {
                self.units = units;
                true
            }
            None => {
                self.set_mode(Mode::Unwind(Completion::Stops(database_protocol::StopWhy::Budget)));
                false
            }
        }
    }

    /// Executes the block at the place.
    pub fn open_block(
        &mut self,
        place: usize,
        next: usize,
        left: u32,
        retry: bool,
    ) -> Result<(), AllocError>
        ensures moved { OnOk result (self.new ≡ record self.old { mode = self.new.mode; stack = self.new.stack; units = self.new.units }) }
        ensures order { OnOk result ((n : Nesting) → InOrder n (reverse self.old.stack.items) → ModeInOrder n self.new.mode (reverse self.new.stack.items)) }
        ensures err { OnErr result (IsUnchanged self.old.output self.new.output) }
        ensures ok { OnOk result ((rest : State) → config_of rest self.new ≡ flat.costing self.old.units (λ s. flat.config (flat.Execute (flat.Blocks (header_at self.old.code.instrs.items place) retry (body_at self.old.code.instrs.items place) left)) (flat.Handles false ∷ flat.ThenDo (flat.RunsFrom next left retry) ∷ stack_in self.old) s) (stack_in self.old) (state_in rest self.old)) }
    {
        if !self.charge() {
            return Ok(());
        }
        self.stack.push(StackEntry::Then(Task::RunsFrom {
            place: next,
            left,
            retry,
        }))?;
        self.stack.push(StackEntry::Handles(false))?;
        self.set_mode(Mode::Execute(Task::Blocks {
            place,
            outer: retry,
            left,
        }));
        Ok(())
    }

    /// Begins an iteration of the block at the place, of at most `fuel` further ones.
    pub fn turn(
        &mut self,
        fuel: u64,
        place: usize,
        outer: bool,
        left: u32,
        turn: TurnData,
    ) -> Result<(), AllocError>
        ensures moved { OnOk result (self.new ≡ record self.old { mode = self.new.mode; stack = self.new.stack }) }
        ensures order { OnOk result ((n : Nesting) → InOrder n (reverse self.old.stack.items) → ModeInOrder n self.new.mode (reverse self.new.stack.items)) }
        ensures err { OnErr result (IsUnchanged self.old.output self.new.output) }
        ensures ok { OnOk result ((rest : State) (code : flat.Code) (p : Program) → config_of rest self.new ≡ flat.task_step code p (task_of self.old.code.instrs.items self.old.memory.copies (Task.Turns fuel place outer left turn)) (stack_in self.old) (state_in rest self.old)) }
    {
        match fuel.checked_sub(1) {
            None => self.set_mode(Mode::Unwind(Completion::Stops(
                database_protocol::StopWhy::Budget,
            ))),
            Some(fuel) => {
                self.stack.push(StackEntry::AndAgain {
                    fuel,
                    place,
                    outer,
                    left,
                })?;
                self.set_mode(Mode::Execute(Task::Iterates {
                    place,
                    outer,
                    left,
                    turn,
                }));
            }
        }
        Ok(())
    }

    /// Asks for an operation, which costs a unit, or stops the client.
    pub fn ask(&mut self, op: Op, on_answer: OnAnswer)
        ensures moved { self.new ≡ record self.old { mode = self.new.mode; units = self.new.units } }
        ensures mode { (self.new.mode ≡ Mode.Await op on_answer) ⊎ (self.new.mode ≡ Mode.Unwind (Completion.Stops StopWhy.Budget)) }
        ensures asks { (rest : State) → config_of rest self.new ≡ flat.ask op (on_answer_of self.old.code.instrs.items self.old.memory.copies op on_answer) (stack_in self.old) (state_in rest self.old) }
    {
        match self.units.checked_sub(1) {
            Some(units) => {
                self.units = units;
                self.set_mode(Mode::Await { op, on_answer });
            }
            None => self.set_mode(Mode::Unwind(Completion::Stops(
                database_protocol::StopWhy::Budget,
            ))),
        }
    }

    /// Whether an iteration of the block at the place opens a level.
    pub fn enters(&self, place: usize) -> bool
        ensures { result ≡ enters_here (header_at self.now.code.instrs.items place) (length self.now.memory.copies) }
    {
        let inside = self.memory.depth() > 0;
        match self.code.instrs.get(place) {
            Some(Instr::Block { header, .. }) => {
                if inside {
                    header.flags.undo
                } else {
                    header.flags.starts
                }
            }
            _ => inside,
        }
    }

    /// The value of an expression, with this value of RETRY.
    pub fn value_of(
        &self,
        alloc: Global,
        expression: &Expr,
        retry: bool,
    ) -> Result<Value, EvalFault>
        ensures value { AreEven self.now.procedures.items self.now.memory → IfOk result (λ v. (rest : State) (p : Program) → AreForms p.forms → rest.status ≡ self.now.status → rest.returned ≡ self.now.returned → value_now p (expr_of expression.now) retry (state_in rest self.now) ≡ Gives v) }
        ensures fault { AreEven self.now.procedures.items self.now.memory → (fault : RunFault) → result ≡ Err (EvalFault.Fault fault) → (rest : State) (p : Program) → AreForms p.forms → rest.status ≡ self.now.status → rest.returned ≡ self.now.returned → value_now p (expr_of expression.now) retry (state_in rest self.now) ≡ Fails (complaint_of fault) }
    {
        value_of(
            alloc,
            &self.memory,
            expression,
            &Status {
                retry,
                error: self.status,
                returned: self.returned.as_slice(),
            },
        )
    }

    /// After Leave: the innermost level is left.
    pub fn was_left(&mut self)
        ensures moved { self.new ≡ record self.old { mode = Mode.Unwind Completion.Normal; memory = left self.old.memory } }
        ensures answered { 0 < length self.old.memory.copies → AllBelow (length self.old.memory.copies - 1) (reverse self.old.stack.items) → (rest : State) (p : Program) (a : Answer) → config_of rest self.new ≡ flat.answer_step p flat.WasLeft a (stack_in self.old) (state_in rest self.old) }
    {
        self.memory.leave();
        self.set_mode(Mode::Unwind(Completion::Normal));
    }

    /// After Enter: the level begins.
    pub fn entered(
        &mut self,
        place: usize,
        turn: TurnData,
        retry: bool,
        left: u32,
    ) -> Result<(), AllocError>
        ensures moved { OnOk result (self.new ≡ record self.old { mode = Mode.Execute (Task.Begins place (Some (length self.old.memory.copies + 1)) turn retry left); memory = enters self.old.made self.old.memory }) }
        ensures err { OnErr result (IsUnchanged self.old.output self.new.output) }
        ensures ok { OnOk result (AllBelow (length self.old.memory.copies) (reverse self.old.stack.items) → AreEven self.old.procedures.items self.old.memory → (rest : State) (p : Program) (o : Op) (a : Answer) → rest.made ≡ self.old.made → config_of rest self.new ≡ flat.answer_step p (on_answer_of self.old.code.instrs.items self.old.memory.copies o (OnAnswer.WasEntered place turn retry left)) a (stack_in self.old) (state_in rest self.old)) }
    {
        let Some(depth) = self.memory.depth().checked_add(1) else {
            return Err(AllocError);
        };
        self.memory.enter(self.made)?;
        self.set_mode(Mode::Execute(Task::Begins {
            place,
            depth: Some(depth),
            turn,
            retry,
            left,
        }));
        Ok(())
    }
}

/// Whether the mode is one of those without owned memory that a step leaves in place of the one it takes.
fn owns_nothing(mode: &Mode) -> bool {
    matches!(
        mode,
        Mode::Unwind(Completion::Normal) | Mode::Execute(Task::RunsFrom { .. })
    )
}

/// The task follows a normal completion.
pub fn mode_then(task: Task, completion: Completion) -> Mode
    ensures order { (n : Nesting) (os : List StackEntry) → CanReach task completion → CompletesInOrder n completion (StackEntry.Then task ∷ os) → ModeInOrder n result os }
    ensures same { (code : List Instr) (cs : List Copy) (ks : List flat.StackEntry) (s : State) → flat.config (mode_of code cs result) ks s ≡ flat.then_step (completion_of code cs completion) (task_of code cs task) ks s }
{
    match completion {
        Completion::Normal => Mode::Execute(task),
        _ => {
            drop(task);
            Mode::Unwind(completion)
        }
    }
}

/// Another iteration follows where the completion asks for it.
pub fn mode_again(fuel: u64, place: usize, outer: bool, left: u32, completion: Completion) -> Mode
    ensures order { (n : Nesting) (os : List StackEntry) → CompletesInOrder n completion (StackEntry.AndAgain fuel place outer left ∷ os) → ModeInOrder n result os }
    ensures same { (code : List Instr) (cs : List Copy) (ks : List flat.StackEntry) (s : State) → flat.config (mode_of code cs result) ks s ≡ flat.again_step (completion_of code cs completion) fuel (header_at code place) outer (body_at code place) left ks s }
{
    match completion {
        Completion::Again(turn) => Mode::Execute(Task::Turns {
            fuel,
            place,
            outer,
            left,
            turn,
        }),
        _ => Mode::Unwind(completion),
    }
}
