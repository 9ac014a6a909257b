//! TO, BY and WHILE of a header (OpenEdge ABL Reference, DO statement and REPEAT statement). A fault
//! in a header is one of the statement that the block is.

ghost use Rattle.std.specs.Prelude.{◌≡◌, ℕ, List, Option, None, Some, OnOk, OnErr, false};
ghost use Rattle.bound_tree.specs.Tree.{Header};
ghost use Rattle.flat_machine.specs.Flat as flat;
ghost use Rattle.block_meaning.specs.Program.{Program};
ghost use Rattle.block_meaning.specs.State.{State, Turn};
ghost use Rattle.client_output.specs.Written.{IsUnchanged};
ghost use Rattle.client_values.specs.Ends.{Judges};
ghost use Rattle.client_values.specs.Loops.{BeginsWith};
ghost use Rattle.client_values.specs.Reads.{Reads};
ghost use Rattle.client_values.specs.Variables.{HasSameShape, state_with};
ghost use Rattle.client_machine.specs.Config.{body_at, header_at, turn_of};
ghost use Rattle.client_machine.specs.KeepsFrom.{KeepsFrom, mode_if};
ghost use Rattle.client_machine.specs.Machine.{stack_in};
ghost use Rattle.client_machine.specs.Step.{KeepsTask};
ghost use Rattle.client_machine.specs.declared.mode.Completion.{Completion};
ghost use Rattle.client_machine.specs.declared.mode.LineFault.{LineFault};
ghost use Rattle.client_machine.specs.declared.mode.Mode.{Mode};
ghost use Rattle.client_machine.specs.declared.mode.Task.{Task};

use crate::machine::Machine;
use crate::mode::{Completion, LineFault, Mode, Task, TurnData};
use abl_base::Value;
use block_code::Instr;
use client_values::loops::{LoopValues, iteration_begins, loop_values};
use client_values::value::Status;
use evaluator::EvalFault;
use expression_meaning::RunFault;
use std::alloc::AllocError;

impl Machine {
    /// A block begins: the start value of TO and the value of BY are evaluated, once.
    pub fn open_header(&mut self, place: usize, outer: bool, left: u32) -> Result<(), AllocError>
        ensures ok { OnOk result (KeepsTask (Task.Blocks place outer left) self.old self.new) }
        ensures err { OnErr result (IsUnchanged self.old.output self.new.output) }
    {
        match self.loop_values_at(place, outer) {
            Ok(values) => {
                self.begin_turns(place, outer, left, values);
                Ok(())
            }
            Err(EvalFault::Fault(fault)) => {
                self.fail_header(fault);
                Ok(())
            }
            Err(EvalFault::NoMemory) => Err(AllocError),
        }
    }

    /// The values with which the iterations of the block at the place begin.
    fn loop_values_at(&self, place: usize, outer: bool) -> Result<LoopValues, EvalFault>
        ensures { (p : Program) (rest : State) (ns : List ℕ) (b : Header) (body d : ℕ) (ks : List flat.StackEntry) → Reads p rest ns self.now.memory self.now.status self.now.returned → BeginsWith result (flat.block_step p (header_at self.now.code.instrs.items place).to b outer body d ks (state_with rest ns self.now.memory)) b outer body d ks (state_with rest ns self.now.memory) }
    {
        match self.code.instrs.get(place) {
            Some(Instr::Block { header, .. }) => loop_values(
                self.alloc,
                &self.memory,
                &header.to,
                &Status {
                    retry: outer,
                    error: self.status,
                    returned: self.returned.as_slice(),
                },
            ),
            _ => Ok(LoopValues {
                start: None,
                by: Value::Unknown,
            }),
        }
    }

    /// The iterations begin with these values.
    fn begin_turns(&mut self, place: usize, outer: bool, left: u32, values: LoopValues)
        ensures { self.new ≡ record self.old { mode = Mode.Execute (Task.Turns self.old.units place outer left (record { retry = false; start = values.start; by = values.by; own = None })) } }
    {
        let LoopValues { start, by } = values;
        self.set_mode(Mode::Execute(Task::Turns {
            fuel: self.units,
            place,
            outer,
            left,
            turn: TurnData {
                retry: false,
                start,
                by,
                own: None,
            },
        }));
    }

    /// The header has a fault.
    fn fail_header(&mut self, fault: RunFault)
        ensures { self.new ≡ record self.old { mode = Mode.Unwind (Completion.Faults (Some (LineFault.Expression fault))) } }
    {
        self.set_mode(Mode::Unwind(Completion::Faults(Some(LineFault::Expression(fault)))));
    }

    /// An iteration costs a unit.
    pub fn iterates(
        &mut self,
        place: usize,
        outer: bool,
        left: u32,
        turn: TurnData,
    ) -> Result<(), AllocError>
        ensures ok { OnOk result (KeepsTask (Task.Iterates place outer left turn) self.old self.new) }
        ensures err { OnErr result (IsUnchanged self.old.output self.new.output) }
    {
        if !self.charge() {
            return Ok(());
        }
        self.iterates_paid(place, outer, left, turn)
    }

    /// The same after the unit was charged: the loop variable is set and tested, then WHILE.
    fn iterates_paid(
        &mut self,
        place: usize,
        outer: bool,
        left: u32,
        turn: TurnData,
    ) -> Result<(), AllocError>
        ensures ok { OnOk result (KeepsFrom (λ p s. flat.turn_step p (header_at self.old.code.instrs.items place) outer (body_at self.old.code.instrs.items place) left (turn_of turn) (stack_in self.old) s) self.old self.new) }
        ensures err { OnErr result (IsUnchanged self.old.output self.new.output) }
    {
        let TurnData {
            retry: again,
            start,
            by,
            own,
        } = turn;
        let retry = self.retry_in(place, again, outer);
        match self.judge_at(place, again, start, &by, retry) {
            Ok(begins) => {
                let turn = TurnData {
                    retry: again,
                    start: None,
                    by,
                    own,
                };
                self.begin_or_complete(begins, place, turn, retry, left);
                Ok(())
            }
            Err(EvalFault::Fault(fault)) => {
                self.fail_header(fault);
                Ok(())
            }
            Err(EvalFault::NoMemory) => Err(AllocError),
        }
    }

    /// Whether an iteration of the block at the place begins.
    fn judge_at(
        &mut self,
        place: usize,
        own: bool,
        start: Option<Value>,
        by: &Value,
        retry: bool,
    ) -> Result<bool, EvalFault>
        ensures moved { self.new ≡ record self.old { memory = self.new.memory } }
        ensures shape { HasSameShape self.old.memory self.new.memory }
        ensures judges { (p : Program) (rest : State) (ns : List ℕ) (t : Turn) (go : State → flat.Config) (ks : List flat.StackEntry) → Reads p rest ns self.old.memory self.old.status self.old.returned → t.retry ≡ own → t.start ≡ start → t.by ≡ by.now → Judges result (flat.loop_step p (header_at self.old.code.instrs.items place).to t retry (λ s. flat.while_step p (header_at self.old.code.instrs.items place).while_test retry go ks s) ks (state_with rest ns self.old.memory)) go ks (state_with rest ns self.new.memory) }
    {
        match self.code.instrs.get(place) {
            Some(Instr::Block { header, .. }) => iteration_begins(
                self.alloc,
                &mut self.memory,
                header,
                own,
                start,
                by,
                &Status {
                    retry,
                    error: self.status,
                    returned: self.returned.as_slice(),
                },
            ),
            _ => Err(EvalFault::NoMemory),
        }
    }

    /// The iteration begins, or the block completes.
    fn begin_or_complete(
        &mut self,
        begins: bool,
        place: usize,
        turn: TurnData,
        retry: bool,
        left: u32,
    )
        ensures { self.new ≡ record self.old { mode = mode_if begins (Mode.Execute (Task.EntersLevel place turn retry left)) (Mode.Unwind Completion.Normal) } }
    {
        if begins {
            self.set_mode(Mode::Execute(Task::EntersLevel {
                place,
                turn,
                retry,
                left,
            }));
        } else {
            self.set_mode(Mode::Unwind(Completion::Normal));
        }
    }
}
