//! The right sides of assignments.

ghost use Rattle.std.specs.Prelude.{◌≡◌, ℕ, map};
ghost use Rattle.flat_machine.specs.Flat as flat;
ghost use Rattle.block_meaning.specs.Program.{Program};
ghost use Rattle.block_meaning.specs.State.{State};
ghost use Rattle.bound_tree.specs.Bound.{assignment_of, right_of, stmt_of};
ghost use Rattle.client_machine.specs.Config.{instr_at};
ghost use Rattle.client_machine.specs.Machine.{state_in};
ghost use Rattle.client_machine.specs.Statements.{pairs_in};
ghost use Rattle.client_records.specs.Reads.{ReadsOf};
ghost use Rattle.client_records.specs.Rights.{IsNext, IsRightSide};

use abl_base::Value;
use block_code::{Code, Instr};
use bound_tree::{Assignment, Right, Stmt, Target};
use client_machine::machine::Machine;
use client_values::value::{Status, value_of};
use evaluator::EvalFault;

/// A right side: the value of an expression, or a sequence whose value is asked for.
#[derive(Drop)]
pub(crate) enum RightSide {
    Value(Value),
    NextValue(u16),
    CurrentValue(u16),
}

/// An assignment of a statement, and the index of the one after it.
#[derive(Drop)]
pub(crate) struct NextAssignment {
    pub(crate) target: Target,
    pub(crate) right: RightSide,
    pub(crate) after: usize,
}

/// The assignment of this index in the statement at the place, if it has one, with its expression
/// evaluated.
pub(crate) fn next_assignment(
    machine: &Machine,
    place: usize,
    index: usize,
    retry: bool,
) -> Result<Option<NextAssignment>, EvalFault>
    ensures { (p : Program) (rest : State) → ReadsOf p rest machine.now → IsNext result (pairs_in (instr_at machine.now.code.instrs.items place)) index p retry (state_in rest machine.now) }
{
    let pairs = pairs_at(&machine.code, place);
    if index >= pairs.len() {
        return Ok(None);
    }
    let pair = &pairs[index];
    let right = right_side(machine, &pair.right, retry)?;
    Ok(Some(NextAssignment {
        target: pair.target,
        right,
        after: index + 1,
    }))
}

/// A right side, with its expression evaluated.
fn right_side(machine: &Machine, right: &Right, retry: bool) -> Result<RightSide, EvalFault>
    ensures { (p : Program) (rest : State) → ReadsOf p rest machine.now → IsRightSide result (right_of right.now) p retry (state_in rest machine.now) }
{
    match right {
        Right::Value(expression) => {
            let value = value_of(
                machine.alloc,
                &machine.memory,
                expression,
                &Status {
                    retry,
                    error: machine.status,
                    returned: machine.returned.as_slice(),
                },
            )?;
            Ok(RightSide::Value(value))
        }
        Right::NextValue(sequence) => Ok(RightSide::NextValue(*sequence)),
        Right::CurrentValue(sequence) => Ok(RightSide::CurrentValue(*sequence)),
    }
}

/// The assignments of the statement at the place; none where another instruction is there.
pub(crate) fn pairs_at(code: &Code, place: usize) -> &[Assignment]
    ensures { map assignment_of result.now ≡ pairs_in (instr_at code.now.instrs.items place) }
{
    match code.instrs.get(place) {
        Some(Instr::Simple { stmt, .. }) => pairs_of(stmt),
        Some(Instr::End) | Some(Instr::Block { .. }) | Some(Instr::If { .. }) | None => &[],
    }
}

/// The assignments of a statement; none where it assigns nothing.
fn pairs_of(stmt: &Stmt) -> &[Assignment]
    ensures { (next : ℕ) → map assignment_of result.now ≡ pairs_in (flat.Plain (stmt_of stmt.now) next) }
{
    match stmt {
        Stmt::Assign { pairs, .. } => pairs.as_slice(),
        _ => &[],
    }
}
