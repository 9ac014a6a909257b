//! The search of a FIND or a FOR: the bracket is evaluated once, and Next is asked until a record
//! passes WHERE.

ghost use Rattle.std.specs.Prelude.{◌≡◌, ◌∷◌, List, OnOk, OnErr, None, Some, true, false};
ghost use Rattle.abl_base.specs.declared.value.Value.{Value};
ghost use Rattle.block_meaning.specs.State as state;
ghost use Rattle.block_meaning.specs.Frames.{with_spot};
ghost use Rattle.flat_machine.specs.Flat as flat;
ghost use Rattle.client_output.specs.Written.{IsUnchanged};
ghost use Rattle.record_rules.specs.Answers.{found_if, found_row_in};
ghost use Rattle.client_machine.specs.Config.{reading_at as reading_there, search_of};
ghost use Rattle.client_machine.specs.KeepsFrom.{KeepsFrom};
ghost use Rattle.client_machine.specs.Machine.{stack_in};
ghost use Rattle.client_finds.specs.Steps.{instrs_in, KeepsExecuted};

use crate::goes::{ask, fail, find_none, stop};
use crate::ops::next_op;
use crate::places::buffer_at;
use crate::readings::{bracket, clear_place, show_found};
use crate::takes::{take_any, take_only};
use abl_base::copy_row;
use client_machine::machine::Machine;
use client_machine::mode::LineFault;
use client_machine::mode::reads::{ReadAnswer, SearchData};
use database_protocol::Cursor;
use evaluator::EvalFault;
use record_rules::FoundRow;
use std::alloc::AllocError;

/// Searches a record of the reading at the place, from `from` on.
pub(crate) fn search(
    machine: &mut Machine,
    place: usize,
    forward: bool,
    only: bool,
    wait: bool,
    retry: bool,
    from: Option<Cursor>,
) -> Result<(), AllocError>
    ensures ok { OnOk result (KeepsExecuted (flat.Searches (reading_there (instrs_in machine.old) place) forward only wait retry from) machine.old machine.new) }
    ensures err { OnErr result (IsUnchanged machine.old.output machine.new.output) }
{
    match bracket(machine, place, retry) {
        Ok(prefix) => {
            let search = SearchData {
                place,
                forward,
                only,
                wait,
                retry,
                prefix,
            };
            let fuel = machine.units;
            look(machine, fuel, search, from)
        }
        Err(EvalFault::Fault(fault)) => {
            fail(machine, LineFault::Expression(fault));
            Ok(())
        }
        Err(EvalFault::NoMemory) => Err(AllocError),
    }
}

/// Looks for the next match after `from`.
pub(crate) fn look(
    machine: &mut Machine,
    fuel: u64,
    search: SearchData,
    from: Option<Cursor>,
) -> Result<(), AllocError>
    ensures ok { OnOk result (KeepsExecuted (flat.Looks fuel (search_of (instrs_in machine.old) search) from) machine.old machine.new) }
    ensures err { OnErr result (IsUnchanged machine.old.output machine.new.output) }
{
    let Some(fuel) = fuel.checked_sub(1) else {
        stop(machine);
        return Ok(());
    };
    let prefix = copy_row(&search.prefix)?;
    let Some(op) = next_op(machine, search.place, prefix, from, search.forward) else {
        return Err(AllocError);
    };
    ask(machine, op, ReadAnswer::WasNext { fuel, search });
    Ok(())
}

/// After Next: the record that it found is taken where it passes WHERE, else the search goes on after
/// it.
pub(crate) fn was_next(
    machine: &mut Machine,
    fuel: u64,
    search: SearchData,
    found: Option<FoundRow>,
) -> Result<(), AllocError>
    ensures ok { OnOk result (KeepsFrom (λ p s. flat.next_answered p (found_if found) fuel (search_of (instrs_in machine.old) search) (stack_in machine.old) s) machine.old machine.new) }
    ensures err { OnErr result (IsUnchanged machine.old.output machine.new.output) }
{
    match found {
        None => find_no_further(machine, search.place),
        Some(found) => {
            if search.only {
                judge_only(machine, fuel, search, found)
            } else {
                judge_any(machine, fuel, search, found)
            }
        }
    }
}

/// Next found none: the buffer has no place in an index any more.
fn find_no_further(machine: &mut Machine, place: usize) -> Result<(), AllocError>
    ensures ok { OnOk result (KeepsFrom (λ p s. flat.config (flat.Unwind state.NotFound) (stack_in machine.old) (with_spot (reading_there (instrs_in machine.old) place).buffer None s)) machine.old machine.new) }
    ensures err { OnErr result (IsUnchanged machine.old.output machine.new.output) }
{
    let Some(buffer) = buffer_at(&machine.code, place) else {
        return Err(AllocError);
    };
    clear_place(machine, buffer);
    find_none(machine);
    Ok(())
}

/// Next found a record, where any match will do.
fn judge_any(
    machine: &mut Machine,
    fuel: u64,
    search: SearchData,
    found: FoundRow,
) -> Result<(), AllocError>
    requires { search.only ≡ false }
    ensures ok { OnOk result (KeepsFrom (λ p s. flat.next_answered p (Some (found_row_in found)) fuel (search_of (instrs_in machine.old) search) (stack_in machine.old) s) machine.old machine.new) }
    ensures err { OnErr result (IsUnchanged machine.old.output machine.new.output) }
{
    match show_found(machine, search.place, search.retry, found) {
        Ok(found) => {
            if found.passes {
                take_any(machine, fuel, search, found.cursor)
            } else {
                look(machine, fuel, search, Some(found.cursor))
            }
        }
        Err(EvalFault::Fault(fault)) => {
            fail(machine, LineFault::Expression(fault));
            Ok(())
        }
        Err(EvalFault::NoMemory) => Err(AllocError),
    }
}

/// Next found a record, where a second match is a fault: its values are copied, as the buffer shows
/// other records while the second match is searched.
fn judge_only(
    machine: &mut Machine,
    fuel: u64,
    search: SearchData,
    found: FoundRow,
) -> Result<(), AllocError>
    requires { search.only ≡ true }
    ensures ok { OnOk result (KeepsFrom (λ p s. flat.next_answered p (Some (found_row_in found)) fuel (search_of (instrs_in machine.old) search) (stack_in machine.old) s) machine.old machine.new) }
    ensures err { OnErr result (IsUnchanged machine.old.output machine.new.output) }
{
    let values = copy_row(&found.values)?;
    match show_found(machine, search.place, search.retry, found) {
        Ok(found) => {
            if found.passes {
                take_only(machine, fuel, search, found.cursor, values)
            } else {
                look(machine, fuel, search, Some(found.cursor))
            }
        }
        Err(EvalFault::Fault(fault)) => {
            fail(machine, LineFault::Expression(fault));
            Ok(())
        }
        Err(EvalFault::NoMemory) => Err(AllocError),
    }
}
