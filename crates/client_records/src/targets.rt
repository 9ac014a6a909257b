//! The buffers that a statement changes, in the order of their first targets.

ghost use Rattle.std.specs.Prelude.{◌≡◌, ◌++◌, ℕ, List, IfOk, OnOk, drop, map, reverse};
ghost use Rattle.block_meaning.specs.Changes.{buffer_first, buffers_in};
ghost use Rattle.block_meaning.specs.Frames.{is_in};
ghost use Rattle.bound_tree.specs.Bound.{assignment_of};
ghost use Rattle.client_machine.specs.Config.{assignments_of, given_of};
ghost use Rattle.client_records.specs.Entries.{others};

use crate::rights::pairs_at;
use block_code::Code;
use bound_tree::{Assignment, Target};
use client_machine::mode::changes::{AssignmentList, GivenValue};
use std::alloc::{AllocError, Global};

/// The buffers that the assignments change, each once. Out of memory is the only error.
pub(crate) fn changed_buffers(
    alloc: Global,
    code: &Code,
    pairs: &AssignmentList,
) -> Result<Vec<u32>, AllocError>
    ensures { IfOk result (λ buffers. buffers.items ≡ buffers_in (assignments_of code.now.instrs.items pairs.now)) }
{
    match pairs {
        AssignmentList::Statement { place, from } => {
            changed_by(alloc, pairs_at(code, *place), *from)
        }
        AssignmentList::Given(values) => changed_by_values(alloc, values.as_slice()),
    }
}

/// The buffers of the targets of values, of which the last one comes first.
fn changed_by_values(alloc: Global, values: &[GivenValue]) -> Result<Vec<u32>, AllocError>
    ensures { IfOk result (λ buffers. buffers.items ≡ buffers_in (map given_of (reverse values.now))) }
{
    let mut buffers = Vec::new(alloc);
    let mut left = values.len();
    while left > 0 {
        left -= 1;
        add_target(&mut buffers, values[left].target)?;
    }
    Ok(buffers)
}

/// The buffers of the targets of assignments, from this one on.
fn changed_by(alloc: Global, pairs: &[Assignment], from: usize) -> Result<Vec<u32>, AllocError>
    ensures { IfOk result (λ buffers. buffers.items ≡ buffers_in (drop from (map assignment_of pairs.now))) }
{
    let mut buffers = Vec::new(alloc);
    for index in from..pairs.len() {
        add_target(&mut buffers, pairs[index].target)?;
    }
    Ok(buffers)
}

/// The buffer of a target follows those before it, unless it is one of them.
fn add_target(buffers: &mut Vec<u32>, target: Target) -> Result<(), AllocError>
    ensures { OnOk result ((bs : List ℕ) → buffers.new.items ++ others buffers.new.items bs ≡ buffers.old.items ++ others buffers.old.items (buffer_first target bs)) }
{
    if let Target::Field { buffer, .. } = target {
        if !is_in(buffer, buffers) {
            buffers.push(buffer)?;
        }
    }
    Ok(())
}

/// Whether the number is one of these.
fn is_in(number: u32, numbers: &[u32]) -> bool
    ensures { result ≡ is_in number numbers.now }
{
    for other in numbers {
        if number == *other {
            return true;
        }
    }
    false
}
