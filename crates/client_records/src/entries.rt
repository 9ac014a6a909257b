//! What follows the assignments of a statement, on the stack: the locks of the changed buffers, and
//! then their storing.

ghost use Rattle.std.specs.Prelude.{◌≡◌, ◌∷◌, [], IfOk, List, OnOk, reverse};
ghost use Rattle.block_code.specs.declared.code.Instr.{Instr};
ghost use Rattle.block_meaning.specs.State.{Copy};
ghost use Rattle.client_machine.specs.Config.{stack_of};
ghost use Rattle.client_machine.specs.Order.{InOrder, Nesting};
ghost use Rattle.client_memory.specs.Buffers.{denoted_content};
ghost use Rattle.client_records.specs.Entries.{content_at, lock_entries, store_entries};

use client_machine::mode::changes::{ChangeEntry, ChangeTask};
use client_machine::mode::{StackEntry, Task};
use client_memory::{Content, Memory, Place};
use std::alloc::AllocError;

/// Each buffer is stored, in order. A fault restores it, and those after it, from their present
/// contents.
pub(crate) fn push_stores(
    stack: &mut Vec<StackEntry>,
    memory: &Memory,
    buffers: &[u32],
) -> Result<(), AllocError>
    ensures pushed { OnOk result ((code : List Instr) (cs : List Copy) → stack_of code cs (reverse stack.new.items) ≡ store_entries (content_at memory.now) buffers.now (stack_of code cs (reverse stack.old.items))) }
    ensures order { OnOk result ((n : Nesting) → InOrder n (reverse stack.old.items) → InOrder n (reverse stack.new.items)) }
{
    let mut left = buffers.len();
    while left > 0 {
        left -= 1;
        push_store(stack, memory, buffers[left])?;
    }
    Ok(())
}

/// The buffer is stored, before what is on the stack.
fn push_store(stack: &mut Vec<StackEntry>, memory: &Memory, buffer: u32) -> Result<(), AllocError>
    ensures pushed { OnOk result ((code : List Instr) (cs : List Copy) → stack_of code cs (reverse stack.new.items) ≡ store_entries (content_at memory.now) (buffer ∷ []) (stack_of code cs (reverse stack.old.items))) }
    ensures order { OnOk result ((n : Nesting) → InOrder n (reverse stack.old.items) → InOrder n (reverse stack.new.items)) }
{
    let content = content_of(memory, buffer)?;
    stack.push(StackEntry::Change(ChangeEntry::AsBefore { buffer, content }))?;
    stack.push(StackEntry::Then(Task::Change(ChangeTask::SettlesOne(buffer))))?;
    Ok(())
}

/// Each buffer is locked for the change, in order.
pub(crate) fn push_locks(stack: &mut Vec<StackEntry>, buffers: &[u32]) -> Result<(), AllocError>
    ensures pushed { OnOk result ((code : List Instr) (cs : List Copy) → stack_of code cs (reverse stack.new.items) ≡ lock_entries buffers.now (stack_of code cs (reverse stack.old.items))) }
    ensures order { OnOk result ((n : Nesting) → InOrder n (reverse stack.old.items) → InOrder n (reverse stack.new.items)) }
{
    let mut left = buffers.len();
    while left > 0 {
        left -= 1;
        push_lock(stack, buffers[left])?;
    }
    Ok(())
}

/// The buffer is locked, before what is on the stack.
fn push_lock(stack: &mut Vec<StackEntry>, buffer: u32) -> Result<(), AllocError>
    ensures pushed { OnOk result ((code : List Instr) (cs : List Copy) → stack_of code cs (reverse stack.new.items) ≡ lock_entries (buffer ∷ []) (stack_of code cs (reverse stack.old.items))) }
    ensures order { OnOk result ((n : Nesting) → InOrder n (reverse stack.old.items) → InOrder n (reverse stack.new.items)) }
{
    stack.push(StackEntry::Then(Task::Change(ChangeTask::LocksOne(buffer))))?;
    Ok(())
}

/// A copy of what the buffer of the running procedure holds. Out of memory is the only error.
fn content_of(memory: &Memory, buffer: u32) -> Result<Content, AllocError>
    ensures { IfOk result (λ content. denoted_content content ≡ content_at memory.now buffer) }
{
    match memory.buffer(Place::own(buffer as usize)) {
        Some(found) => found.content.copy(),
        None => Ok(Content::Empty),
    }
}
