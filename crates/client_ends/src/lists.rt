//! The buffers that are scoped to blocks.

ghost use Rattle.std.specs.Prelude.{◌≡◌, IfOk, map};
ghost use Rattle.block_meaning.specs.Buffers.{own};
ghost use Rattle.client_memory.specs.Buffers.{denoted_place};
ghost use Rattle.client_machine.specs.Config.{buffers_of, header_at};

use abl_base::Items;
use block_code::{Code, Instr};
use client_machine::mode::ends::BufferList;
use client_memory::Place;
use std::alloc::{AllocError, Global};

/// The buffers scoped to the block at the place.
pub fn scoped_at(code: &Code, place: usize) -> &[u32]
    ensures { result.now ≡ (header_at code.now.instrs.items place).scoped }
{
    match code.instrs.get(place) {
        Some(Instr::Block { header, .. }) => header.scoped.as_slice(),
        _ => &[],
    }
}

/// The buffers of a list.
pub fn buffers_in<'a>(code: &'a Code, list: &'a BufferList) -> &'a [u32]
    ensures { result.now ≡ buffers_of code.now.instrs.items list.now }
{
    match list {
        BufferList::None => &[],
        BufferList::Scoped(place) => scoped_at(code, *place),
        BufferList::These(buffers) => buffers.as_slice(),
    }
}

/// A copy of a list. Out of memory is the only error.
pub fn copy_list(list: &BufferList) -> Result<BufferList, AllocError>
    ensures { IfOk result (λ copy. copy ≡ list.now) }
{
    match list {
        BufferList::None => Ok(BufferList::None),
        BufferList::Scoped(place) => Ok(BufferList::Scoped(*place)),
        BufferList::These(buffers) => {
            let buffers = buffers.copy()?;
            Ok(BufferList::These(buffers))
        }
    }
}

/// The places of buffers of the running procedure. Out of memory is the only error.
pub fn own_places(alloc: Global, buffers: &[u32]) -> Result<Items<Place>, AllocError>
    ensures { IfOk result (λ places. map denoted_place places ≡ map own buffers.now) }
{
    let mut places = Vec::with_capacity(alloc, buffers.len())?;
    for buffer in buffers {
        places.push(Place::own(*buffer as usize))?;
    }
    Ok(Items::from_vec(places))
}
