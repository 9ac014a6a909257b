//! The places of all buffers of a client.

ghost use Rattle.std.specs.Prelude.{◌≡◌, ◌++◌, map, IfOk, OnOk};
ghost use Rattle.block_meaning.specs.Buffers.{places_from};
ghost use Rattle.client_memory.specs.Buffers.{denoted_place, places_in};

use crate::buffer::Place;
use crate::buffers::Buffers;
use std::alloc::{AllocError, Global};

/// Adds the places of the buffers of one procedure.
fn push_places(places: &mut Vec<Place>, out: usize, buffers: &Buffers) -> Result<(), AllocError>
    ensures { OnOk result (map denoted_place places.new.items ≡ map denoted_place places.old.items ++ places_from out 0 buffers.now) }
{
    for number in 0..buffers.len() {
        places.push(Place { out, number })?;
    }
    Ok(())
}

/// The places of all buffers, the outermost procedure first. Out of memory is the only error.
pub fn all_places(alloc: Global, frames: &[Buffers]) -> Result<Vec<Place>, AllocError>
    ensures { IfOk result (λ places. map denoted_place places.items ≡ places_in frames.now) }
{
    let mut places = Vec::new(alloc);
    for index in 0..frames.len() {
        push_places(&mut places, frames.len() - index - 1, &frames[index])?;
    }
    Ok(places)
}
