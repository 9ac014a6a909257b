//! Rows of calls on rows over slots in memory, as `insert 3 7 240 1`, which is answered with
//! `row 8192`.

mod calls;

use byte_rows::Chains;
use new_database::slots::MemSlots;
use std::alloc::{AllocError, Global};

/// Rows over slots, with a mark of each client.
#[derive(Drop)]
pub struct Rows {
    chains: Chains<MemSlots>,
    marks: [usize; 16],
}

/// Rows over slots that are empty, if they can be opened.
fn opened(alloc: Global) -> Result<Option<Chains<MemSlots>>, AllocError> {
    let slots = MemSlots::new(alloc)?;
    match Chains::open(slots, alloc) {
        Ok(chains) => Ok(Some(chains)),
        Err(_) => Ok(None),
    }
}

impl Rows {
    /// There is no row yet. None comes where the slots cannot be opened.
    pub fn new(alloc: Global) -> Result<Option<Rows>, AllocError> {
        match opened(alloc)? {
            Some(chains) => Ok(Some(Rows {
                chains,
                marks: [0; 16],
            })),
            None => Ok(None),
        }
    }

    /// The answer of a call.
    pub fn answer(&mut self, alloc: Global, row: &str) -> Result<String, AllocError> {
        calls::answer(alloc, &mut self.chains, &mut self.marks, row)
    }
}
