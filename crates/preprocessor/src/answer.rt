//! What a source expands to, with the places that its bytes were taken from.

ghost use Rattle.std.specs.Prelude.{◌≡◌, IfOk};
ghost use Rattle.preprocessor.specs.Answers.{IsAnswer, origin_at, origin_of_place, origins_of};
ghost use Rattle.preprocessor.specs.Expansion.{expansion};
ghost use Rattle.preprocessor.specs.Texts.{AreTexts};

use crate::expanded::{Expansion, Origin};
use crate::expansion::expansion;
use crate::places::{past, start};
use crate::texts::{Mark, NamedText, Outcome, bytes_at, bytes_of};
use abl_base::{Bytes, Items, Place, Rule};
use std::alloc::{AllocError, Global};

/// Why there is no expansion.
#[derive(Drop)]
pub enum PreFault {
    /// The first violation: its rule, the number of the text, and the place.
    Broken { rule: Rule, text: u32, place: Place },
    /// The first file that is met and is not among the texts.
    Need { name: Bytes },
    NoMemory,
}

impl Expansion {
    /// Where the byte at this offset was taken from; after the last byte the end of the source. A
    /// byte of a value has the place of its reference.
    pub fn origin(&self, at: u32) -> Origin
        ensures { result ≡ origin_at self.now at }
    {
        self.taken_at(at as usize)
    }

    /// Where the first byte at this place of the expansion was taken from; where no byte is there,
    /// the end of the source.
    pub fn origin_at(&self, place: Place) -> Origin
        ensures { result ≡ origin_of_place self.now.bytes self.now.origins self.now.end place }
    {
        self.taken_at(self.offset_of(place))
    }

    fn taken_at(&self, at: usize) -> Origin
        ensures { result ≡ origin_at self.now at }
    {
        match self.origins.as_slice().get(at) {
            Some(origin) => *origin,
            None => Origin {
                text: 0,
                place: self.end,
            },
        }
    }
}

fn origins_of(alloc: Global, marks: &[Mark]) -> Result<Items<Origin>, AllocError>
    ensures { IfOk result (λ origins. origins ≡ origins_of marks.now) }
{
    let mut origins = Vec::with_capacity(alloc, marks.len())?;
    for mark in marks {
        origins.push(Origin {
            text: mark.text,
            place: mark.place,
        })?;
    }
    Ok(Items::from_vec(origins))
}

/// The expansion of the first of the texts. `Broken` is exactly the first violation of E1 to E7,
/// `Need` exactly the first file that is met before any violation and is not among the texts.
/// `NoMemory` says that memory ran out. (OpenEdge ABL Reference, 'Preprocessor directives'; limits
/// and order are this project's choice.)
pub fn expand(alloc: Global, texts: &[NamedText]) -> Result<Expansion, PreFault>
    requires { AreTexts texts.now }
    ensures { IsAnswer texts.now result (expansion texts.now) }
{
    let Ok(outcome) = expansion(alloc, texts) else {
        return Err(PreFault::NoMemory);
    };
    match outcome {
        Outcome::Gives(marks, state) => {
            drop(state);
            let Ok(bytes) = bytes_of(alloc, marks.as_slice()) else {
                return Err(PreFault::NoMemory);
            };
            let Ok(origins) = origins_of(alloc, marks.as_slice()) else {
                return Err(PreFault::NoMemory);
            };
            let end = past(start(), bytes_at(texts, 0));
            let Ok(expansion) = Expansion::new(alloc, bytes, origins, end) else {
                return Err(PreFault::NoMemory);
            };
            Ok(expansion)
        }
        Outcome::Breaks(rule, text, place) => Err(PreFault::Broken { rule, text, place }),
        Outcome::Needs(name) => Err(PreFault::Need { name }),
    }
}
