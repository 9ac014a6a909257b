//! Lists that grow without allocation: an item is added together with room for it. The room is a cell
//! of the list, allocated when the item is made that may later be listed. So a list has no capacity
//! that could be exhausted, and adding never fails.

ghost use Rattle.std.specs.Prelude.{◌≡◌, [], ◌∷◌, IfOk, MatchOption};
ghost use Rattle.key_index.specs.Chain.{items_of};

use std::alloc::{AllocError, Global};
use std::marker::Model;
use std::mem;

/// The cells of a chain.
pub(crate) enum Links<T> {
    End,
    More(T, Box<Links<T>>),
}

/// A loop, so that a long chain does not run out of stack.
impl<T: Drop> Drop for Links<T> {
    fn drop(mut self) {
        loop {
            match self {
                Links::End => return,
                Links::More(_, rest) => self = Box::into_inner(rest),
            }
        }
    }
}

impl<T: Drop> Links<T> {
    /// The first item, and the cell of the others.
    fn apart(self) -> Option<(T, Box<Links<T>>)>
        ensures { MatchOption result (items_of self ≡ []) (λ first. items_of self ≡ first.0 ∷ items_of first.1.value) }
    {
        match self {
            Links::End => None,
            Links::More(item, rest) => Some((item, rest)),
        }
    }
}

/// Room for one more item of a chain.
#[derive(Drop)]
pub struct Room<T> {
    pub(crate) cell: Box<Links<T>>,
}

impl<T: Drop> Room<T> {
    /// Room for one item, with none in it.
    pub fn new(alloc: Global) -> Result<Room<T>, AllocError>
        ensures { IfOk result (λ room. items_of room.cell.value ≡ []) }
    {
        Ok(Room {
            cell: Box::new(alloc, Links::End)?,
        })
    }
}

/// Items, the latest first.
#[derive(Drop)]
pub struct Chain<T> {
    pub(crate) links: Links<T>,
}

impl<T> Model for Chain<T> {
    ghost use Rattle.std.specs.Prelude.{List};

    ghost Value = { List T };

    ghost use Rattle.key_index.specs.Chain.{items_of};

    ghost view = { λ chain. items_of chain.links };
}

impl<T: Drop> Chain<T> {
    /// No item.
    pub fn new() -> Chain<T>
        ensures { result ≡ [] }
    {
        Chain { links: Links::End }
    }

    /// Puts an item first, in this room. It takes no memory.
    pub fn add(&mut self, item: T, room: Room<T>)
        ensures { self.new ≡ item ∷ self.old }
    {
        let Room { mut cell } = room;
        let rest = mem::replace(&mut self.links, Links::End);
        let _ = Box::replace(&mut cell, rest);
        self.links = Links::More(item, cell);
    }

    /// Takes out the first item and its room.
    pub fn take(&mut self) -> Option<(T, Room<T>)>
        ensures { MatchOption result (self.old ≡ []) (λ first. self.old ≡ first.0 ∷ self.new) }
    {
        let links = mem::replace(&mut self.links, Links::End);
        let (item, mut cell) = links.apart()?;
        self.links = Box::replace(&mut cell, Links::End);
        Some((item, Room { cell }))
    }
}
