//! Lists of what has names, where several may have one name. The first of a name is found by an
//! index, in time that does not grow with the list.

ghost use Rattle.std.specs.Prelude.{◌≡◌, ◌<◌, ◌∷◌, ◌++◌, [], IfSome, List, OnErr, OnOk, ℕ, length, map};
ghost use Rattle.abl_values.specs.Schema.{number_of_name};
ghost use Rattle.bind_names.specs.Listed.{Finds, number_in};

use crate::meaning::number_named;
use abl_base::{Bytes, Items, MAX_NAME_BYTES};
use abl_values::{HasName, NameFault, Named};
use std::alloc::{AllocError, Global};
use std::marker::Model;

/// A name, and the number of the first item that has it.
#[derive(Drop)]
pub struct First {
    pub spelling: Bytes,
    pub number: usize,
}

impl HasName for First {
    ghost name_of = { λ item. item.spelling };

    fn name(&self) -> &[u8] {
        self.spelling.as_slice()
    }
}

/// Items in the order in which they were added. The first item of a name of at most
/// `MAX_NAME_BYTES` bytes, which the names of every source are, is found by an index.
#[derive(Drop)]
pub struct Listed<T: HasName> {
    items: Vec<T>,
    firsts: Named<First>,
}

impl<T: HasName> Model for Listed<T> {
    ghost use Rattle.std.specs.Prelude.{List, map};
    ghost use Rattle.bind_names.specs.Listed.{Finds};

    ghost Value = { List T };

    ghost view = { λ listed. listed.items.items };

    ghost invariant = { λ listed. Finds listed.firsts (map T.name_of listed.items.items) };
}

/// The number that the index has for a name.
#[tactic(auto, using(crate::proofs::Firsts::number_at, crate::proofs::Firsts::number_nowhere))]
fn number_in(firsts: &Named<First>, name: &[u8]) -> Option<usize>
    ensures { result ≡ number_in firsts.now name.now }
{
    let at = firsts.find(name)?;
    Some(firsts.as_slice()[at].number)
}

/// Adds a name with its number to the index, unless it has this name or the name is too long for
/// it. Out of memory is the only error, and leaves the index as it was.
fn index(firsts: &mut Named<First>, one: First) -> Result<(), AllocError>
    ensures ok { (names : List (List ℕ)) → one.number ≡ length names → Finds firsts.old names → OnOk result (Finds firsts.new (names ++ one.spelling ∷ [])) }
    ensures err { OnErr result (firsts.new ≡ firsts.old) }
{
    match firsts.push(one) {
        Ok(()) => Ok(()),
        Err(NameFault::Taken) => Ok(()),
        Err(NameFault::TooLong) => Ok(()),
        Err(NameFault::NoMemory) => Err(AllocError),
    }
}

impl<T: HasName> Listed<T> {
    /// The list with no item in it.
    pub fn empty(alloc: Global) -> Listed<T>
        ensures { result ≡ [] }
    {
        Listed {
            items: Vec::new(alloc),
            firsts: Named::empty(alloc),
        }
    }

    /// The items in order.
    pub fn as_slice(&self) -> &[T]
        ensures { result.now ≡ self.now }
    {
        self.items.as_slice()
    }

    /// The number of items.
    pub fn len(&self) -> usize
        ensures { result ≡ length self.now }
    {
        self.items.len()
    }

    /// The number of the first item that has this name, in any case.
    pub fn find(&self, name: &[u8]) -> Option<usize>
        ensures number { result ≡ number_of_name 0 (map T.name_of self.now) name.now }
        ensures within { IfSome result (λ number. number < length self.now) }
    {
        if name.len() <= MAX_NAME_BYTES {
            return number_in(&self.firsts, name);
        }
        number_named(self.items.as_slice(), name)
    }

    /// Adds the item at the end. Out of memory is the only error, and leaves the list as it was.
    #[tactic(auto, using(crate::proofs::Firsts::finds_pushed, crate::proofs::Firsts::put_back))]
    pub fn push(&mut self, item: T) -> Result<(), AllocError>
        ensures ok { OnOk result (self.new ≡ self.old ++ item ∷ []) }
        ensures err { OnErr result (self.new ≡ self.old) }
    {
        let alloc = *self.items.allocator();
        let number = self.items.len();
        let one = First {
            spelling: Items::of(alloc, item.name())?,
            number,
        };
        self.items.push(item)?;
        match index(&mut self.firsts, one) {
            Ok(()) => Ok(()),
            Err(fault) => {
                self.items.truncate(number);
                Err(fault)
            }
        }
    }
}
