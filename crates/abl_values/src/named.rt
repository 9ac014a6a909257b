//! Lists of items that have names, each found by its name in any case.

ghost use Rattle.std.specs.Prelude.{◌≡◌, ◌<◌, ◌≤◌, ◌↔◌, [], ◌∷◌, ◌++◌, length, map, Err, IfSome, IsNone, IsSome, OnErr, OnOk};
ghost use Rattle.abl_values.specs.Names.{key_of};
ghost use Rattle.abl_values.specs.Order.{folded};
ghost use Rattle.abl_values.specs.Schema.{number_of_name};
ghost use Rattle.abl_base.specs.declared.limits.TheConstants.{MAX_NAME_BYTES};
ghost use Rattle.abl_values.specs.declared.named.NameFault.TheVariants.{TooLong, Taken};

use crate::order::folded_byte;
use abl_base::MAX_NAME_BYTES;
use arrayvec::ArrayVec;
use indexmap::IndexMap;
use std::alloc::Global;
use std::marker::Model;

/// A name with its ASCII letters small: what it is found by.
type NameKey = ArrayVec<u8, MAX_NAME_BYTES>;

/// What has a name of its own.
pub trait HasName: Drop {
    ghost use Rattle.std.specs.Prelude.{List, ℕ};

    ghost name_of: { Self → List ℕ };

    /// The name as it is spelt.
    fn name(&self) -> &[u8]
        ensures { result.now ≡ name_of self.now };
}

/// Why an item was not added.
#[derive(Clone, Copy, Debug, PartialEq, Eq)]
pub enum NameFault {
    /// The item's name has more than 32 bytes.
    TooLong,
    /// An item with this name, in any case, is there.
    Taken,
    /// There is no memory for the item.
    NoMemory,
}

/// Items in the order in which they were added, no two of one name, each found by its name.
#[derive(Drop)]
pub struct Named<T: HasName> {
    items: IndexMap<NameKey, T>,
}

impl<T: HasName> Model for Named<T> {
    ghost use Rattle.std.specs.Prelude.{List, map};
    ghost use Rattle.indexmap.specs.IndexMap.{keys, values};
    ghost use Rattle.abl_values.specs.Names.{HaveKeys};

    ghost Value = { List T };

    ghost view = { λ list. values list.items };

    ghost invariant = { λ list. HaveKeys (map T.name_of (values list.items)) (keys list.items) };
}

impl<T: HasName> Named<T> {
    /// The list with no item in it.
    pub fn empty(alloc: Global) -> Named<T>
        ensures { result ≡ [] }
    {
        Named {
            items: IndexMap::new(alloc),
        }
    }

    /// The items in order.
    pub fn as_slice(&self) -> &[T]
        ensures { result.now ≡ self.now }
    {
        self.items.values().as_slice()
    }

    /// How many items there are.
    pub fn len(&self) -> usize
        ensures { result ≡ length self.now }
    {
        self.items.len()
    }

    /// The number of the item with this name, in any case.
    pub fn find(&self, name: &[u8]) -> Option<usize>
        ensures number { result ≡ number_of_name 0 (map T.name_of self.now) name.now }
        ensures within { IfSome result (λ number. number < length self.now) }
    {
        let items = &self.items;
        let key = name_key(name)?;
        items.get_index_of(&key)
    }

    /// Adds the item at the end. A name of more than 32 bytes is refused, and one that an item has,
    /// in any case. After a refusal the list is as before.
    pub fn push(&mut self, item: T) -> Result<(), NameFault>
        ensures ok { OnOk result (self.new ≡ self.old ++ item ∷ []) }
        ensures err { OnErr result (self.new ≡ self.old) }
        ensures too_long { (result ≡ Err TooLong) ↔ (MAX_NAME_BYTES < length (T.name_of item)) }
        ensures taken { (result ≡ Err Taken) ↔ ((length (T.name_of item) ≤ MAX_NAME_BYTES) × IsSome (number_of_name 0 (map T.name_of self.old) (T.name_of item))) }
    {
        let Some(key) = name_key(item.name()) else {
            return Err(NameFault::TooLong);
        };
        if self.items.get_index_of(&key).is_some() {
            return Err(NameFault::Taken);
        }
        match self.items.insert(key, item) {
            Ok(_) => Ok(()),
            Err(_) => Err(NameFault::NoMemory),
        }
    }

    /// The allocator that the list takes its memory from.
    pub fn allocator(&self) -> Global {
        *self.items.allocator()
    }
}

/// What a name is found by, where it is not too long.
fn name_key(name: &[u8]) -> Option<NameKey>
    ensures key { IfSome result (λ key. key ≡ key_of name.now) }
    ensures long { IsNone result ↔ (MAX_NAME_BYTES < length name.now) }
{
    if name.len() > MAX_NAME_BYTES {
        return None;
    }
    let mut key = ArrayVec::new();
    for byte in name {
        key.push(folded_byte(*byte));
    }
    Some(key)
}
