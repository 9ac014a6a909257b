//! Items with names that are added to those read so far.

ghost use Rattle.std.specs.Prelude.{◌≡◌, ◌≤◌, [], ◌∷◌, ◌++◌, length, map, MatchResult, None, OnOk, ⊤};
ghost use Rattle.abl_base.specs.declared.limits.TheConstants.{MAX_NAME_BYTES};
ghost use Rattle.abl_values.specs.Schema.{number_of_name};
ghost use Rattle.schema_text.specs.declared.unread.Unread.TheVariants.{NoMemory};

use crate::unread::Unread;
use abl_values::{HasName, NameFault, Named};

/// Adds an item, where no item has its name.
pub fn add<T: HasName>(items: &mut Named<T>, item: T) -> Result<(), Unread>
    ensures added { OnOk result (items.new ≡ items.old ++ item ∷ []) }
    ensures free { OnOk result (number_of_name 0 (map T.name_of items.old) (T.name_of item) ≡ None) }
    ensures refused { length (T.name_of item) ≤ MAX_NAME_BYTES → number_of_name 0 (map T.name_of items.old) (T.name_of item) ≡ None → MatchResult result (λ _. ⊤) (λ fault. fault ≡ NoMemory) }
{
    match items.push(item) {
        Ok(()) => Ok(()),
        Err(NameFault::NoMemory) => Err(Unread::NoMemory),
        Err(NameFault::TooLong) | Err(NameFault::Taken) => Err(Unread::NotCanonical),
    }
}
