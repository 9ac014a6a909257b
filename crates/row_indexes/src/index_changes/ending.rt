//! The end of a client in all indexes.

ghost use Rattle.std.specs.Prelude.{◌≡◌, length};
ghost use Rattle.row_indexes.specs.Places.{keepers_of, places_of};
ghost use Rattle.row_indexes.specs.index_changes.Ending.{ended, freed};

use key_index::Index;

/// Removes the client's placeholders and frees the keys that it keeps, in all indexes. It takes no
/// memory.
pub fn end_all(indexes: &mut Vec<Index>, client: u16)
    ensures places { places_of indexes.new.items ≡ ended client (places_of indexes.old.items) }
    ensures keepers { keepers_of indexes.new.items ≡ freed client (keepers_of indexes.old.items) }
    ensures count { length indexes.new.items ≡ length indexes.old.items }
{
    for index in indexes.iter_mut() {
        index.end(client);
    }
}
