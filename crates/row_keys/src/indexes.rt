//! The list of all indexes.

ghost use Rattle.std.specs.Prelude.{◌≡◌, ◌<◌, ◌+◌, ℕ, List, None, length, IfOk, OnOk};
ghost use Rattle.row_indexes.specs.Places.{index_at, keepers_of, places_of};
ghost use Rattle.row_keys.specs.Numbers.{index_count};
ghost use Rattle.row_keys.specs.Blank.{AreBlank};

use abl_values::Schema;
use key_index::Index;
use std::alloc::{AllocError, Global};

/// The indexes of all tables, each with no entry. An error means out of memory.
pub fn new_indexes(alloc: Global, schema: &Schema) -> Result<Vec<Index>, AllocError>
    ensures count { IfOk result (λ indexes. length indexes.items ≡ index_count schema.now) }
    ensures places { IfOk result (λ indexes. (j : ℕ) (key : List ℕ) (row : ℕ) → places_of indexes.items j key row ≡ None) }
    ensures keepers { IfOk result (λ indexes. (j : ℕ) (key : List ℕ) → keepers_of indexes.items j key ≡ None) }
{
    let mut indexes = Vec::new(alloc);
    for table in 0..schema.tables() {
        push_indexes(&mut indexes, alloc, schema.indexes(table).len())?;
        indexes.push(Index::new(alloc))?;
    }
    Ok(indexes)
}

/// Adds this many indexes with no entry.
#[tactic(auto, using(crate::proofs::Blank::blank_more))]
fn push_indexes(indexes: &mut Vec<Index>, alloc: Global, count: usize) -> Result<(), AllocError>
    requires { AreBlank indexes.old.items }
    ensures blank { OnOk result (AreBlank indexes.new.items) }
    ensures count { OnOk result (length indexes.new.items ≡ length indexes.old.items + count) }
{
    for _ in 0..count {
        indexes.push(Index::new(alloc))?;
    }
    Ok(())
}

/// The index with this number.
pub(crate) fn index_at(indexes: &[Index], number: usize) -> &Index
    requires { number < length indexes.now }
    ensures { result.now ≡ index_at indexes.now number }
{
    &indexes[number]
}
