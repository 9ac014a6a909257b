//! The sequence values of the last commit.

ghost use Rattle.std.specs.Prelude.{◌≡◌, map, length, IfOk};
ghost use Rattle.indexed_store.specs.State.{initial_values};

use abl_values::Schema;
use std::alloc::{AllocError, Global};

/// The initial value of each sequence of the schema. An error means out of memory.
pub(crate) fn first_values(alloc: Global, schema: &Schema) -> Result<Vec<i64>, AllocError>
    ensures { IfOk result (λ values. values.items ≡ initial_values schema.now) }
{
    let mut values = Vec::new(alloc);
    for sequence in schema.sequences() {
        values.push(sequence.initial)?;
    }
    Ok(values)
}

/// Stores these values. It takes no memory.
pub(crate) fn store_values(values: &mut Vec<i64>, new: &[i64])
    requires { length values.old.items ≡ length new.now }
    ensures { values.new.items ≡ new.now }
{
    values.as_mut_slice().copy_from_slice(new);
}
