//! The slots of a new database.

ghost use Rattle.std.specs.Prelude.{◌≡◌, ◌≤◌, ◌<◌, ◌^◌, ℕ, true, length, IfOk};
ghost use Rattle.storage.specs.Slots.{wrote};
ghost use Rattle.abl_values.specs.Schema.{canonical_text};
ghost use Rattle.database_layout.specs.contents.Contents.{AreNew};
ghost use Rattle.database_layout.specs.fresh.Laying.{laid};

use crate::fresh::text_slots::push_text;
use crate::fresh::value_slots::{first_values, push_values};
use abl_values::Schema;
use sequence_slots::have_64_bits;
use std::alloc::{AllocError, Global};
use storage::Undo;

/// The slots of a new database with this schema, as writes over slots of zeros: the text of the
/// schema and the initial values of its sequences. Out of memory is the only refusal.
pub fn new_slots(schema: &Schema, alloc: Global) -> Result<Vec<Undo>, AllocError>
    requires short { length (canonical_text schema.now) ≤ 1048576 }
    requires few { length schema.now.sequences ≤ 256 }
    ensures new { IfOk result (λ slots. AreNew schema.now (laid slots.items)) }
    ensures small { IfOk result (λ slots. (slot : ℕ) → wrote slots.items slot ≡ true → slot < 2 ^ 20) }
{
    let text = schema.canonical()?;
    let values = first_values(schema, alloc)?;
    have_64_bits(&values);
    let mut slots = Vec::new(alloc);
    push_text(&mut slots, text.as_slice())?;
    push_values(&mut slots, &values)?;
    Ok(slots)
}
