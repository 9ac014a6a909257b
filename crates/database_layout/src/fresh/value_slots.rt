//! The slots of sequence values.

ghost use Rattle.std.specs.Prelude.{◌≡◌, ◌≤◌, ◌<◌, ℕ, List, map, length, IfOk, OnOk};
ghost use Rattle.sequence_slots.specs.Values.{part};
ghost use Rattle.database_layout.specs.contents.Contents.{initial_values};
ghost use Rattle.database_layout.specs.fresh.Laying.{LayText, Lay};

use abl_values::Schema;
use sequence_slots::slot_of;
use std::alloc::{AllocError, Global};
use storage::Undo;

/// The initial value of each sequence.
pub fn first_values(schema: &Schema, alloc: Global) -> Result<Vec<i64>, AllocError>
    ensures { IfOk result (λ values. values.items ≡ initial_values schema.now) }
{
    let mut values = Vec::new(alloc);
    for sequence in schema.sequences() {
        values.push(sequence.initial)?;
    }
    Ok(values)
}

/// The values of the slot with this number, counted from 0.
fn part_of(values: &[i64], i: u32) -> &[i64]
    requires { i < 9 }
    ensures { result.now ≡ part i values.now }
{
    let from = 30 * i as usize;
    if values.len() <= from {
        return &[];
    }
    if values.len() - from <= 30 {
        return &values[from..];
    }
    &values[from..from + 30]
}

/// Adds the nine slots of values to those of a text.
pub fn push_values(slots: &mut Vec<Undo>, values: &[i64]) -> Result<(), AllocError>
    ensures ok { OnOk result ((text : List ℕ) (count : ℕ) → count < 5000 → LayText text count count slots.old.items → Lay text count values.now 9 slots.new.items) }
{
    let mut i: u32 = 0;
    'values: while i < 9 {
        let slot = Undo {
            slot: 5000 + i,
            old: slot_of(part_of(values, i)),
        };
        slots.push(slot)?;
        i += 1;
    }
    Ok(())
}
