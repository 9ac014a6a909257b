//! What may be written into the slots of a database that no row uses.

ghost use Rattle.std.specs.Prelude.{◌≡◌, ◌≤◌, ◌<◌, ℕ, length, IfSome, IsTrue};
ghost use Rattle.abl_values.specs.Schema.{canonical_text};
ghost use Rattle.disk_database.specs.Parts.{AreValues, KeptSince, values_at};

use crate::text::fits;
use abl_base::limits::FIRST_ROW;
use abl_values::Schema;
use byteorder::{BigEndian, ByteOrder};
use guarded_slots::Guard;
use sequence_slots::{have_64_bits, slot_of};
use std::marker::{Brand, PhantomData};

/// The first slot of sequence values, and the first one after them.
const FIRST_VALUES: u32 = 5000;

const AFTER_VALUES: u32 = 5009;

/// The most values in a slot.
const MOST_VALUES: usize = 30;

/// What was so when a database was opened: its schema, and the images that a crash might leave then. It
/// is known only at the opening. Whoever opens picks it, and the type of the database carries it to the
/// closing.
pub trait Opening {
    ghost use Rattle.std.specs.Prelude.{ℕ};
    ghost use Rattle.abl_values.specs.Schema.{SchemaData};
    ghost use Rattle.log_meaning.specs.steps.Steps.{Image};

    ghost schema: { SchemaData };

    ghost images: { Image → Type 0 };
}

impl Opening for Brand {
    ghost use Rattle.std.specs.Prelude.{[]};

    ghost schema = { record { tables = []; sequences = []; order = [] } };

    ghost images = { λ image. Unit {0} };
}

/// The guard of a database's slots. It lets no write of the schema's text through, nor of a slot that
/// belongs to nothing, and into a slot of sequence values only as many values as belong in it.
#[derive(Drop)]
pub struct SlotGuard<K: Opening> {
    pub(crate) sequences: usize,
    pub(crate) of: PhantomData<K>,
    ghost count: { sequences ≡ length K.schema.sequences },
    ghost few: { sequences ≤ 256 },
    ghost short: { length (canonical_text K.schema) ≤ 1048576 },
}

impl<K: Opening> SlotGuard<K> {
    /// The guard of a database of this schema, if it is one that a database can have.
    pub(crate) fn new(schema: &Schema) -> Option<SlotGuard<K>>
        requires { K.schema ≡ schema.now }
    {
        if fits(schema) != Some(true) {
            return None;
        }
        Some(SlotGuard {
            sequences: schema.sequences().len(),
            of: PhantomData,
        })
    }

    /// The schema is one that a database can have.
    pub(crate) fn bounds(&self)
        ensures short { length (canonical_text K.schema) ≤ 1048576 }
        ensures few { length K.schema.sequences ≤ 256 }
    {}
}

/// How many of the given number of sequence values are in the slot with this number, counted from the
/// first of their slots.
fn count_at(sequences: usize, number: u32) -> usize
    requires { number < 9 }
    ensures is { result ≡ values_at sequences number }
    ensures most { result ≤ 30 }
{
    sequences
        .saturating_sub(MOST_VALUES * number as usize)
        .min(MOST_VALUES)
}

/// Whether the slot holds the given number of values, byte for byte.
fn are_values(count: usize, bytes: &[u8; 256]) -> bool
    requires { count ≤ 30 }
    ensures { IsTrue result → AreValues count bytes.now }
{
    let mut values = [0i64; MOST_VALUES];
    for number in 0..count {
        values[number] = BigEndian::read_i64(&bytes[16 + 8 * number..]);
    }
    let values = &values[..count];
    have_64_bits(values);
    slot_of(values) == *bytes
}

impl<K: Opening> Guard for SlotGuard<K> {
    ghost allowed = { λ guard k bytes. KeptSince K.schema K.images k bytes };

    fn allows(&self, slot: u32, bytes: &[u8; 256]) -> bool {
        if slot < FIRST_VALUES {
            return false;
        }
        if AFTER_VALUES <= slot {
            return FIRST_ROW <= slot;
        }
        let number = slot - FIRST_VALUES;
        are_values(count_at(self.sequences, number), bytes)
    }
}
