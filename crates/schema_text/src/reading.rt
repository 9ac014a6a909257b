//! The schema of a whole text.

ghost use Rattle.std.specs.Prelude.{◌≡◌, IfOk, IfSome, MatchResult, None};
ghost use Rattle.abl_values.specs.Schema.{SchemaData, canonical_text};
ghost use Rattle.abl_values.specs.Sound.{IsSound};
ghost use Rattle.schema_text.specs.Written.{IsHeld, IsWritten, told_schema};
ghost use Rattle.schema_text.specs.declared.unread.Unread.TheVariants.{NoMemory};

use crate::entries::{Entries, add_sequence, add_table};
use crate::unread::Unread;
use crate::words::begins;
use abl_base::Items;
use abl_values::{Named, Schema, same_bytes};
use std::alloc::{AllocError, Global};

/// The schema that this canonical text denotes, if it is the canonical text of a sound schema that a
/// `Schema` can hold; no two of its tables, of its sequences or of the indexes of a table have one
/// name, and it has at most 256 sequences. Its names are in small letters and it has no masks. Out of
/// memory is the only error.
pub fn read_canonical(alloc: Global, text: &[u8]) -> Result<Option<Schema>, AllocError>
    ensures some { IfOk result (λ found. IfSome found (λ schema. (canonical_text schema ≡ text.now) × IsHeld schema)) }
    ensures told { IfOk result (λ found. IfSome found (λ schema. told_schema schema ≡ schema)) }
    ensures none { IfOk result (λ found. found ≡ None → (schema : SchemaData) → IsSound schema → IsHeld schema → canonical_text schema ≡ text.now → ⊥) }
{
    match schema_at(alloc, text) {
        Ok(schema) => {
            let canonical = schema.canonical()?;
            if same_bytes(canonical.as_slice(), text) {
                Ok(Some(schema))
            } else {
                Ok(None)
            }
        }
        Err(Unread::NotCanonical) => Ok(None),
        Err(Unread::NoMemory) => Err(AllocError),
    }
}

/// The schema of the tables and sequences whose lines the text has. That its lines are those of
/// their canonical text is not tested here.
fn schema_at(alloc: Global, text: &[u8]) -> Result<Schema, Unread>
    ensures schema { (schema : SchemaData) → IsWritten schema → text.now ≡ canonical_text schema → MatchResult result (λ read. read ≡ schema) (λ fault. fault ≡ NoMemory) }
    ensures sound { IfOk result IsSound }
    ensures held { IfOk result IsHeld }
{
    let mut entries = Entries {
        tables: Named::empty(alloc),
        sequences: Named::empty(alloc),
        order: Items::empty(alloc),
    };
    let mut rest = text;
    while !rest.is_empty() {
        if begins(b'T', rest) {
            rest = add_table(alloc, &mut entries, rest)?;
        } else {
            rest = add_sequence(alloc, &mut entries, rest)?;
        }
    }
    let Entries {
        tables,
        sequences,
        order,
    } = entries;
    Ok(Schema::of(tables, sequences, order))
}
