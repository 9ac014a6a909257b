//! The fields of a table.

ghost use Rattle.std.specs.Prelude.{◌≡◌, ◌<◌, ◌≤◌, ◌++◌, List, ℕ, false, length, IfOk, MatchResult};
ghost use Rattle.std.specs.List.{flat_map};
ghost use Rattle.abl_values.specs.declared.schema.FieldDef.{FieldDef};
ghost use Rattle.abl_values.specs.Schema.{field_line};
ghost use Rattle.abl_values.specs.Sound.{IsSoundField};
ghost use Rattle.schema_text.specs.Words.{begins};
ghost use Rattle.schema_text.specs.Written.{AreFields, AreWrittenFields, IsWrittenField};
ghost use Rattle.schema_text.specs.declared.unread.Unread.TheVariants.{NoMemory};

use crate::adding::add;
use crate::unread::Unread;
use crate::values::value_at;
use crate::words::{begins, field_head};
use abl_base::Items;
use abl_base::limits::MAX_FIELDS;
use abl_values::{FieldDef, Named};
use std::alloc::Global;

/// The fields whose lines the text begins with, and what follows them.
pub fn fields_at(alloc: Global, text: &[u8]) -> Result<(Named<FieldDef>, &[u8]), Unread>
    ensures fields { (fields : List FieldDef) → (rest : List ℕ) → AreWrittenFields fields → begins 70 rest ≡ false → text.now ≡ flat_map field_line fields ++ rest → MatchResult result (λ read. (read.0 ≡ fields) × (read.1.now ≡ rest)) (λ fault. fault ≡ NoMemory) }
    ensures sound { IfOk result (λ read. AreFields read.0) }
    ensures within { IfOk result (λ read. length read.1.now ≤ length text.now) }
{
    let mut fields = Named::empty(alloc);
    let mut rest = text;
    while begins(b'F', rest) {
        if fields.len() >= MAX_FIELDS {
            return Err(Unread::NotCanonical);
        }
        let (field, after) = field_at(alloc, rest)?;
        add(&mut fields, field)?;
        rest = after;
    }
    Ok((fields, rest))
}

/// The field whose line the text begins with, and what follows the line.
fn field_at(alloc: Global, text: &[u8]) -> Result<(FieldDef, &[u8]), Unread>
    ensures field { (field : FieldDef) → (rest : List ℕ) → IsWrittenField field → text.now ≡ field_line field ++ rest → MatchResult result (λ read. (read.0 ≡ field) × (read.1.now ≡ rest)) (λ fault. fault ≡ NoMemory) }
    ensures sound { IfOk result (λ read. IsSoundField read.0) }
    ensures shorter { IfOk result (λ read. length read.1.now < length text.now) }
{
    let Some(head) = field_head(text) else {
        return Err(Unread::NotCanonical);
    };
    let (initial, rest) = value_at(alloc, head.kind, head.rest)?;
    let name = Items::of(alloc, head.name)?;
    let field = FieldDef {
        name,
        kind: head.kind,
        initial,
        mandatory: head.mandatory,
        mask: Items::empty(alloc),
    };
    Ok((field, rest))
}
