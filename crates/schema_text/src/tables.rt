//! Tables.

ghost use Rattle.std.specs.Prelude.{◌≡◌, ◌<◌, ◌≤◌, ◌++◌, List, ℕ, false, length, IfOk, MatchResult};
ghost use Rattle.abl_base.specs.declared.limits.TheConstants.{MAX_FIELDS};
ghost use Rattle.abl_values.specs.declared.schema.TableDef.{TableDef};
ghost use Rattle.abl_values.specs.Schema.{table_lines};
ghost use Rattle.abl_values.specs.Sound.{IsSoundTable};
ghost use Rattle.schema_text.specs.Words.{begins};
ghost use Rattle.schema_text.specs.Written.{IsHeldTable, IsWrittenTable};
ghost use Rattle.schema_text.specs.declared.unread.Unread.TheVariants.{NoMemory};

use crate::fields::fields_at;
use crate::indexes::{Indexes, indexes_at};
use crate::unread::Unread;
use crate::words::name_after;
use abl_base::Items;
use abl_values::TableDef;
use std::alloc::Global;

/// The table whose lines the text begins with, and what follows them.
pub fn table_at(alloc: Global, text: &[u8]) -> Result<(TableDef, &[u8]), Unread>
    ensures table { (table : TableDef) → (rest : List ℕ) → IsWrittenTable table → begins 70 rest ≡ false → begins 73 rest ≡ false → text.now ≡ table_lines table ++ rest → MatchResult result (λ read. (read.0 ≡ table) × (read.1.now ≡ rest)) (λ fault. fault ≡ NoMemory) }
    ensures sound { IfOk result (λ read. IsSoundTable read.0) }
    ensures held { IfOk result (λ read. IsHeldTable read.0) }
    ensures few { IfOk result (λ read. length read.0.fields ≤ MAX_FIELDS) }
    ensures shorter { IfOk result (λ read. length read.1.now < length text.now) }
{
    let Some(name) = name_after(b'T', b'\n', text) else {
        return Err(Unread::NotCanonical);
    };
    let (fields, end) = fields_at(alloc, name.rest)?;
    let Indexes {
        indexes,
        primary,
        rest,
    } = indexes_at(alloc, &fields, end)?;
    let name = Items::of(alloc, name.word)?;
    let table = TableDef {
        name,
        fields,
        indexes,
        primary,
    };
    Ok((table, rest))
}
