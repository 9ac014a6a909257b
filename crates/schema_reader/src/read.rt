//! Schema files, whole.

ghost use Rattle.std.specs.Prelude.{◌≡◌, ℕ, Err, None, Some, IfOk};
ghost use Rattle.abl_base.specs.declared.rule.Rule.{Rule};
ghost use Rattle.schema_lines.specs.Files.{items_of};
ghost use Rattle.schema_reader.specs.Meaning.{schema_of};
ghost use Rattle.schema_reader.specs.Rules.{violation_of};

use crate::conditions::first_violation;
use crate::meaning::schema_of;
use abl_base::Rule;
use abl_values::Schema;
use schema_lines::files::items_of;
use std::alloc::{AllocError, Global};

/// Why a schema file has no schema.
#[derive(Clone, Copy, Debug, PartialEq, Eq)]
pub enum SchemaRefusal {
    /// The first line that breaks a rule, counted from 1, and the least rule, F1 to F12, that it
    /// breaks.
    Broken { rule: Rule, line: u32 },
    /// There is no memory for the schema.
    NoMemory,
}

impl From<AllocError> for SchemaRefusal {
    ghost use Rattle.schema_reader.specs.declared.read.SchemaRefusal.TheVariants.{NoMemory};

    ghost from_gives = { λ _ e. e ≡ NoMemory };

    fn from(_error: AllocError) -> Self {
        SchemaRefusal::NoMemory
    }
}

/// The schema that the file means, or the first violation: the first line that breaks a rule F1 to
/// F12, and the least rule that it breaks. The schema comes exactly where the file breaks no rule.
/// NoMemory may come in place of either, and comes for a file of 2^32 lines or more, whose line
/// numbers do not fit. (OpenEdge, data definition files; what of them is read, skipped and refused is this
/// project's choice.)
#[tactic(auto, unfolding(crate::specs::Rules::violation_of))]
pub fn read_df(alloc: Global, text: &[u8]) -> Result<Schema, SchemaRefusal>
    ensures schema { IfOk result (λ schema. schema ≡ schema_of (items_of text.now)) }
    ensures clean { IfOk result (λ schema. violation_of text.now ≡ None) }
    ensures broken { (rule : Rule) (line : ℕ) → result ≡ Err (SchemaRefusal.Broken rule line) → violation_of text.now ≡ Some (record { rule = rule; line = line }) }
{
    let items = items_of(alloc, text)?;
    if let Some(violation) = first_violation(alloc, items.as_slice())? {
        return Err(SchemaRefusal::Broken {
            rule: violation.rule,
            line: violation.line,
        });
    }
    Ok(schema_of(alloc, items.as_slice())?)
}
