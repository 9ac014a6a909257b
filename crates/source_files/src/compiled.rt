//! The schema and the codes that texts denote.

ghost use Rattle.std.specs.Prelude.{◌≡◌, ◌≤◌, ◌⊎◌, ◌++◌, ◌+◌, List, None, IfErr, IfOk, OnOk, length};
ghost use Rattle.schema_reader.specs.Rules.{violation_of};
ghost use Rattle.block_code.specs.declared.code.Code.{Code as TheCode};
ghost use Rattle.run_report.specs.declared.refusal.Refusal.TheVariants.{NoMemory};
ghost use Rattle.source_files.specs.Compiled.{BreaksSchema, HaveCodes, OneSourceBreaks, schema_in};

use crate::files::ClientTexts;
use crate::source::compile_source;
use abl_values::Schema;
use block_code::Code;
use run_report::Refusal;
use schema_reader::{SchemaRefusal, read_df};
use std::alloc::Global;

/// The schema of a run, and the codes of its sources.
#[derive(Drop)]
pub struct Compiled {
    pub schema: Schema,
    pub codes: Vec<Code>,
}

/// The schema of this text, and the codes of the sources over it.
pub fn compiled_in(alloc: Global, df: &[u8], texts: &[ClientTexts]) -> Result<Compiled, Refusal>
    requires { length texts.now ≤ 16 }
    ensures clean { OnOk result (violation_of df.now ≡ None) }
    ensures schema { IfOk result (λ compiled. compiled.schema ≡ schema_in df.now) }
    ensures codes { IfOk result (λ compiled. HaveCodes (schema_in df.now) texts.now compiled.codes.items) }
    ensures refused { IfErr result (λ refusal. (refusal ≡ NoMemory) ⊎ (BreaksSchema df.now refusal ⊎ ((violation_of df.now ≡ None) × OneSourceBreaks (schema_in df.now) 0 texts.now refusal))) }
{
    let schema = schema_of(alloc, df)?;
    let mut codes = Vec::new(alloc);
    match add_codes(alloc, &schema, texts, 0, &mut codes) {
        Ok(()) => Ok(Compiled { schema, codes }),
        Err(refusal) => Err(refusal),
    }
}

/// Adds the codes of the sources over the schema, numbered from this number.
fn add_codes(
    alloc: Global,
    schema: &Schema,
    texts: &[ClientTexts],
    number: u16,
    codes: &mut Vec<Code>,
) -> Result<(), Refusal>
    requires { number + length texts.now ≤ 16 }
    ensures codes { OnOk result ((more : List TheCode) × (codes.new.items ≡ codes.old.items ++ more) × HaveCodes schema.now texts.now more) }
    ensures refused { IfErr result (λ refusal. (refusal ≡ NoMemory) ⊎ OneSourceBreaks schema.now number texts.now refusal) }
{
    let Some((text, rest)) = texts.split_first() else {
        return Ok(());
    };
    let code = compile_source(alloc, schema, number, &text.source)?;
    let Ok(()) = codes.push(code) else {
        return Err(Refusal::NoMemory);
    };
    add_codes(alloc, schema, rest, number + 1, codes)
}

/// The schema that the text of a schema file denotes, or the first rule that it breaks.
pub fn schema_of(alloc: Global, text: &[u8]) -> Result<Schema, Refusal>
    ensures schema { IfOk result (λ schema. schema ≡ schema_in text.now) }
    ensures clean { OnOk result (violation_of text.now ≡ None) }
    ensures refused { IfErr result (BreaksSchema text.now) }
{
    match read_df(alloc, text) {
        Ok(schema) => Ok(schema),
        Err(SchemaRefusal::Broken { rule, line }) => Err(Refusal::Schema { rule, line }),
        Err(SchemaRefusal::NoMemory) => Err(Refusal::NoMemory),
    }
}
