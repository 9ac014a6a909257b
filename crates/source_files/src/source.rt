//! A source, from its texts to its tree and its code.

ghost use Rattle.std.specs.Prelude.{◌≡◌, ◌≤◌, ◌⊎◌, IfErr, IfOk, length};
ghost use Rattle.bound_tree.specs.Bound.{source_of};
ghost use Rattle.run_report.specs.declared.refusal.Refusal.TheVariants.{NoMemory, Source};
ghost use Rattle.source_files.specs.Compiled.{BreaksSource, IsCodeOf, IsSourceTree};
ghost use Rattle.source_files.specs.Expansions.{IsExpanded, expanded, file_of};

use crate::files::MAX_FILE_BYTES;
use crate::texts::SourceTexts;
use abl_base::Rule;
use abl_values::Schema;
use block_code::{Code, compile};
use bound_tree::Bound;
use preprocessor::Origin;
use run_report::Refusal;
use source_reader::{SourceFault, read_source};
use std::alloc::Global;

/// The refusal of the source of this number, which breaks the rule there; or out of memory.
fn refusal_at(alloc: Global, number: u16, source: &SourceTexts, rule: Rule, at: Origin) -> Refusal
    ensures { (result ≡ NoMemory) ⊎ (result ≡ Source number (file_of source.now at.text) rule at.place) }
{
    match source.file(alloc, at.text) {
        Ok(file) => Refusal::Source {
            client: number,
            file,
            rule,
            place: at.place,
        },
        Err(_) => Refusal::NoMemory,
    }
}

/// The tree of the source of this number over the schema, or the first rule that it breaks, with the
/// file and the place: a rule E, else a rule L, else G, else Y, else S, else U of its expansion. Out of
/// memory may come at any time.
pub fn read_tree(
    alloc: Global,
    schema: &Schema,
    number: u16,
    source: &SourceTexts,
) -> Result<Bound, Refusal>
    ensures tree { IfOk result (λ bound. IsSourceTree schema.now source.now (source_of bound)) }
    ensures refused { IfErr result (BreaksSource schema.now number source.now) }
{
    match source.text() {
        Ok(text) => read_expansion(alloc, schema, number, source, text),
        Err(violation) => Err(refusal_at(alloc, number, source, violation.rule, violation.at)),
    }
}

/// The tree of the source whose expansion is this text, or the first rule that the text breaks.
fn read_expansion(
    alloc: Global,
    schema: &Schema,
    number: u16,
    source: &SourceTexts,
    text: &[u8],
) -> Result<Bound, Refusal>
    requires expands { IsExpanded source.now }
    requires is { text.now ≡ expanded source.now }
    requires short { length text.now ≤ MAX_FILE_BYTES }
    ensures tree { IfOk result (λ bound. IsSourceTree schema.now source.now (source_of bound)) }
    ensures refused { IfErr result (BreaksSource schema.now number source.now) }
{
    match read_source(alloc, schema, text) {
        Ok(bound) => Ok(bound),
        Err(SourceFault::Broken { rule, place }) => {
            let at = source.origin(place);
            Err(refusal_at(alloc, number, source, rule, at))
        }
        Err(SourceFault::NoMemory) => Err(Refusal::NoMemory),
    }
}

/// The code of the source of this number over the schema, or the first rule that it breaks, as
/// `read_tree` says. Out of memory may come at any time.
pub fn compile_source(
    alloc: Global,
    schema: &Schema,
    number: u16,
    source: &SourceTexts,
) -> Result<Code, Refusal>
    ensures code { IfOk result (IsCodeOf schema.now source.now) }
    ensures refused { IfErr result (BreaksSource schema.now number source.now) }
{
    let bound = read_tree(alloc, schema, number, source)?;
    match compile(alloc, bound) {
        Ok(code) => Ok(code),
        Err(_) => Err(Refusal::NoMemory),
    }
}
