//! What IMPORT reads for its targets.

ghost use Rattle.std.specs.Prelude.{◌≡◌, IfOk, map};
ghost use Rattle.value_formats.specs.Imports.{line_at};
ghost use Rattle.block_meaning.specs.Streams.{kinds_of};
ghost use Rattle.client_streams.specs.lines.Imports.{kind_if, ReadsLine};

use abl_base::Kind;
use bound_tree::Target;
use std::alloc::{AllocError, Global};
use value_formats::{ImportFault, Imported, import_line};

/// Reads the line that begins at `from` for these targets; `^`, a target that is None, passes over
/// one element. Refusals: `AtEnd` exactly where the input is at its end there, also at a place
/// beyond it; `BadField` exactly at the first element that is no text of its target's kind; else
/// out of memory. (OpenEdge ABL Reference, IMPORT.)
pub fn read_line(
    alloc: Global,
    input: &[u8],
    from: usize,
    targets: &[Option<Target>],
) -> Result<Imported, ImportFault>
    ensures { ReadsLine result (line_at input.now from (kinds_of targets.now)) }
{
    if from >= input.len() {
        return Err(ImportFault::AtEnd);
    }
    let kinds = kinds(alloc, targets)?;
    import_line(alloc, input, from, kinds.as_slice())
}

/// The kinds of the targets.
fn kinds(alloc: Global, targets: &[Option<Target>]) -> Result<Vec<Option<Kind>>, AllocError>
    ensures { IfOk result (λ kinds. kinds.items ≡ map kind_if targets.now) }
{
    let mut kinds = Vec::with_capacity(alloc, targets.len())?;
    for target in targets {
        kinds.push(kind(*target))?;
    }
    Ok(kinds)
}

/// The kind of a target, and none of `^`.
fn kind(target: Option<Target>) -> Option<Kind>
    ensures { result ≡ kind_if target }
{
    match target {
        Some(Target::Variable(variable)) => Some(variable.kind),
        Some(Target::Field { kind, .. }) => Some(kind),
        None => None,
    }
}
