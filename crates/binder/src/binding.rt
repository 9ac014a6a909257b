//! The binder of a whole source.

ghost use Rattle.std.specs.Prelude.{◌≡◌, Err, IfOk, Ok};
ghost use Rattle.syntax_tree.specs.Typed.{program_of};
ghost use Rattle.bind_names.specs.declared.violation.Violation.{Violation as TheViolation};
ghost use Rattle.bound_tree.specs.Bound.{source_of};
ghost use Rattle.binder.specs.Sources.{bound, judged, signatures};

use crate::counting::with_too_many;
use crate::signatures::signatures;
use crate::sources::judged;
use abl_base::{Items, Place, Rule};
use abl_values::Schema;
use bind_names::{BindFault, Listed, Naming, Notes, Signature, Violation};
use bound_tree::Bound;
use std::alloc::Global;
use syntax_tree::Program;

/// Why a source is not bound.
#[derive(Clone, Copy, PartialEq, Eq)]
pub enum TypeRefusal {
    /// The first of the rules Y1 to Y14 that it breaks, and its place.
    Broken(Violation),
    /// Out of memory, or a count does not fit its type.
    NoMemory,
}

impl From<BindFault> for TypeRefusal {
    ghost use Rattle.std.specs.Prelude.{◌≡◌};
    ghost use Rattle.binder.specs.declared.binding.TypeRefusal.TheVariants.{NoMemory};

    ghost from_gives = { λ _ e. e ≡ NoMemory };

    fn from(_: BindFault) -> TypeRefusal {
        TypeRefusal::NoMemory
    }
}

/// The namings of buffers in a source, where these were known before. It begins with a violation before
/// each place of a source, since past the first one no name is compared for rule Y3.
fn namings(
    alloc: Global,
    schema: &Schema,
    program: &Program,
    said: &[Naming],
    procedures: &Listed<Signature>,
) -> Result<Items<Naming>, BindFault>
    ensures { procedures.now ≡ signatures (program_of program.now) → IfOk result (λ r. r ≡ (judged schema.now (program_of program.now) said.now).names) }
{
    let before_all = Violation {
        rule: Rule::Y1,
        place: Place { line: 0, column: 0 },
    };
    let mut notes = Notes {
        first: Some(before_all),
        names: Items::empty(alloc),
    };
    let _ = judged(alloc, schema, program, said, procedures, &mut notes)?;
    let Notes { names, .. } = notes;
    Ok(names)
}

/// The bound tree of a source with these internal procedures, or the first violation.
fn bound_with(
    alloc: Global,
    schema: &Schema,
    program: &Program,
    procedures: &Listed<Signature>,
) -> Result<Bound, TypeRefusal>
    ensures ok { procedures.now ≡ signatures (program_of program.now) → IfOk result (λ r. bound schema.now (program_of program.now) ≡ Ok (source_of r)) }
    ensures broken { (v : TheViolation) → procedures.now ≡ signatures (program_of program.now) → result ≡ Err (TypeRefusal.Broken v) → bound schema.now (program_of program.now) ≡ Err v }
{
    let explicit = namings(alloc, schema, program, &[], procedures)?;
    let said = namings(alloc, schema, program, explicit.as_slice(), procedures)?;
    let mut notes = Notes {
        first: None,
        names: Items::empty(alloc),
    };
    let tree = judged(
        alloc,
        schema,
        program,
        said.as_slice(),
        procedures,
        &mut notes,
    )?;
    let first = with_too_many(alloc, notes.first, notes.names.as_slice())?;
    match first {
        None => Ok(tree),
        Some(violation) => Err(TypeRefusal::Broken(violation)),
    }
}

/// The bound tree of a source that breaks none of the rules Y; else the first violation, by place
/// and then by number. The source is walked three times: for the explicit namings of buffers, for
/// all namings, and for the tree.
pub fn bind(alloc: Global, schema: &Schema, program: &Program) -> Result<Bound, TypeRefusal>
    ensures ok { IfOk result (λ r. bound schema.now (program_of program.now) ≡ Ok (source_of r)) }
    ensures broken { (v : TheViolation) → result ≡ Err (TypeRefusal.Broken v) → bound schema.now (program_of program.now) ≡ Err v }
{
    let procedures = signatures(alloc, program)?;
    bound_with(alloc, schema, program, &procedures)
}
