//! The buffers of the procedures of a source, by their namings.

ghost use Rattle.std.specs.Prelude.{◌≡◌, ◌∷◌, ◌++◌, [], IfOk, OnOk, map};
ghost use Rattle.bind_names.specs.Names.{buffers_in, distinct, named_in};
ghost use Rattle.binder.specs.Sources.{buffer_def, kind_of_reference, reference, references_in};

use bind_names::{BindFault, ByTable, Listed, NamedBuffer, Naming, NamingKind};
use bound_tree::{BufferDef, Reference, ReferenceKind};
use std::alloc::Global;

/// Adds the buffer of a naming, unless it is there.
#[tactic(auto, using(crate::proofs::Named::is_there))]
fn add(found: &mut Listed<NamedBuffer>, naming: &Naming) -> Result<(), BindFault>
    ensures { OnOk result (found.new ≡ distinct found.old (naming.now ∷ [])) }
{
    if found.find(naming.name.as_slice()).is_some() {
        return Ok(());
    }
    found.push(NamedBuffer {
        name: naming.name.copy()?,
        table: naming.table,
    })?;
    Ok(())
}

/// The buffers of a procedure, in the order of their first namings.
pub fn buffers_in(
    alloc: Global,
    procedure: u32,
    said: &[Naming],
) -> Result<Listed<NamedBuffer>, BindFault>
    ensures { IfOk result (λ r. r ≡ buffers_in procedure said.now) }
{
    let mut found = Listed::empty(alloc);
    for naming in said {
        if naming.procedure == procedure {
            add(&mut found, naming)?;
        }
    }
    Ok(found)
}

/// Those that it names explicitly, in the order of their first namings.
fn named_list(
    alloc: Global,
    procedure: u32,
    said: &[Naming],
) -> Result<Listed<NamedBuffer>, BindFault>
    ensures { IfOk result (λ r. r ≡ named_in procedure said.now) }
{
    let mut found = Listed::empty(alloc);
    for naming in said {
        if naming.explicit && naming.procedure == procedure {
            add(&mut found, naming)?;
        }
    }
    Ok(found)
}

/// Those that it names explicitly.
pub fn named_in(alloc: Global, procedure: u32, said: &[Naming]) -> Result<ByTable, BindFault>
    ensures { IfOk result (λ r. r ≡ named_in procedure said.now) }
{
    let list = named_list(alloc, procedure, said)?;
    Ok(ByTable::of(alloc, list)?)
}

/// A buffer as the bound tree has it.
fn buffer_def(buffer: &NamedBuffer) -> Result<BufferDef, BindFault>
    ensures { IfOk result (λ r. r ≡ buffer_def buffer.now) }
{
    Ok(BufferDef {
        name: buffer.name.copy()?,
        table: buffer.table,
    })
}

/// The buffers as the bound tree has them.
pub fn buffer_defs(alloc: Global, buffers: &[NamedBuffer]) -> Result<Vec<BufferDef>, BindFault>
    ensures { IfOk result (λ r. r.items ≡ map buffer_def buffers.now) }
{
    let mut defs = Vec::new(alloc);
    for buffer in buffers {
        let def = buffer_def(buffer)?;
        defs.push(def)?;
    }
    Ok(defs)
}

/// The kind of reference that a naming is, unless it is a definition.
fn kind_of_reference(kind: NamingKind) -> Option<ReferenceKind>
    ensures { result ≡ kind_of_reference kind }
{
    match kind {
        NamingKind::Definition => None,
        NamingKind::Strong => Some(ReferenceKind::Strong),
        NamingKind::Weak => Some(ReferenceKind::Weak),
        NamingKind::Free => Some(ReferenceKind::Free),
    }
}

/// Adds the reference that a naming is.
fn refer(
    found: &mut Vec<Reference>,
    buffers: &Listed<NamedBuffer>,
    naming: &Naming,
) -> Result<(), BindFault>
    ensures { OnOk result (found.new.items ≡ found.old.items ++ reference buffers.now naming.now (kind_of_reference naming.now.kind)) }
{
    let Some(kind) = kind_of_reference(naming.kind) else {
        return Ok(());
    };
    let number = buffers.find(naming.name.as_slice()).unwrap_or(0);
    let Ok(buffer) = u32::try_from(number) else {
        return Err(BindFault);
    };
    found.push(Reference {
        buffer,
        kind,
        block: naming.block,
        place: naming.place,
    })?;
    Ok(())
}

/// The references to buffers in a procedure with these buffers, in text order.
pub fn references_in(
    alloc: Global,
    procedure: u32,
    buffers: &Listed<NamedBuffer>,
    said: &[Naming],
) -> Result<Vec<Reference>, BindFault>
    ensures { IfOk result (λ r. r.items ≡ references_in procedure buffers.now said.now) }
{
    let mut found = Vec::new(alloc);
    for naming in said {
        if naming.procedure == procedure {
            refer(&mut found, buffers, naming)?;
        }
    }
    Ok(found)
}
