//! The number of buffers of a source: Y14 at the first naming of each one after the 64th.

ghost use Rattle.std.specs.List.{list_any};
ghost use Rattle.std.specs.Prelude.{◌≡◌, ◌≤◌, ◌++◌, ◌∷◌, [], IfOk, List, OnOk, Option};
ghost use Rattle.bind_names.specs.declared.names.Naming.{Naming as TheNaming};
ghost use Rattle.bind_names.specs.declared.violation.Violation.{Violation as TheViolation};
ghost use Rattle.bind_names.specs.Judged.{first_of, is_before};
ghost use Rattle.binder.specs.Counted.{Stands, is_past};
ghost use Rattle.binder.specs.Sources.{is_same_buffer, too_many_buffers};

use abl_base::{Items, Place, Rule};
use abl_values::same_name;
use bind_names::violation::earlier;
use bind_names::{BindFault, Naming, Violation};
use std::alloc::Global;

/// The most buffers of a source.
const MAX_BUFFERS: usize = 64;

/// The first violation so far, the number of buffers, at most 64, and the first naming of each.
#[derive(Drop)]
pub struct Counted {
    pub first: Option<Violation>,
    pub count: usize,
    pub before: Items<Naming>,
}

/// A naming as it is.
pub fn copy_of(naming: &Naming) -> Result<Naming, BindFault>
    ensures { IfOk result (λ n. n ≡ naming.now) }
{
    Ok(Naming {
        procedure: naming.procedure,
        name: naming.name.copy()?,
        table: naming.table,
        kind: naming.kind,
        explicit: naming.explicit,
        block: naming.block,
        place: naming.place,
    })
}

/// Whether two namings are of one buffer of a procedure.
fn is_same_buffer(n: &Naming, m: &Naming) -> bool
    ensures { result ≡ is_same_buffer n.now m.now }
{
    n.procedure == m.procedure && same_name(n.name.as_slice(), m.name.as_slice())
}

/// Whether the buffer of a naming is named among these.
fn is_named(naming: &Naming, before: &[Naming]) -> bool
    ensures { result ≡ list_any (is_same_buffer naming.now) before.now }
{
    for one in before {
        if is_same_buffer(naming, one) {
            return true;
        }
    }
    false
}

/// Whether a place is before another in the text.
fn is_before(p: Place, q: Place) -> bool
    ensures { result ≡ is_before p q }
{
    p.line < q.line || (p.line == q.line && p.column < q.column)
}

/// Whether the first violation so far is before this place.
fn is_past(first: Option<Violation>, place: Place) -> bool
    ensures { result ≡ is_past first place }
{
    match first {
        None => false,
        Some(violation) => is_before(violation.place, place),
    }
}

/// One more naming. Past the 64th buffer a naming after the first violation is not compared with
/// those before it, since no violation there can be the first.
fn count(counted: &mut Counted, naming: &Naming) -> Result<(), BindFault>
    ensures { (first : Option TheViolation) (all left : List TheNaming) → Stands first all (naming.now ∷ left) counted.old → OnOk result (Stands first all left counted.new) }
{
    if counted.count == MAX_BUFFERS && is_past(counted.first, naming.place) {
        counted.before.push(copy_of(naming)?)?;
        return Ok(());
    }
    if is_named(naming, counted.before.as_slice()) {
        return Ok(());
    }
    counted.before.push(copy_of(naming)?)?;
    if counted.count < MAX_BUFFERS {
        counted.count += 1;
        return Ok(());
    }
    let violation = Violation {
        rule: Rule::Y14,
        place: naming.place,
    };
    counted.first = Some(earlier(counted.first, violation));
    Ok(())
}

/// The first violation, where Y14 is broken at the first naming of each buffer after the 64th.
pub fn with_too_many(
    alloc: Global,
    first: Option<Violation>,
    names: &[Naming],
) -> Result<Option<Violation>, BindFault>
    ensures { IfOk result (λ r. r ≡ first_of first (too_many_buffers names.now)) }
{
    let mut counted = Counted {
        first,
        count: 0,
        before: Items::empty(alloc),
    };
    for naming in names {
        count(&mut counted, naming)?;
    }
    let Counted { first: found, .. } = counted;
    Ok(found)
}
