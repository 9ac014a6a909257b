//! The names of the internal procedures so far, each found in any case.

ghost use Rattle.std.specs.List.{list_any};
ghost use Rattle.std.specs.Prelude.{◌≡◌, ◌∷◌, ◌++◌, [], IfOk, List, ℕ};
ghost use Rattle.abl_values.specs.Schema.{same_name};
ghost use Rattle.binder.specs.Taken.{Finds};

use abl_base::{Bytes, Items, MAX_NAME_BYTES};
use abl_values::{HasName, NameFault, Named, same_name};
use bind_names::BindFault;
use std::alloc::Global;
use std::marker::Model;

/// The name of an internal procedure, as it is spelt.
#[derive(Drop)]
pub struct ProcedureName {
    pub spelling: Bytes,
}

impl HasName for ProcedureName {
    ghost name_of = { λ item. item.spelling };

    fn name(&self) -> &[u8] {
        self.spelling.as_slice()
    }
}

/// The names of the internal procedures so far, in text order. Those of at most `MAX_NAME_BYTES`
/// bytes, which the names of every source are, are found by an index.
#[derive(Drop)]
pub struct TakenNames {
    names: Items<Bytes>,
    found: Named<ProcedureName>,
}

impl Model for TakenNames {
    ghost use Rattle.std.specs.Prelude.{List, ℕ};
    ghost use Rattle.binder.specs.Taken.{Finds};

    ghost Value = { List (List ℕ) };

    ghost view = { λ taken. taken.names };

    ghost invariant = { λ taken. Finds taken.found taken.names };
}

/// Whether one of the names is this one, in any case.
fn is_among(names: &[Bytes], name: &[u8]) -> bool
    ensures { result ≡ list_any (λ n. same_name n name.now) names.now }
{
    for one in names {
        if same_name(one.as_slice(), name) {
            return true;
        }
    }
    false
}

/// The index with one more name, unless it finds this one or the name is too long for it.
fn indexed(found: Named<ProcedureName>, name: &Bytes) -> Result<Named<ProcedureName>, BindFault>
    ensures { (names : List (List ℕ)) → Finds found names → IfOk result (λ more. Finds more (names ++ name.now ∷ [])) }
{
    let mut found = found;
    let one = ProcedureName {
        spelling: name.copy()?,
    };
    match found.push(one) {
        Ok(()) => Ok(found),
        Err(NameFault::Taken) => Ok(found),
        Err(NameFault::TooLong) => Ok(found),
        Err(NameFault::NoMemory) => Err(BindFault),
    }
}

impl TakenNames {
    /// No names.
    pub fn empty(alloc: Global) -> TakenNames
        ensures { result ≡ [] }
    {
        TakenNames {
            names: Items::empty(alloc),
            found: Named::empty(alloc),
        }
    }

    /// Whether one of the names is this one, in any case.
    pub fn has(&self, name: &[u8]) -> bool
        ensures { result ≡ list_any (λ n. same_name n name.now) self.now }
    {
        if name.len() <= MAX_NAME_BYTES {
            return self.found.find(name).is_some();
        }
        is_among(self.names.as_slice(), name)
    }

    /// These names and one more.
    pub fn with(self, name: &Bytes) -> Result<TakenNames, BindFault>
        ensures { IfOk result (λ taken. taken ≡ self ++ name.now ∷ []) }
    {
        let TakenNames { names, found } = self;
        let mut names = names;
        let found = indexed(found, name)?;
        names.push(name.copy()?)?;
        Ok(TakenNames { names, found })
    }
}
