//! The namings of buffers in a source, those of each procedure together.

ghost use Rattle.std.specs.Prelude.{◌≡◌, ◌<◌, ◌++◌, ◌∷◌, [], IfOk, List, OnOk, length, slice_index_or, slice_set};
ghost use Rattle.bind_names.specs.declared.names.Naming.{Naming as TheNaming};
ghost use Rattle.binder.specs.Groups.{IsGrouped, IsGrouping, own_namings};

use crate::counting::copy_of;
use abl_base::Items;
use bind_names::{BindFault, Naming};
use std::alloc::Global;

/// The namings of a source: the list of number p has those in the procedure of number p, in text
/// order. Without it each procedure would read the namings of the whole source.
#[derive(Drop)]
pub struct Groups {
    pub namings: Vec<Items<Naming>>,
}

/// Adds empty lists up to that of a procedure.
fn fill(alloc: Global, groups: &mut Vec<Items<Naming>>, procedure: u32) -> Result<(), BindFault>
    ensures { (all left : List TheNaming) → IsGrouping all left groups.old.items → OnOk result (IsGrouping all left groups.new.items) }
{
    for _ in groups.len()..procedure as usize + 1 {
        groups.push(Items::empty(alloc))?;
    }
    Ok(())
}

/// Adds a naming to a list that is there.
fn put(groups: &mut Vec<Items<Naming>>, number: usize, naming: Naming) -> Result<(), BindFault>
    ensures within { OnOk result (number < length groups.old.items) }
    ensures put { OnOk result (groups.new.items ≡ slice_set groups.old.items number (slice_index_or groups.old.items number [] ++ naming ∷ [])) }
{
    match groups.get_mut(number) {
        Some(group) => {
            group.push(naming)?;
            Ok(())
        }
        None => Err(BindFault),
    }
}

/// One more naming, in the list of its procedure.
fn add(alloc: Global, groups: &mut Vec<Items<Naming>>, naming: &Naming) -> Result<(), BindFault>
    ensures { (all left : List TheNaming) → IsGrouping all (naming.now ∷ left) groups.old.items → OnOk result (IsGrouping all left groups.new.items) }
{
    fill(alloc, groups, naming.procedure)?;
    put(groups, naming.procedure as usize, copy_of(naming)?)
}

impl Groups {
    /// The namings of a source by their procedures.
    pub fn of(alloc: Global, said: &[Naming]) -> Result<Groups, BindFault>
        ensures { IfOk result (λ groups. IsGrouped said.now groups) }
    {
        let mut namings = Vec::new(alloc);
        for naming in said {
            add(alloc, &mut namings, naming)?;
        }
        Ok(Groups { namings })
    }

    /// Those in the procedure of this number.
    pub fn in_procedure(&self, procedure: u32) -> &[Naming]
        ensures { (said : List TheNaming) → IsGrouped said self.now → result.now ≡ own_namings procedure said }
    {
        match self.namings.get(procedure as usize) {
            Some(group) => group.as_slice(),
            None => &[],
        }
    }
}
