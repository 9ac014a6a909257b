//! What is noted on the way over a source.

ghost use Rattle.std.specs.Prelude.{◌≡◌, ◌++◌, ◌∷◌, [], Some, OnOk};
ghost use Rattle.abl_base.specs.declared.place.Place.{Place as ThePlace};
ghost use Rattle.bind_names.specs.declared.violation.Violation.{Violation as TheViolation};
ghost use Rattle.bind_names.specs.Judged.{at, earlier, first_of, unless};

use crate::fault::BindFault;
use crate::names::Naming;
use crate::violation::{Violation, earlier};
use abl_base::{Items, Place, Rule};
use std::alloc::Global;

/// The first violation so far, and the namings of buffers in the order of the text.
#[derive(Drop)]
pub struct Notes {
    pub first: Option<Violation>,
    pub names: Items<Naming>,
}

impl Notes {
    /// A rule is broken there.
    pub fn broken(&mut self, rule: Rule, place: Place)
        ensures first { self.new.first ≡ first_of self.old.first (at rule place) }
        ensures names { self.new.names ≡ self.old.names }
    {
        let violation = Violation { rule, place };
        self.first = Some(earlier(self.first, violation));
    }

    /// A rule is broken there unless the condition holds.
    pub fn unless(&mut self, holds: bool, rule: Rule, place: Place)
        ensures first { self.new.first ≡ first_of self.old.first (unless holds rule place) }
        ensures names { self.new.names ≡ self.old.names }
    {
        if !holds {
            self.broken(rule, place);
        }
    }

    /// A buffer is named.
    pub fn named(&mut self, naming: Naming) -> Result<(), BindFault>
        ensures first { self.new.first ≡ self.old.first }
        ensures names { OnOk result (self.new.names ≡ self.old.names ++ naming ∷ []) }
    {
        self.names.push(naming)?;
        Ok(())
    }
}
