//! The first violation so far.

ghost use Rattle.std.specs.Prelude.{◌≡◌};
ghost use Rattle.bind_names.specs.Judged.{at, first_of, unless};
ghost use Rattle.abl_base.specs.declared.place.Place.{Place as ThePlace};

use abl_base::{Place, Rule};
use bind_names::Violation;
use bind_names::violation::earlier;

/// A rule is broken there.
pub fn broken(first: &mut Option<Violation>, rule: Rule, place: Place)
    ensures { first.new ≡ first_of first.old (at rule place) }
{
    let violation = Violation { rule, place };
    *first = Some(earlier(*first, violation));
}

/// A rule is broken there unless the condition holds.
pub fn unless(first: &mut Option<Violation>, holds: bool, rule: Rule, place: Place)
    ensures { first.new ≡ first_of first.old (unless holds rule place) }
{
    if !holds {
        broken(first, rule, place);
    }
}
