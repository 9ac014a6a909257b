//! The first violation of rules S so far.

ghost use Rattle.std.specs.Prelude.{◌≡◌};
ghost use Rattle.bind_names.specs.Judged.{is_before, is_same_place};
ghost use Rattle.buffer_scope.specs.First.{comes_first, earlier, first_of, rule_number};
ghost use Rattle.buffer_scope.specs.Rules.{where_true};

use abl_base::{Place, Rule};
use bind_names::Violation;

/// A rule is broken there, where this holds.
pub fn where_true(first: &mut Option<Violation>, holds: bool, rule: Rule, place: Place)
    ensures { first.new ≡ first_of first.old (where_true holds rule place) }
{
    if holds {
        let violation = Violation { rule, place };
        *first = Some(earlier(*first, violation));
    }
}

/// The earlier of the one so far, where there is one, and another.
fn earlier(so_far: Option<Violation>, v: Violation) -> Violation
    ensures { result ≡ earlier so_far v }
{
    match so_far {
        None => v,
        Some(w) => { if comes_first(v, w) { v } else { w } }
    }
}

/// Whether the first comes first: at an earlier place, or at one place by the lesser number.
fn comes_first(v: Violation, w: Violation) -> bool
    ensures { result ≡ comes_first v w }
{
    is_before(v.place, w.place)
        || (is_same_place(v.place, w.place) && rule_number(v.rule) < rule_number(w.rule))
}

fn is_before(p: Place, q: Place) -> bool
    ensures { result ≡ is_before p q }
{
    p.line < q.line || (p.line == q.line && p.column < q.column)
}

fn is_same_place(p: Place, q: Place) -> bool
    ensures { result ≡ is_same_place p q }
{
    p.line == q.line && p.column == q.column
}

/// The number in the name of a rule S.
fn rule_number(rule: Rule) -> u8
    ensures { result ≡ rule_number rule }
{
    match rule {
        Rule::S1 => 1,
        Rule::S2 => 2,
        Rule::S3 => 3,
        Rule::S4 => 4,
        _ => 0,
    }
}
