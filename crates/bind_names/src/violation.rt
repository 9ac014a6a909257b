//! The rules that a source breaks.

ghost use Rattle.std.specs.Prelude.{◌≡◌, Some};
ghost use Rattle.bind_names.specs.Judged.{comes_first, earlier, is_before, is_same_place, rule_number};

use abl_base::{Place, Rule};

/// A rule that is broken, and where.
#[derive(Clone, Copy, PartialEq, Eq)]
pub struct Violation {
    pub rule: Rule,
    pub place: Place,
}

/// The number in the name of a rule Y.
fn rule_number(rule: Rule) -> u8
    ensures { result ≡ rule_number rule }
{
    match rule {
        Rule::Y1 => 1,
        Rule::Y2 => 2,
        Rule::Y3 => 3,
        Rule::Y4 => 4,
        Rule::Y5 => 5,
        Rule::Y6 => 6,
        Rule::Y7 => 7,
        Rule::Y8 => 8,
        Rule::Y9 => 9,
        Rule::Y10 => 10,
        Rule::Y11 => 11,
        Rule::Y12 => 12,
        Rule::Y13 => 13,
        Rule::Y14 => 14,
        _ => 0,
    }
}

fn is_before(p: Place, q: Place) -> bool
    ensures { result ≡ is_before p q }
{
    p.line < q.line || (p.line == q.line && p.column < q.column)
}

fn is_same_place(p: Place, q: Place) -> bool
    ensures { result ≡ is_same_place p q }
{
    p.line == q.line && p.column == q.column
}

/// Whether the first comes first: at an earlier place, or at one place by the lesser number.
fn comes_first(v: Violation, w: Violation) -> bool
    ensures { result ≡ comes_first v w }
{
    is_before(v.place, w.place)
        || (is_same_place(v.place, w.place) && rule_number(v.rule) < rule_number(w.rule))
}

/// The earlier of the one so far, where there is one, and another.
pub fn earlier(so_far: Option<Violation>, v: Violation) -> Violation
    ensures { result ≡ earlier so_far v }
{
    match so_far {
        None => v,
        Some(w) => { if comes_first(v, w) { v } else { w } }
    }
}
