//! The order of values in an index.

ghost use Rattle.std.specs.Prelude.{◌≡◌, map};
ghost use Rattle.std.specs.Cmp.Lexicographic.{slice_cmp};
ghost use Rattle.std.specs.Ordering.{nat_cmp, int_cmp, ordering_then};
ghost use Rattle.abl_values.specs.Order.{class_of, compared_text, folded, folded_byte, rank_of, scaled, value_order, without_trailing};

use abl_base::Value;
use abl_base::limits::DECIMAL_SCALE;
use std::cmp::Ordering;

/// The order of two values in an index: `?` is above all other values and level with itself, no is
/// below yes, numbers of all kinds compare by value, dates by day, and texts by their bytes, with
/// ASCII letters folded to lower case and without trailing blanks. A program never compares values
/// of different classes (texts, numbers, LOGICALs, DATEs) unless one of them is `?`; here they
/// compare by class. (OpenEdge ABL Reference, Indexes; the place of `?` is this project's
/// choice.)
#[tactic(auto, unfolding(crate::specs::Order::value_order))]
pub fn compare(a: &Value, b: &Value) -> Ordering
    ensures { result ≡ value_order a.now b.now }
{
    match (a, b) {
        (Value::Text(s), Value::Text(t)) => compare_texts(s.as_slice(), t.as_slice()),
        (Value::Int(x), Value::Int(y)) => compare_whole(i64::from(*x), i64::from(*y)),
        (Value::Int64(x), Value::Int64(y)) => compare_whole(*x, *y),
        _ => compare_ranks(a, b),
    }
}

/// The order of two whole numbers, which is that of their ranks.
fn compare_whole(x: i64, y: i64) -> Ordering
    ensures { result ≡ int_cmp (scaled x) (scaled y) }
{
    x.cmp(&y)
}

/// The order of two values by class and then by rank.
fn compare_ranks(a: &Value, b: &Value) -> Ordering
    ensures { result ≡ ordering_then (nat_cmp (class_of a.now) (class_of b.now)) (int_cmp (rank_of a.now) (rank_of b.now)) }
{
    match class(a).cmp(&class(b)) {
        Ordering::Equal => rank(a).cmp(&rank(b)),
        order => order,
    }
}

/// The class of a value: texts, numbers, LOGICALs, DATEs and `?`, in this order.
fn class(value: &Value) -> u8
    ensures { result ≡ class_of value.now }
{
    match value {
        Value::Text(_) => 0,
        Value::Int(_) | Value::Int64(_) | Value::Dec(_) => 1,
        Value::Logical(_) => 2,
        Value::Date(_) => 3,
        Value::Unknown => 4,
    }
}

/// The number by which a value compares within its class, or 0 if there is none.
fn rank(value: &Value) -> i128
    ensures { result ≡ rank_of value.now }
{
    match value {
        Value::Int(n) => i128::from(*n) * DECIMAL_SCALE as i128,
        Value::Int64(n) => i128::from(*n) * DECIMAL_SCALE as i128,
        Value::Dec(n) => *n,
        Value::Logical(true) => 1,
        Value::Date(day) => i128::from(*day),
        _ => 0,
    }
}

/// The order of two texts.
fn compare_texts(s: &[u8], t: &[u8]) -> Ordering
    ensures { result ≡ slice_cmp nat_cmp (compared_text s.now) (compared_text t.now) }
{
    compare_folded(trimmed(s, b' '), trimmed(t, b' '))
}

/// The text without the run of this byte at its end.
pub(crate) fn trimmed(text: &[u8], dropped: u8) -> &[u8]
    ensures { result.now ≡ without_trailing dropped text.now }
{
    let mut end = text.len();
    while end > 0 && text[end - 1] == dropped {
        end -= 1;
    }
    &text[..end]
}

/// The byte, with an ASCII capital letter folded to lower case.
pub(crate) fn folded_byte(byte: u8) -> u8
    ensures { result ≡ folded_byte byte }
{
    if b'A' <= byte && byte <= b'Z' {
        byte + 32
    } else {
        byte
    }
}

/// The order of two texts by their folded bytes.
fn compare_folded(s: &[u8], t: &[u8]) -> Ordering
    ensures { result ≡ slice_cmp nat_cmp (folded s.now) (folded t.now) }
{
    let common = s.len().min(t.len());
    for i in 0..common {
        let order = folded_byte(s[i]).cmp(&folded_byte(t[i]));
        if order != Ordering::Equal {
            return order;
        }
    }
    s.len().cmp(&t.len())
}
