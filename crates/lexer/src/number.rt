//! Numbers and dates that words spell.

ghost use Rattle.std.specs.Prelude.{◌*◌, ◌+◌, ◌<◌, ◌≤◌, ◌≡◌, ◌^◌, length, true};
ghost use Rattle.std.specs.List.{list_all};
ghost use Rattle.lexer.specs.Bytes.{is_digit};
ghost use Rattle.lexer.specs.Forms.{is_dated};
ghost use Rattle.lexer.specs.Meanings.{date_of, days_in, is_date, is_leap, number_of, scaled_of, year_of};

use crate::bytes::{piece, rest_from};
use crate::word::digits_len;
use parse_tree::CivilDate;

/// The number that at most 18 digits spell.
pub fn number(digits: &[u8]) -> u64
    requires few { length digits.now ≤ 18 }
    requires digits { list_all is_digit digits.now ≡ true }
    ensures value { result ≡ number_of digits.now }
    ensures below { result < 10 ^ length digits.now }
{
    let mut n: u64 = 0;
    for b in digits {
        n = n * 10 + (*b - b'0') as u64;
    }
    n
}

/// The number times 10^10 that at most 18 digits before and 10 after the point spell.
pub fn scaled(before: &[u8], after: &[u8]) -> u128
    requires few_before { length before.now ≤ 18 }
    requires few_after { length after.now ≤ 10 }
    requires digits_before { list_all is_digit before.now ≡ true }
    requires digits_after { list_all is_digit after.now ≡ true }
    ensures { result ≡ scaled_of before.now after.now }
{
    let whole = number(before) as u128;
    let part = number(after) as u128;
    whole * 10_000_000_000 + part * ten_to(10 - after.len())
}

// 10 to the power of at most ten.
fn ten_to(power: usize) -> u128
    requires { power ≤ 10 }
    ensures value { result ≡ 10 ^ power }
    ensures below { result ≤ 10_000_000_000 }
{
    let mut n: u128 = 1;
    for _ in 0..power {
        n *= 10;
    }
    n
}

fn year(digits: &[u8]) -> u16
    requires few { length digits.now ≤ 4 }
    requires digits { list_all is_digit digits.now ≡ true }
    ensures { result ≡ year_of digits.now }
{
    let n = number(digits) as u16;
    if digits.len() != 2 {
        return n;
    }
    if n < 50 { 2000 + n } else { 1900 + n }
}

/// The month, day and year of a word that has the form of a date. A year of two digits is one of
/// 1950 to 2049.
pub fn date(word: &[u8]) -> CivilDate
    requires { is_dated word.now ≡ true }
    ensures { result ≡ date_of word.now }
{
    let n = digits_len(word);
    let day_year = rest_from(word, n + 1);
    let m = digits_len(day_year);
    CivilDate {
        month: number(piece(word, 0, n)) as u8,
        day: number(piece(day_year, 0, m)) as u8,
        year: year(rest_from(day_year, m + 1)),
    }
}

fn is_leap(year: u16) -> bool
    ensures { result ≡ is_leap year }
{
    (year % 4 == 0 && year % 100 != 0) || year % 400 == 0
}

fn days_in(month: u8, year: u16) -> u8
    ensures { result ≡ days_in month year }
{
    match month {
        2 => { if is_leap(year) { 29 } else { 28 } }
        4 | 6 | 9 | 11 => 30,
        _ => 31,
    }
}

/// Whether this is a date of the years 1 to 9999.
pub fn is_date(date: CivilDate) -> bool
    ensures { result ≡ is_date date }
{
    (1 <= date.month && date.month <= 12)
        && (1 <= date.day && date.day <= days_in(date.month, date.year))
        && (1 <= date.year && date.year <= 9999)
}
