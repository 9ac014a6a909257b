//! Texts that denote dates.

ghost use Rattle.std.specs.Prelude.{◌≡◌, ◌≤◌, MatchOption, length, take_while};
ghost use Rattle.abl_values.specs.Masks.{is_digit};
ghost use Rattle.abl_values.specs.Digits.{from_first_not};
ghost use Rattle.text_values.specs.TextValues.{after_slash, date_in, is_one_or_two, year_of};

use crate::digits::{all_digits, digits_len, small_number_of};
use abl_base::limits::FIRST_SHORT_YEAR;
use abl_values::date_of;

/// The day number of the date that a text denotes: month, day and year with `/` between, of one or
/// two, one or two, and two or four digits. A year of two digits is from `FIRST_SHORT_YEAR` to
/// `LAST_SHORT_YEAR`. `None` where the text denotes no date.
pub fn date_in(text: &[u8]) -> Option<i32>
    ensures { result ≡ date_in text.now }
{
    let (month, rest) = part_before_slash(text)?;
    let (day, year) = part_before_slash(rest)?;
    if !is_one_or_two(month) || !is_one_or_two(day) || !all_digits(year) {
        return None;
    }
    date_of(
        i64::from(small_number_of(month)),
        i64::from(small_number_of(day)),
        i64::from(year_of(year)?),
    )
}

/// The digits before a `/`, and the bytes after it.
fn part_before_slash(text: &[u8]) -> Option<(&[u8], &[u8])>
    ensures { MatchOption result (after_slash (from_first_not is_digit text.now) ≡ None) (λ parts.
        (parts.0.now ≡ take_while is_digit text.now) × (after_slash (from_first_not is_digit text.now) ≡ Some parts.1.now)) }
{
    let (digits, rest) = text.split_at(digits_len(text));
    match rest {
        [b'/', after @ ..] => Some((digits, after)),
        _ => None,
    }
}

fn is_one_or_two(digits: &[u8]) -> bool
    ensures { result ≡ is_one_or_two digits.now }
{
    digits.len() == 1 || digits.len() == 2
}

/// The year that two or four digits spell.
fn year_of(digits: &[u8]) -> Option<u32>
    ensures { result ≡ year_of digits.now }
{
    match digits.len() {
        2 => {
            let n = small_number_of(digits);
            Some(if 1900 + n < FIRST_SHORT_YEAR as u32 {
                2000 + n
            } else {
                1900 + n
            })
        }
        4 => Some(small_number_of(digits)),
        _ => None,
    }
}
