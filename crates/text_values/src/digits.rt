//! Texts of digits.

ghost use Rattle.std.specs.Prelude.{◌≡◌, ◌≤◌, ◌<◌, ◌^◌, SomeIff, length};
ghost use Rattle.std.specs.List.{list_all, prefix_len};
ghost use Rattle.abl_values.specs.Masks.{is_digit};
ghost use Rattle.abl_values.specs.Digits.{are_digits, number_of};

use abl_values::is_digit;

/// Says whether each byte is a digit.
pub fn all_digits(bytes: &[u8]) -> bool
    ensures { result ≡ list_all is_digit bytes.now }
{
    bytes.iter().all(|byte| is_digit(*byte))
}

/// Says whether the text is one digit or more.
pub fn are_digits(bytes: &[u8]) -> bool
    ensures { result ≡ are_digits bytes.now }
{
    !bytes.is_empty() && all_digits(bytes)
}

/// The number of digits at the beginning of a text.
pub fn digits_len(text: &[u8]) -> usize
    ensures value { result ≡ prefix_len is_digit text.now }
    ensures within { result ≤ length text.now }
{
    for (i, byte) in text.iter().enumerate() {
        if !is_digit(*byte) {
            return i;
        }
    }
    text.len()
}

/// The number that digits spell, where it is below 2^128.
#[tactic(auto, using(crate::proofs::Spelled::one_more, crate::proofs::Spelled::next_below, crate::proofs::Spelled::ten_below))]
pub fn number_of(digits: &[u8]) -> Option<u128>
    ensures { SomeIff result (number_of digits.now < 2 ^ 128) (number_of digits.now) }
{
    let mut n: u128 = 0;
    for byte in digits {
        n = n
            .checked_mul(10)?
            .checked_add(u128::from(byte.saturating_sub(b'0')))?;
    }
    Some(n)
}

/// The number that at most four digits spell.
#[tactic(auto, using(crate::proofs::Spelled::one_more, crate::proofs::Spelled::ten_more))]
pub fn small_number_of(digits: &[u8]) -> u32
    requires { length digits.now ≤ 4 }
    ensures value { result ≡ number_of digits.now }
    ensures small { result < 1000000 }
{
    let mut n: u32 = 0;
    for byte in digits {
        n = 10 * n + u32::from(byte.saturating_sub(b'0'));
    }
    n
}
