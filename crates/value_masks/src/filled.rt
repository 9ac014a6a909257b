//! Texts filled to a width, and digits.

ghost use Rattle.std.specs.Prelude.{◌≡◌, ◌++◌, IfOk, OnOk, replicate};
ghost use Rattle.abl_values.specs.Texts.{last_digits};
ghost use Rattle.value_masks.specs.Put.{on_the_left, on_the_right, question_marks};

use abl_base::{Bytes, Items};
use std::alloc::{AllocError, Global};

/// The text cut to the width, or filled to it with blanks on the right.
pub fn on_the_left(alloc: Global, text: &[u8], width: usize) -> Result<Bytes, AllocError>
    ensures { IfOk result (λ bytes. bytes ≡ on_the_left width text.now) }
{
    let kept = if width < text.len() {
        &text[..width]
    } else {
        text
    };
    let mut bytes = Vec::from_slice(alloc, kept)?;
    push_times(&mut bytes, b' ', width - kept.len())?;
    Ok(Items::from_vec(bytes))
}

/// The text filled to the width with blanks on the left.
pub fn on_the_right(alloc: Global, text: &[u8], width: usize) -> Result<Bytes, AllocError>
    ensures { IfOk result (λ bytes. bytes ≡ on_the_right width text.now) }
{
    let mut bytes = Vec::new(alloc);
    push_times(&mut bytes, b' ', width.saturating_sub(text.len()))?;
    bytes.extend_from_slice(text)?;
    Ok(Items::from_vec(bytes))
}

/// This number of question marks.
pub fn question_marks(alloc: Global, count: usize) -> Result<Bytes, AllocError>
    ensures { IfOk result (λ bytes. bytes ≡ question_marks count) }
{
    let mut bytes = Vec::new(alloc);
    push_times(&mut bytes, b'?', count)?;
    Ok(Items::from_vec(bytes))
}

/// Writes a byte this number of times.
pub fn push_times(bytes: &mut Vec<u8>, byte: u8, times: usize) -> Result<(), AllocError>
    ensures { OnOk result (bytes.new.items ≡ bytes.old.items ++ replicate times byte) }
{
    for _ in 0..times {
        bytes.push(byte)?;
    }
    Ok(())
}

/// Writes the last digits of a number, with zeros on the left. Division by 10 is much faster in 64
/// bits than in 128.
pub fn push_last_digits(bytes: &mut Vec<u8>, digits: usize, n: u128) -> Result<(), AllocError>
    ensures { OnOk result (bytes.new.items ≡ bytes.old.items ++ last_digits digits n) }
{
    match u64::try_from(n) {
        Ok(small) => push_small_digits(bytes, digits, small),
        Err(_) => push_wide_digits(bytes, digits, n),
    }
}

/// Writes the last digits of a number of 64 bits.
fn push_small_digits(bytes: &mut Vec<u8>, digits: usize, n: u64) -> Result<(), AllocError>
    ensures { OnOk result (bytes.new.items ≡ bytes.old.items ++ last_digits digits n) }
{
    if digits == 0 {
        return Ok(());
    }
    push_small_digits(bytes, digits - 1, n / 10)?;
    bytes.push(48 + (n % 10) as u8)?;
    Ok(())
}

/// Writes the last digits of a number of 128 bits.
fn push_wide_digits(bytes: &mut Vec<u8>, digits: usize, n: u128) -> Result<(), AllocError>
    ensures { OnOk result (bytes.new.items ≡ bytes.old.items ++ last_digits digits n) }
{
    if digits == 0 {
        return Ok(());
    }
    push_wide_digits(bytes, digits - 1, n / 10)?;
    bytes.push(48 + (n % 10) as u8)?;
    Ok(())
}
