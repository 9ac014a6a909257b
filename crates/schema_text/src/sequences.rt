//! Sequences.

ghost use Rattle.std.specs.Prelude.{◌≡◌, ◌<◌, ◌++◌, ◌∷◌, [], List, ℕ, ℤ, Some, length, IfOk, IfSome, IsTrue, MatchOption, MatchResult};
ghost use Rattle.abl_base.specs.declared.value.Value.TheVariants.{Int64};
ghost use Rattle.abl_values.specs.Arithmetic.{fits_bits};
ghost use Rattle.abl_values.specs.declared.schema.SequenceDef.{SequenceDef};
ghost use Rattle.abl_values.specs.Schema.{sequence_line};
ghost use Rattle.abl_values.specs.Sound.{IsSoundSequence};
ghost use Rattle.schema_text.specs.Written.{IsWrittenSequence};
ghost use Rattle.schema_text.specs.declared.unread.Unread.TheVariants.{NoMemory};

use crate::unread::Unread;
use crate::values::{Values, values_at};
use crate::words::name_after;
use abl_base::{Items, Kind, Value};
use abl_values::SequenceDef;
use std::alloc::Global;

/// The numbers of a sequence.
#[derive(Clone, Copy)]
struct Numbers {
    initial: i64,
    increment: i64,
}

/// The sequence whose line the text begins with, and what follows the line.
pub fn sequence_at(alloc: Global, text: &[u8]) -> Result<(SequenceDef, &[u8]), Unread>
    ensures sequence { (sequence : SequenceDef) → (rest : List ℕ) → IsWrittenSequence sequence → text.now ≡ sequence_line sequence ++ rest → MatchResult result (λ read. (read.0 ≡ sequence) × (read.1.now ≡ rest)) (λ fault. fault ≡ NoMemory) }
    ensures sound { IfOk result (λ read. IsSoundSequence read.0) }
    ensures shorter { IfOk result (λ read. length read.1.now < length text.now) }
{
    let Some(name) = name_after(b'S', b' ', text) else {
        return Err(Unread::NotCanonical);
    };
    let Values { values, rest } = values_at(
        alloc,
        &[Some(Kind::Int64), Some(Kind::Int64)],
        name.rest,
    )?;
    let Some(numbers) = numbers_of(values.as_slice()) else {
        return Err(Unread::NotCanonical);
    };
    let sequence = SequenceDef {
        name: Items::of(alloc, name.word)?,
        initial: numbers.initial,
        increment: numbers.increment,
    };
    Ok((sequence, rest))
}

/// The numbers of a line that has two whole numbers.
fn numbers_of(values: &[Option<Value>]) -> Option<Numbers>
    ensures numbers { (initial : ℤ) → (increment : ℤ) → values.now ≡ Some (Int64 initial) ∷ Some (Int64 increment) ∷ [] → MatchOption result ⊥ (λ read. (read.initial ≡ initial) × (read.increment ≡ increment)) }
    ensures within { IfSome result (λ read. IsTrue (fits_bits 63 read.initial) × IsTrue (fits_bits 63 read.increment)) }
{
    let [initial, increment] = values else {
        return None;
    };
    Some(Numbers {
        initial: whole_number(initial)?,
        increment: whole_number(increment)?,
    })
}

/// The number that the element is, where it is a whole number.
fn whole_number(element: &Option<Value>) -> Option<i64>
    ensures number { (number : ℤ) → element.now ≡ Some (Int64 number) → result ≡ Some number }
    ensures within { IfSome result (λ read. IsTrue (fits_bits 63 read)) }
{
    match element {
        Some(Value::Int64(number)) => Some(*number),
        _ => None,
    }
}
