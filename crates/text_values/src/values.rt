//! Texts that denote a value of a kind.

ghost use Rattle.std.specs.Prelude.{◌≡◌, IfOk};
ghost use Rattle.text_values.specs.TextValues.{value_in};

use crate::dates::date_in;
use crate::numbers::{number_in, small_whole_in, whole_in};
use crate::truths::truth_in;
use abl_base::{Items, Kind, MAX_TEXT_BYTES, Value};
use std::alloc::{AllocError, Global};

/// The value of the kind that a text denotes, and `None` where the text denotes none. Out of
/// memory is the only error.
#[tactic(auto, unfolding(crate::specs::TextValues::value_in))]
pub fn value_in(alloc: Global, kind: Kind, text: &[u8]) -> Result<Option<Value>, AllocError>
    ensures { IfOk result (λ value. value ≡ value_in kind text.now) }
{
    match kind {
        Kind::Character => {
            if text.len() > MAX_TEXT_BYTES {
                return Ok(None);
            }
            Ok(Some(Value::Text(Items::of(alloc, text)?)))
        }
        Kind::Integer => Ok(small_whole_in(text).map(Value::Int)),
        Kind::Int64 => Ok(whole_in(text).map(Value::Int64)),
        Kind::Decimal => Ok(number_in(text).map(Value::Dec)),
        Kind::Logical => Ok(truth_in(text).map(Value::Logical)),
        Kind::Date => Ok(date_in(text).map(Value::Date)),
    }
}
