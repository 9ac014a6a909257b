//! What PUT and STRING write under a mask.

ghost use Rattle.std.specs.Prelude.{◌≡◌, IfOk};
ghost use Rattle.abl_base.specs.declared.value.Value.TheVariants.{Unknown};
ghost use Rattle.value_masks.specs.Put.{is_mask_for, question_marks};
ghost use Rattle.value_formats.specs.Masked.{masked};

use abl_base::{Bytes, Items, Kind, Value};
use std::alloc::{AllocError, Global};
use value_masks::{mask_fits, put_item};

/// Whether the mask is one for the value: for its kind, and for `?` one for any kind.
#[tactic(auto, unfolding(abl_values::specs::Masks::mask_is_for))]
pub fn is_mask_for(mask: &[u8], value: &Value) -> bool
    ensures { result ≡ is_mask_for mask.now value.now }
{
    match value {
        Value::Text(_) => mask_fits(mask, Kind::Character),
        Value::Int(_) => mask_fits(mask, Kind::Integer),
        Value::Int64(_) => mask_fits(mask, Kind::Int64),
        Value::Dec(_) => mask_fits(mask, Kind::Decimal),
        Value::Logical(_) => mask_fits(mask, Kind::Logical),
        Value::Date(_) => mask_fits(mask, Kind::Date),
        Value::Unknown => is_any_mask(mask),
    }
}

/// Whether the mask is one for some kind.
fn is_any_mask(mask: &[u8]) -> bool
    ensures { result ≡ is_mask_for mask.now Unknown }
{
    mask_fits(mask, Kind::Character)
        || mask_fits(mask, Kind::Decimal)
        || mask_fits(mask, Kind::Logical)
        || mask_fits(mask, Kind::Date)
}

/// What is written of a value under a mask: what `put_item` of `value_masks` writes where the mask is
/// one for the value, else one question mark for each byte of the mask. Out of memory is the only
/// refusal.
#[tactic(auto, unfolding(crate::specs::Masked::masked))]
pub fn masked(alloc: Global, mask: &[u8], value: &Value) -> Result<Bytes, AllocError>
    ensures { IfOk result (λ bytes. bytes ≡ masked mask.now value.now) }
{
    if is_mask_for(mask, value) {
        put_item(alloc, value, mask)
    } else {
        question_marks(alloc, mask.len())
    }
}

/// `count` question marks.
fn question_marks(alloc: Global, count: usize) -> Result<Bytes, AllocError>
    ensures { IfOk result (λ bytes. bytes ≡ question_marks count) }
{
    Ok(Items::from_vec(vec![in alloc; b'?'; count]?))
}
