//! The key bytes of rows in indexes. It depends on `abl_values`, which says which bytes a value has as
//! a component of an index, and proves that the byte order of keys is the index's order of rows.
//! The layer above may rely on exactly these bytes, and on keys of at most 200 bytes.

ghost use Rattle.std.specs.Prelude.{◌≡◌, ◌<◌, ◌≤◌, length, IfOk, OnOk};
ghost use Rattle.abl_values.specs.Keys.{component_bytes, key_bytes};

use abl_base::{Bytes, Items, Row, Value};
use abl_values::{IndexDef, KeyPart, key_bytes};
use std::alloc::{AllocError, Global};

/// The greatest length of a key, in bytes (this project's choice).
pub const MAX_KEY_BYTES: usize = 200;

/// Why a row has no key.
#[derive(Clone, Copy, Debug, PartialEq, Eq)]
pub enum KeyFault {
    /// The key bytes would pass `MAX_KEY_BYTES`.
    TooLong,
    /// Out of memory.
    NoMemory,
}

impl From<AllocError> for KeyFault {
    ghost use Rattle.std.specs.Prelude.{◌≡◌};
    ghost use Rattle.row_keys.specs.declared.codec.KeyFault.TheVariants.{NoMemory};

    ghost from_gives = { λ _ fault. fault ≡ NoMemory };

    fn from(_: AllocError) -> KeyFault {
        KeyFault::NoMemory
    }
}

/// The key bytes of a row in an index: those of its components one after the other. `TooLong` is returned
/// exactly where they are more than 200; `NoMemory` may be returned for any row.
pub fn key(def: &IndexDef, row: &Row) -> Result<Bytes, KeyFault>
    ensures key { IfOk result (λ key. key ≡ key_bytes def.now.parts row.now) }
    ensures fits { OnOk result (length (key_bytes def.now.parts row.now) ≤ MAX_KEY_BYTES) }
    ensures too_long { result ≡ Err KeyFault.TooLong → MAX_KEY_BYTES < length (key_bytes def.now.parts row.now) }
{
    let key = key_bytes(row.allocator(), def.parts.as_slice(), row)?;
    if key.len() > MAX_KEY_BYTES {
        return Err(KeyFault::TooLong);
    }
    Ok(key)
}

/// The bytes of a value as a component of an index, descending or not. It fails only out of
/// memory.
pub fn part(alloc: Global, value: &Value, descending: bool) -> Result<Bytes, AllocError>
    ensures { IfOk result (λ bytes. bytes ≡ component_bytes descending value.now) }
{
    let copied = value.copy()?;
    let mut values = Vec::new(alloc);
    values.push(copied)?;
    let row = Items::from_vec(values);
    let bytes = key_bytes(
        alloc,
        &[KeyPart {
            field: 0,
            descending,
        }],
        &row,
    )?;
    Ok(bytes)
}
