//! Operations on values: their order in an index, arithmetic, conversion to a kind, dates, the text
//! of a value and the masks of a kind; the bytes of rows and keys; and schemas, with their readers
//! and their canonical text. It depends on `abl_base`. Each call computes the definition of its name
//! in `specs/`; `laws` has the theorems about the order, row bytes and key bytes, arithmetic
//! compared with the integers, and dates.
#![tactic(auto)]

pub mod arithmetic;
pub mod canonical;
pub mod dates;
pub mod fitting;
pub mod keys;
pub mod laws;
pub mod masks;
pub mod named;
pub mod names;
pub mod order;
pub mod rounding;
pub mod schema;
pub mod stored;
pub mod stored_read;
pub mod texts;

pub use arithmetic::{ArithFault, add, divide, modulo, multiply, subtract};
pub use dates::{date_of, date_parts};
pub use fitting::{default_initial, fit};
pub use keys::key_bytes;
pub use masks::{is_digit_sign, mask_fits, same_bytes, without_minus};
pub use named::{HasName, NameFault, Named};
pub use names::{is_digit, is_name, same_name};
pub use order::compare;
pub use rounding::rounded;
pub use schema::{FieldDef, IndexDef, KeyPart, KeyParts, Schema, SequenceDef, TableDef};
pub use stored::row_bytes;
pub use stored_read::row_of;
pub use texts::export_value;
