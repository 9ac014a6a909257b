//! The surroundings of rows.

ghost use Rattle.std.specs.Prelude.{◌≡◌};

use abl_base::{Bytes, Items, Value};
use bound_tree::Variable;
use evaluator::Surroundings;
use std::alloc::{AllocError, Global};

/// Four variables, a record with two fields in buffer 0, and the state of a client. Any other
/// buffer is empty, and that of number 2 is locked.
#[derive(Drop)]
pub struct Known {
    whole: Value,
    decimal: Value,
    text: Value,
    unknown: Value,
    name: Value,
    birthday: Value,
    /// What RETRY and ERROR-STATUS:ERROR are.
    failed: bool,
    return_value: Bytes,
}

impl Known {
    /// The surroundings of this name: `first`, or `second` in which RETRY and ERROR-STATUS:ERROR
    /// are yes, RETURN-VALUE has 29,000 bytes, and the text has 30,000.
    pub fn of(alloc: Global, name: &str) -> Result<Option<Known>, AllocError> {
        match name {
            "first" => Ok(Some(surroundings_with(alloc, false, b"x,y,", b"done")?)),
            "second" => {
                let text = vec![in alloc; b'a'; 30_000]?;
                let returned = vec![in alloc; b'r'; 29_000]?;
                Ok(Some(surroundings_with(alloc, true, text.as_slice(), returned.as_slice())?))
            }
            _ => Ok(None),
        }
    }
}

/// Surroundings with this text and this RETURN-VALUE.
fn surroundings_with(
    alloc: Global,
    failed: bool,
    text: &[u8],
    returned: &[u8],
) -> Result<Known, AllocError> {
    Ok(Known {
        whole: Value::Int(7),
        decimal: Value::Dec(15_000_000_000),
        text: Value::Text(Items::of(alloc, text)?),
        unknown: Value::Unknown,
        name: Value::Text(Items::of(alloc, b"Ann")?),
        birthday: Value::Date(19_756),
        failed,
        return_value: Items::of(alloc, returned)?,
    })
}

impl Surroundings for Known {
    ghost use Rattle.std.specs.Prelude.{◌==◌, if◌then◌else◌, Some, None};

    ghost env = { λ known. record {
      variable = λ x. if x.number == 0 then known.whole
          else if x.number == 1 then known.decimal
          else if x.number == 2 then known.text
          else known.unknown;
      field = λ b f. if b == 0 then Some (if f == 0 then known.name else known.birthday) else None;
      available = λ b. b == 0;
      locked = λ b. b == 2;
      retry = known.failed;
      error_status = known.failed;
      return_value = known.return_value;
    } };

    fn variable(&self, variable: Variable) -> &Value {
        if variable.number == 0 {
            return &self.whole;
        }
        if variable.number == 1 {
            return &self.decimal;
        }
        if variable.number == 2 {
            return &self.text;
        }
        &self.unknown
    }

    fn field(&self, buffer: u32, field: u16) -> Option<&Value> {
        if buffer != 0 {
            return None;
        }
        if field == 0 {
            return Some(&self.name);
        }
        Some(&self.birthday)
    }

    fn available(&self, buffer: u32) -> bool {
        buffer == 0
    }

    fn locked(&self, buffer: u32) -> bool {
        buffer == 2
    }

    fn retry(&self) -> bool {
        self.failed
    }

    fn error_status(&self) -> bool {
        self.failed
    }

    fn return_value(&self) -> &[u8] {
        self.return_value.as_slice()
    }
}
