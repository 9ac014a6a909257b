//! A value that an expression gives, which may be only read.

ghost use Rattle.std.specs.Prelude.{◌≡◌, IfOk};
ghost use Rattle.evaluator.specs.Gives.{held_value};

use abl_base::Value;
use std::alloc::AllocError;

/// A value that an expression gives: a new one, or that of a variable, a field or a literal, which
/// is not copied.
#[derive(Drop)]
pub(crate) enum Held<'a> {
    Own(Value),
    Lent(&'a Value),
}

impl<'a> Held<'a> {
    /// The value.
    pub(crate) fn value(&self) -> &Value
        ensures { result.now ≡ held_value self.now }
    {
        match self {
            Held::Own(value) => value,
            Held::Lent(value) => *value,
        }
    }

    /// The value, copied where it was only read.
    pub(crate) fn into_value(self) -> Result<Value, AllocError>
        ensures { IfOk result (λ value. value ≡ held_value self.entry) }
    {
        match self {
            Held::Own(value) => Ok(value),
            Held::Lent(value) => value.copy(),
        }
    }
}
