//! The variables of one procedure.

ghost use Rattle.std.specs.Prelude.{◌≡◌, List, slice_index_or, slice_set};
ghost use Rattle.abl_base.specs.declared.value.Value.{Value};

use abl_base::Value;
use std::marker::Model;
use std::mem;

/// The values of a procedure's variables, by their numbers.
#[derive(Drop)]
pub struct Slots {
    values: Vec<Value>,
}

impl Model for Slots {
    ghost use Rattle.std.specs.Prelude.{List};
    ghost use Rattle.abl_base.specs.declared.value.Value.{Value as Held};

    ghost Value = { List Held };

    ghost view = { λ s. s.values.items };
}

impl Slots {
    pub fn new(values: Vec<Value>) -> Slots
        ensures { result ≡ values.items }
    {
        Slots { values }
    }

    /// The value of a variable; `other` where there is no such variable.
    pub fn get_or<'a>(&'a self, number: usize, other: &'a Value) -> &'a Value
        ensures { result.now ≡ slice_index_or self.now number other.now }
    {
        match self.values.get(number) {
            Some(value) => value,
            None => other,
        }
    }

    /// Gives a variable a value, and returns the old one.
    pub fn replace(&mut self, number: usize, value: Value) -> Value
        ensures old { result ≡ slice_index_or self.old number Value.Unknown }
        ensures new { self.new ≡ slice_set self.old number value }
    {
        match self.values.get_mut(number) {
            Some(place) => mem::replace(place, value),
            None => Value::Unknown,
        }
    }
}
