//! What an expression reads of a client.

ghost use Rattle.std.specs.Prelude.{◌≡◌, MatchOption, Some, None};
ghost use Rattle.abl_base.specs.declared.value.Value.{Value};
ghost use Rattle.expression_meaning.specs.Env.{Env};
ghost use Rattle.client_values.specs.Scope.{env_in};

use abl_base::Value;
use bound_tree::Variable;
use client_memory::{Memory, Place};
use evaluator::Surroundings;

/// The variables and buffers of a client, RETRY, ERROR-STATUS and RETURN-VALUE.
#[derive(Drop)]
pub struct Scope<'a> {
    pub memory: &'a Memory,
    pub unknown: &'a Value,
    pub retry: bool,
    pub status: bool,
    pub returned: &'a [u8],
    ghost is_unknown: { unknown.now ≡ Value.Unknown },
}

impl<'a> Surroundings for Scope<'a> {
    ghost env = { λ s. env_in s.memory.now s.retry s.status s.returned.now };

    fn variable(&self, variable: Variable) -> &Value {
        self.memory.get(variable, self.unknown)
    }

    fn field(&self, buffer: u32, field: u16) -> Option<&Value> {
        let content = &self.memory.buffer(Place::own(buffer as usize))?.content;
        content.field(field as usize, self.unknown)
    }

    fn available(&self, buffer: u32) -> bool {
        match self.memory.buffer(Place::own(buffer as usize)) {
            Some(buffer) => buffer.content.is_available(),
            None => false,
        }
    }

    fn locked(&self, buffer: u32) -> bool {
        match self.memory.buffer(Place::own(buffer as usize)) {
            Some(buffer) => buffer.locked,
            None => false,
        }
    }

    fn retry(&self) -> bool {
        self.retry
    }

    fn error_status(&self) -> bool {
        self.status
    }

    fn return_value(&self) -> &[u8] {
        self.returned
    }
}
