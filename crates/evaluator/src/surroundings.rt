//! What an expression reads of the program around it.

ghost use Rattle.std.specs.Prelude.{◌≡◌, MatchOption, Some, None};
ghost use Rattle.expression_meaning.specs.Env.{Env};

use abl_base::Value;
use bound_tree::Variable;

/// What an expression reads of the program around it.
pub trait Surroundings {
    /// All of it.
    ghost env: { Self → Env };

    /// The value of a variable.
    fn variable(&self, variable: Variable) -> &Value
        ensures { result.now ≡ (env self.now).variable variable };

    /// The field of the record in a buffer, and none where the buffer is empty.
    fn field(&self, buffer: u32, field: u16) -> Option<&Value>
        ensures { MatchOption result ((env self.now).field buffer field ≡ None)
            (λ value. (env self.now).field buffer field ≡ Some value.now) };

    /// AVAILABLE of a buffer.
    fn available(&self, buffer: u32) -> bool
        ensures { result ≡ (env self.now).available buffer };

    /// LOCKED of a buffer.
    fn locked(&self, buffer: u32) -> bool
        ensures { result ≡ (env self.now).locked buffer };

    /// RETRY.
    fn retry(&self) -> bool
        ensures { result ≡ (env self.now).retry };

    /// ERROR-STATUS:ERROR.
    fn error_status(&self) -> bool
        ensures { result ≡ (env self.now).error_status };

    /// RETURN-VALUE.
    fn return_value(&self) -> &[u8]
        ensures { result.now ≡ (env self.now).return_value };
}
