//! What holds of slots with sequence values. Each law is the contract of a function that does nothing.

ghost use Rattle.std.specs.Prelude.{◌≡◌, ℕ, ℤ, List, length};
ghost use Rattle.sequence_slots.specs.Values.{HoldValues, values_in};

/// The values that slots hold are those that are read from them.
pub fn held_values_are_read()
    ensures { (slots : ℕ → List ℕ) (values : List ℤ) → HoldValues slots values → values_in (length values) slots ≡ values }
{}
