//! How a page is found.

ghost use Rattle.std.specs.Prelude.{ℕ, IfNone, IfSome};
ghost use Rattle.command_help.specs.Pages.{IsPlaceOf};

/// The place of the name among the names, in capitals or not. None where it is not one of them.
pub fn place_of(names: &[&str], name: &str) -> Option<usize>
    ensures some { IfSome result (λ place. IsPlaceOf names.now name.now place) }
    ensures none { IfNone result ((place : ℕ) → ¬ IsPlaceOf names.now name.now place) }
{
    names
        .iter()
        .position(|known| known.eq_ignore_ascii_case(name))
}
