//! Laws about the definitions alone. Each is the contract of a function that does nothing.

ghost use Rattle.std.specs.Prelude.{◌≡◌, List, [], None, false};
ghost use Rattle.bind_names.specs.declared.violation.Violation.{Violation};
ghost use Rattle.bind_names.specs.Judged.{first};
ghost use Rattle.syntax_tree.specs.Syntax.{Expression};
ghost use Rattle.bind_names.specs.Names.{Scene};
ghost use Rattle.bind_expressions.specs.Expressions.{expression};
ghost use Rattle.bind_expressions.specs.WellKinded.{IsWellKinded, sort_of};
ghost use Rattle.bind_names.specs.Sorts.{is_broken};

/// An expression that breaks no rule is bound to one in which each operand fits its operator and
/// each mask its value.
pub fn what_breaks_no_rule_is_well_kinded()
    ensures { (w : Scene) (e : Expression) → (expression w e).breaks ≡ [] → IsWellKinded (expression w e).is.expr }
{}

/// Its sort can be found from the bound expression alone.
pub fn sorts_are_those_of_bound_expressions()
    ensures { (w : Scene) (e : Expression) → is_broken (expression w e).is.sort ≡ false → sort_of (expression w e).is.expr ≡ (expression w e).is.sort }
{}

/// There is no first violation exactly where none is: so a source is bound exactly where it breaks
/// no rule.
pub fn none_is_first_where_none_is_broken()
    ensures { (vs : List Violation) → first vs ≡ None → vs ≡ [] }
{}
