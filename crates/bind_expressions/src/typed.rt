//! A bound expression with its sort.

ghost use Rattle.std.specs.Prelude.{◌≡◌};
ghost use Rattle.bind_expressions.specs.Expressions.{no_value};
ghost use Rattle.bind_expressions.specs.Views.{typed_of};

use abl_base::Value;
use bind_names::Sort;
use bound_tree::Expr;

/// A bound expression with its sort.
#[derive(Drop)]
pub struct Typed {
    pub expr: Expr,
    pub sort: Sort,
}

impl Typed {
    /// What takes the place of an expression that breaks a rule.
    pub fn no_value() -> Typed
        ensures { typed_of result ≡ no_value }
    {
        Typed {
            expr: Expr::Literal(Value::Unknown),
            sort: Sort::Broken,
        }
    }
}
