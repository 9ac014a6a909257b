//! That every bound source is well-kinded: each operand fits its operator, each value its place, each mask
//! its value, and each mark of a kind is that of the field, the variable or the IF that it marks. So whoever
//! runs or compiles a bound tree may rely on its kinds. `specs/WellKinded.antt` says it of the tree and the
//! schema alone. The laws say that `bind` gives such trees over each schema that a file means, and that the
//! values of their expressions have their kinds. No crate of the program depends on this one.

pub mod laws;
