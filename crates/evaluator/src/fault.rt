//! Why an expression has no value here.

ghost use Rattle.std.specs.Prelude.{◌≡◌};
ghost use Rattle.evaluator.specs.Gives.{ranged};

use abl_base::Value;
use abl_values::ArithFault;
use expression_meaning::RunFault;
use std::alloc::AllocError;

/// Why an expression has no value here.
#[derive(Clone, Copy, Debug, PartialEq, Eq)]
pub enum EvalFault {
    /// It has none by its definition.
    Fault(RunFault),
    /// There is no memory for a text.
    NoMemory,
}

impl From<AllocError> for EvalFault {
    ghost use Rattle.std.specs.Prelude.{◌≡◌};
    ghost use Rattle.evaluator.specs.declared.fault.EvalFault.TheVariants.{NoMemory};

    ghost from_gives = { λ _ fault. fault ≡ NoMemory };

    fn from(_: AllocError) -> EvalFault {
        EvalFault::NoMemory
    }
}

/// What an operator on values gave, where an overflow is a fault of range.
pub(crate) fn ranged(outcome: Result<Value, ArithFault>) -> Result<Value, EvalFault>
    ensures { result ≡ ranged outcome }
{
    match outcome {
        Ok(value) => Ok(value),
        Err(ArithFault::Overflow) => Err(EvalFault::Fault(RunFault::Range)),
        Err(ArithFault::NoMemory) => Err(EvalFault::NoMemory),
    }
}
