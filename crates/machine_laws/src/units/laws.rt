//! The laws. Each is the contract of a function with an empty body.

ghost use Rattle.std.specs.Prelude.{List, ℕ};
ghost use Rattle.database_protocol.specs.declared.answer.Answer.{Answer};
ghost use Rattle.database_protocol.specs.declared.operation.Op.{Op};
ghost use Rattle.block_meaning.specs.Program.{Program};
ghost use Rattle.block_meaning.specs.State.{State};
ghost use Rattle.flat_machine.specs.Code.{Code};
ghost use Rattle.flat_machine.specs.Config.{Config, OnAnswer, StackEntry};
ghost use Rattle.flat_machine.specs.Machine.{answered, step};
ghost use Rattle.flat_machine.specs.Works.{IsRunning};
ghost use Rattle.machine_laws.specs.units.Spending.{AfterAnswer, Spends, after_steps};

/// A step of a running machine leaves no more units than there were, and fewer where the machine asks
/// an operation after it.
pub fn steps_spend_units()
    ensures { (code : Code) (p : Program) (c : Config) → IsRunning c.mode → Spends c.state.units (step code p c) }
{}

/// So does an answer, except Blocked: after it the same operation is asked again, with the same units.
pub fn answers_spend_units()
    ensures { (p : Program) (a : Answer) (op : Op) (k : OnAnswer) (ks : List StackEntry) (s : State) → AfterAnswer a s.units (answered p a op k ks s) }
{}

/// After any number of steps of a running machine no more units are left than there were, and fewer
/// where it has come to an operation.
pub fn fewer_units_are_left_at_each_operation()
    ensures { (code : Code) (p : Program) (n : ℕ) (c : Config) → IsRunning c.mode → Spends c.state.units (after_steps code p n c) }
{}
