//! The law. It is the contract of a function with an empty body.

ghost use Rattle.std.specs.Prelude.{ℕ};
ghost use Rattle.flat_machine.specs.Code.{Code};
ghost use Rattle.flat_machine.specs.Config.{Config};
ghost use Rattle.block_meaning.specs.Program.{Program};
ghost use Rattle.machine_laws.specs.halts.Halted.{IsHalted};
ghost use Rattle.machine_laws.specs.units.Spending.{after_steps};

/// After some number of steps every machine awaits the answer to an operation, or has come to the end
/// of its run.
pub fn every_machine_halts()
    ensures { (code : Code) (p : Program) (c : Config) → (n : ℕ) × IsHalted (after_steps code p n c) }
{}
