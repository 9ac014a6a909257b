//! What was so when a run began.

use std::marker::Brand;

/// The beginning of a run: its moment, and what the images were that a crash might leave then. It is
/// known only when a run begins. Whoever runs clients picks it, and the types below carry it to the end
/// of the run.
pub trait Start {
    ghost use Rattle.std.specs.Prelude.{ℕ};
    ghost use Rattle.log_meaning.specs.steps.Steps.{Image};

    ghost moment: { ℕ };

    ghost images: { Image → Type 0 };
}

impl Start for Brand {
    ghost moment = { 0 };

    ghost images = { λ image. Unit {0} };
}
