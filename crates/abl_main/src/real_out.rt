//! The streams of the machine. What is written to them is not observable in proofs.

use host_io::{Out, OutFailed, Stream};

/// Standard output and standard error.
#[derive(Drop)]
pub struct RealOut<P, E> {
    output: P,
    diagnostics: E,
    faults: u64,
}

impl<P: Print, E: Print> RealOut<P, E> {
    /// The two streams; nothing was written yet.
    pub fn new(output: P, diagnostics: E) -> RealOut<P, E> {
        RealOut {
            output,
            diagnostics,
            faults: 0,
        }
    }
}

impl<P: Print, E: Print> Out for RealOut<P, E> {
    ghost use Rattle.std.specs.Prelude.{false, []};

    ghost state = { λ out. record { observable = false; texts = record { output = []; diagnostics = [] }; faults = out.faults } };

    fn faults(&self) -> u64 {
        self.faults
    }

    fn write(&mut self, stream: Stream, piece: &[u8]) -> Result<(), OutFailed> {
        let taken = match stream {
            Stream::Output => self.output.write_all(piece),
            Stream::Diagnostics => self.diagnostics.write_all(piece),
        };
        if taken.is_err() {
            self.faults = self.faults.saturating_add(1);
            return Err(OutFailed);
        }
        Ok(())
    }
}
