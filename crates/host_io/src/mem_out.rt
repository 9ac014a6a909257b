//! Output in memory.

ghost use Rattle.std.specs.Prelude.{◌≡◌, ◌+◌, ◌↔◌, [], length, IfOk, OnOk, OnErr, IsErr, is_ok};
ghost use Rattle.storage.specs.faults.Faults.{counted};
ghost use Rattle.host_io.specs.Out.{Writes, appended, text_on};
ghost use Rattle.host_io.specs.MemOut.{FailsNext, out_state};

use crate::out::{Out, OutFailed, Stream};
use std::alloc::{AllocError, Global};
use std::marker::Model;
use storage::faults::is_among;

/// Output in memory. It is observable.
#[derive(Drop)]
pub struct MemOut {
    output: Vec<u8>,
    diagnostics: Vec<u8>,
    most: u64,
    fails: Vec<u64>,
    calls: u64,
    failed: u64,
}

impl Model for MemOut {
    ghost use Rattle.std.specs.Prelude.{◌≤◌, ◌+◌, length};
    ghost use Rattle.std.specs.Vec.{vec_capacity};
    ghost use Rattle.host_io.specs.MemOut.{Pages};

    ghost Value = { Pages };

    ghost view = { λ m. record { texts = record { output = m.output.items; diagnostics = m.diagnostics.items }; most = m.most; fails = m.fails.items; calls = m.calls; faults = m.failed } };

    ghost invariant = { λ m. (m.most ≤ vec_capacity m.output) × (m.most ≤ vec_capacity m.diagnostics) × (length m.output.items + length m.diagnostics.items ≤ m.most) };
}

impl MemOut {
    /// Room for `most` bytes on both streams together; the writes whose number is in `fails` fail,
    /// the first write being number 1. An error means out of memory.
    pub fn new(alloc: Global, most: u64, fails: &[u64]) -> Result<MemOut, AllocError>
        ensures { IfOk result (λ m. m ≡ record { texts = record { output = []; diagnostics = [] }; most = most; fails = fails.now; calls = 0; faults = 0 }) }
    {
        Ok(MemOut {
            output: Vec::with_capacity(alloc, most as usize)?,
            diagnostics: Vec::with_capacity(alloc, most as usize)?,
            most,
            fails: Vec::from_slice(alloc, fails)?,
            calls: 0,
            failed: 0,
        })
    }

    /// The bytes that were written to the stream.
    pub fn text(&self, stream: Stream) -> &[u8]
        ensures { result.now ≡ text_on stream self.now.texts }
    {
        match stream {
            Stream::Output => &self.output,
            Stream::Diagnostics => &self.diagnostics,
        }
    }
}

impl Out for MemOut {
    ghost state = { out_state };

    fn faults(&self) -> u64 {
        self.failed
    }

    /// Beyond what every object does: a write fails exactly where its number is in the list or the
    /// bytes of both streams would pass the most. One that fails appends nothing.
    fn write(&mut self, stream: Stream, piece: &[u8]) -> Result<(), OutFailed>
        ensures writes { Writes (is_ok result) stream piece.now (out_state self.old) (out_state self.new) }
        ensures whole { OnOk result (self.new.texts ≡ appended stream piece.now self.old.texts) }
        ensures nothing { OnErr result (self.new.texts ≡ self.old.texts) }
        ensures failed { IsErr result ↔ FailsNext self.old (length piece.now) }
        ensures rises { OnErr result (self.new.faults ≡ counted self.old.faults) }
        ensures counts { self.new ≡ record self.old { texts = self.new.texts; calls = counted self.old.calls; faults = self.new.faults } }
    {
        self.calls = self.calls.saturating_add(1);
        let free = self.most - (self.output.len() as u64 + self.diagnostics.len() as u64);
        if is_among(&self.fails, self.calls) || piece.len() as u64 > free {
            self.failed = self.failed.saturating_add(1);
            return Err(OutFailed);
        }
        let taken = match stream {
            Stream::Output => self.output.extend_from_slice(piece),
            Stream::Diagnostics => self.diagnostics.extend_from_slice(piece),
        };
        taken.unwrap();
        Ok(())
    }
}
