//! What the buffers of the running procedure hold, for statements that change records.

ghost use Rattle.std.specs.Prelude.{◌≡◌, MatchOption};
ghost use Rattle.block_meaning.specs.Program.{Program};
ghost use Rattle.block_meaning.specs.State.{State};
ghost use Rattle.block_meaning.specs.Frames as meant;
ghost use Rattle.block_meaning.specs.Frames.{no_buffer};
ghost use Rattle.client_memory.specs.Buffers.{denoted_buffer, denoted_content};
ghost use Rattle.client_memory.specs.Frames.{state_with};
ghost use Rattle.client_values.specs.Reads.{Reads};
ghost use Rattle.buffer_steps.specs.buffers.Fixed.{fixed_of};

use crate::buffers::running::RunningBuffers;
use client_memory::{Buffer, Content, Place};

impl RunningBuffers<'_> {
    /// The buffer of this number in the running procedure, if there is one.
    pub fn own(&self, number: u32) -> Option<&Buffer>
        ensures { MatchOption result
            ((p : Program) (rest : State) → Reads p rest self.now.procedures.now self.now.memory.now self.now.error self.now.returned.now → meant.buffer_at number (state_with rest self.now.procedures.now self.now.memory.now) ≡ no_buffer)
            (λ buffer. (p : Program) (rest : State) → Reads p rest self.now.procedures.now self.now.memory.now self.now.error self.now.returned.now → meant.buffer_at number (state_with rest self.now.procedures.now self.now.memory.now) ≡ denoted_buffer buffer.now) }
    {
        self.memory.buffer(Place::own(number as usize))
    }

    /// Gives the buffer of this number in the running procedure another content, and returns the old
    /// one, without a copy of a row.
    pub fn replace(&mut self, number: u32, content: Content) -> Content
        ensures fits { (p : Program) (rest : State) → Reads p rest self.old.procedures.now self.old.memory.now self.old.error self.old.returned.now → Reads p rest self.new.procedures.now self.new.memory.now self.new.error self.new.returned.now }
        ensures fixed { fixed_of self.new ≡ fixed_of self.old }
        ensures old { (p : Program) (rest : State) → Reads p rest self.old.procedures.now self.old.memory.now self.old.error self.old.returned.now → meant.content_of number (state_with rest self.old.procedures.now self.old.memory.now) ≡ denoted_content result }
        ensures state { (p : Program) (rest : State) → Reads p rest self.old.procedures.now self.old.memory.now self.old.error self.old.returned.now → state_with rest self.new.procedures.now self.new.memory.now ≡ meant.holding number (denoted_content content) (state_with rest self.old.procedures.now self.old.memory.now) }
    {
        self.memory.replace(Place::own(number as usize), content)
    }
}
