//! A slot in memory.

ghost use Rattle.std.specs.Prelude.{◌≡◌};
ghost use Rattle.slot_area.specs.Frames.{is_free};

/// A slot in memory: its number and its bytes.
#[derive(Clone, Copy)]
pub struct Frame {
    pub slot: u32,
    pub bytes: [u8; 256],
    /// The number of the note of its last change, where area 0 does not have its bytes yet.
    pub note: Option<u64>,
}

impl Frame {
    /// Whether the frame may be given to another slot, where the notes up to this number are
    /// settled.
    pub fn is_free(&self, settled: u64) -> bool
        ensures { result ≡ is_free settled self.now }
    {
        match self.note {
            None => true,
            Some(note) => note <= settled,
        }
    }
}
