//! What may be written.

ghost use Rattle.std.specs.Prelude.{ℕ, List, IsTrue};

/// Which bytes each slot may hold.
pub trait Guard {
    /// The slot may hold these bytes.
    ghost allowed: { Self → ℕ → List ℕ → Type 0 };

    /// Whether these bytes may be written into the slot. It may be false of bytes that are allowed.
    fn allows(&self, slot: u32, bytes: &[u8; 256]) -> bool
        ensures { IsTrue result → allowed self.now slot bytes.now };
}
