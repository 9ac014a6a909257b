//! What is noted of a client: the counts of its transaction, and the slots that it changed.

ghost use Rattle.std.specs.Prelude.{◌≡◌, ◌+◌, ◌++◌, ◌≤◌, ◌<◌, ℕ, [], length, true, false};
ghost use Rattle.std.specs.Vec.{vec_capacity};

use std::alloc::Global;

/// The most slots that a transaction may write, by the trait `Slots`.
const MAX_SLOT_WRITES: usize = 7989;

/// A client. Without a transaction its counts are 0; the slots that its last transaction changed stay
/// listed until they are settled.
#[derive(Drop)]
pub struct Client {
    pub begun: bool,
    /// The number of slots that the transaction drew, those of undone changes included.
    pub drawn: u32,
    /// The number of slots that it wrote, those of undone changes included.
    pub written: u32,
    /// The slots that it changed.
    pub touched: Vec<u32>,
    ghost few: { drawn ≤ written },
    ghost most: { written ≤ 7989 },
}

impl Client {
    ghost use Rattle.byte_rows.specs.Clients.{view_of};

    /// A client without a transaction. It takes no memory.
    pub fn idle(alloc: Global) -> Client
        ensures { view_of result ≡ record { begun = false; drawn = 0; written = 0; touched = [] } }
    {
        Client {
            begun: false,
            drawn: 0,
            written: 0,
            touched: Vec::new(alloc),
        }
    }

    /// Begins a transaction.
    pub fn start(&mut self)
        ensures { view_of self.new ≡ record { begun = true; drawn = 0; written = 0; touched = self.old.touched.items } }
    {
        self.begun = true;
        self.drawn = 0;
        self.written = 0;
    }

    /// Ends the transaction.
    pub fn end(&mut self)
        ensures { view_of self.new ≡ record { begun = false; drawn = 0; written = 0; touched = self.old.touched.items } }
    {
        self.begun = false;
        self.drawn = 0;
        self.written = 0;
    }

    /// Whether the transaction may write this number of slots.
    pub fn may_write(&self, many: usize) -> bool
        ensures yes { result ≡ true → self.now.written + many ≤ 7989 }
        ensures no { result ≡ false → 7989 < self.now.written + many }
    {
        many <= MAX_SLOT_WRITES && self.written as usize <= MAX_SLOT_WRITES - many
    }

    /// Notes that the transaction wrote these slots, for which there is memory, and drew `drawn` of
    /// them.
    pub fn note(&mut self, slots: &[u32], drawn: u32)
        requires room { length self.old.touched.items + length slots.now ≤ vec_capacity self.old.touched }
        requires few { self.old.written + length slots.now ≤ 7989 }
        requires part { drawn ≤ length slots.now }
        ensures { view_of self.new ≡ record { begun = self.old.begun; drawn = self.old.drawn + drawn; written = self.old.written + length slots.now; touched = self.old.touched.items ++ slots.now } }
    {
        self.touched.extend_from_slice(slots).unwrap();
        self.written += slots.len() as u32;
        self.drawn += drawn;
    }
}
