//! A client's transaction.

ghost use Rattle.std.specs.Prelude.{◌≡◌, ◌<◌, ◌≤◌, ◌+◌, ◌-◌, ◌^◌, ◌++◌, ◌∷◌, [], ℕ, Some, None, is_some, if◌then◌else◌, length, take, drop, true, false, vec_capacity};
ghost use Rattle.storage.specs.Slots.{is_low, wrote};
ghost use Rattle.open_transactions.specs.Written.{has_written};

use std::alloc::Global;
use storage::Undo;

/// One client. A client without a transaction has no room, and no write but those that are due.
#[derive(Drop)]
pub struct Client {
    pub begun: bool,
    /// The number under which the log may have writes of the last transaction, if it was not
    /// committed.
    pub number: Option<u64>,
    /// The writes that the slots still have.
    pub undo: Vec<Undo>,
    /// How many of them stand. The others are due.
    pub standing: usize,
    /// The slot of each write, those that were undone included.
    pub written: Vec<u32>,
    pub counted: u32,
    pub low: u32,
    /// The number of further writes that memory is promised for.
    pub spare: u32,
    /// The number of further writes that there is memory for besides.
    pub extra: u32,
    /// The number of further writes of low slots that memory is promised for.
    pub low_room: u32,
    ghost counts: { counted ≤ 7989 },
    ghost lows: { begun ≡ true → low + low_room ≡ 10 },
    ghost few: { (spare ≤ 7989) × (extra ≤ 1) × (low_room ≤ 10) },
    ghost has_room: { length undo.items + (spare + extra + low_room) ≤ vec_capacity undo },
    ghost can_note: { length written.items + (spare + extra + low_room) ≤ vec_capacity written },
    ghost noted: { (slot : ℕ) → begun ≡ true → wrote undo.items slot ≡ true → has_written written.items slot ≡ true },
    ghost small: { (slot : ℕ) → wrote undo.items slot ≡ true → slot < 2 ^ 20 },
    ghost stands: { standing ≤ length undo.items },
    ghost ended: { begun ≡ false → standing ≡ 0 },
    ghost numbered: { number ≡ None → undo.items ≡ [] },
    ghost has_number: { begun ≡ true → is_some number ≡ true },
}

/// Whether writes of the slot do not count.
pub fn has_low_number(slot: u32) -> bool
    ensures { result ≡ is_low slot }
{
    5000 <= slot && slot < 5100
}

impl Client {
    ghost use Rattle.open_transactions.specs.Clients.{transaction_of, idle};

    /// A client without a transaction.
    pub fn new(alloc: Global) -> Client
        ensures idle { transaction_of result ≡ idle }
        ensures none { result.undo.items ≡ [] }
        ensures number { result.number ≡ None }
    {
        Client {
            begun: false,
            number: None,
            undo: Vec::new(alloc),
            standing: 0,
            written: Vec::new(alloc),
            counted: 0,
            low: 0,
            spare: 0,
            extra: 0,
            low_room: 0,
        }
    }

    /// Begins a transaction of this number, with memory for ten writes of low slots. It returns
    /// whether there was memory.
    pub fn begin(&mut self, number: u64) -> bool
        requires none { self.old.undo.items ≡ [] }
        requires ended { self.old.begun ≡ false }
        ensures yes { result ≡ true → transaction_of self.new ≡ record { begun = true; undo = []; written = has_written []; counted = 0; low = 0; room = 0 } }
        ensures number { result ≡ true → self.new.number ≡ Some number }
        ensures no { result ≡ false → transaction_of self.new ≡ transaction_of self.old }
        ensures same { result ≡ false → self.new.number ≡ self.old.number }
        ensures none { self.new.undo.items ≡ [] }
    {
        if self.undo.reserve(10).is_err() {
            return false;
        }
        if self.written.reserve(10).is_err() {
            return false;
        }
        self.written.clear();
        self.begun = true;
        self.number = Some(number);
        self.standing = 0;
        self.counted = 0;
        self.low = 0;
        self.spare = 0;
        self.extra = 0;
        self.low_room = 10;
        true
    }

    /// Takes memory for `writes` writes. It returns whether there was memory.
    pub fn make_room(&mut self, writes: u32) -> bool
        requires few { writes ≤ 7989 }
        ensures yes { result ≡ true → transaction_of self.new ≡ record (transaction_of self.old) { room = writes } }
        ensures no { result ≡ false → transaction_of self.new ≡ transaction_of self.old }
        ensures same { (self.new.undo.items ≡ self.old.undo.items) × (self.new.number ≡ self.old.number) × (self.new.standing ≡ self.old.standing) }
    {
        let more = (writes + self.extra + self.low_room) as usize;
        if self.undo.reserve(more).is_err() {
            return false;
        }
        if self.written.reserve(more).is_err() {
            return false;
        }
        self.spare = writes;
        true
    }

    /// Takes memory for one write where there is none. It returns whether there is some.
    pub fn reserve(&mut self) -> bool
        ensures same { (self.new.undo.items ≡ self.old.undo.items) × (self.new.number ≡ self.old.number) × (self.new.standing ≡ self.old.standing) }
        ensures transaction { transaction_of self.new ≡ transaction_of self.old }
        ensures yes { result ≡ true → 0 < self.new.spare + self.new.extra }
        ensures promised { 0 < self.old.spare → result ≡ true }
    {
        if self.spare > 0 || self.extra > 0 {
            return true;
        }
        let more = (self.low_room + 1) as usize;
        if self.undo.reserve(more).is_err() {
            return false;
        }
        if self.written.reserve(more).is_err() {
            return false;
        }
        self.extra = 1;
        true
    }

    /// Adds a write, for which there is memory, where nothing is due.
    pub fn add(&mut self, slot: u32, old: &[u8; 256])
        requires begun { self.old.begun ≡ true }
        requires slot { slot < 2 ^ 20 }
        requires stand { self.old.standing ≡ length self.old.undo.items }
        requires room { is_low slot ≡ false → 0 < self.old.spare + self.old.extra }
        requires counted { is_low slot ≡ false → self.old.counted < 7989 }
        requires low { is_low slot ≡ true → self.old.low < 10 }
        ensures same { (self.new.begun ≡ self.old.begun) × (self.new.number ≡ self.old.number) }
        ensures undo { self.new.undo.items ≡ self.old.undo.items ++ record { slot = slot; old = old.now } ∷ [] }
        ensures standing { self.new.standing ≡ length self.new.undo.items }
        ensures written { self.new.written.items ≡ self.old.written.items ++ slot ∷ [] }
        ensures counted { self.new.counted ≡ (if is_low slot then self.old.counted else self.old.counted + 1) }
        ensures low { self.new.low ≡ (if is_low slot then self.old.low + 1 else self.old.low) }
        ensures room { self.old.spare - 1 ≤ self.new.spare }
    {
        let write = Undo { slot, old: *old };
        self.undo.push(write).unwrap();
        self.written.push(slot).unwrap();
        self.standing += 1;
        if has_low_number(slot) {
            self.low += 1;
            self.low_room -= 1;
        } else {
            self.counted += 1;
            if self.spare > 0 {
                self.spare -= 1;
            } else {
                self.extra -= 1;
            }
        }
    }

    /// Removes the last write, which was due and is undone.
    pub fn pop(&mut self) -> Undo
        requires due { self.old.standing < length self.old.undo.items }
        ensures same { (self.new.begun ≡ self.old.begun) × (self.new.number ≡ self.old.number) × (self.new.standing ≡ self.old.standing) × (self.new.written.items ≡ self.old.written.items) }
        ensures counts { (self.new.counted ≡ self.old.counted) × (self.new.low ≡ self.old.low) × (self.new.spare ≡ self.old.spare) }
        ensures undo { self.old.undo.items ≡ self.new.undo.items ++ result ∷ [] }
    {
        match self.undo.pop() {
            Some(write) => write,
            None => unreachable!(),
        }
    }

    /// Lets the writes from this place on be due.
    pub fn go_back(&mut self, stand: usize)
        requires stand { stand ≤ self.old.standing }
        ensures transaction { transaction_of self.new ≡ record (transaction_of self.old) { undo = take stand self.old.undo.items } }
        ensures same { (self.new.undo.items ≡ self.old.undo.items) × (self.new.number ≡ self.old.number) × (self.new.standing ≡ stand) }
    {
        self.standing = stand;
    }

    /// Ends the transaction. Its writes are due.
    pub fn abandon(&mut self)
        ensures idle { transaction_of self.new ≡ idle }
        ensures same { (self.new.standing ≡ 0) × (self.new.undo.items ≡ self.old.undo.items) × (self.new.number ≡ self.old.number) }
    {
        self.written.clear();
        self.begun = false;
        self.standing = 0;
        self.counted = 0;
        self.low = 0;
        self.spare = 0;
        self.extra = 0;
        self.low_room = 0;
    }

    /// Ends the transaction and forgets its writes, which are committed.
    pub fn commit(&mut self)
        ensures idle { transaction_of self.new ≡ idle }
        ensures number { self.new.number ≡ None }
        ensures none { self.new.undo.items ≡ [] }
    {
        self.abandon();
        self.undo.clear();
        self.number = None;
    }
}
