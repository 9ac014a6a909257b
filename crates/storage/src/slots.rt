//! The array of 256-byte slots with transactions.

ghost use Rattle.std.specs.Prelude.{◌≡◌, ◌<◌, ◌≤◌, ◌^◌, ◌↔◌, ℕ, List, length, true, false, IsTrue, IfOk, OnOk, OnErr, IsErrOf};
ghost use Rattle.storage.specs.Slots.{SlotState, IsReadable, AreBlankFrom, Rests, Begins, Writes, GoesBack, Ends, Commits, Fails, Grows, Goes, HasCause, OnlyDisk, NeverFull, IsAlone, IsFull, IsStop, is_low};

/// Why a call on the slots was refused.
#[derive(Clone, Copy, Debug, PartialEq, Eq)]
pub enum SlotFault {
    /// The disk failed in this call or in an earlier one.
    Disk,
    /// The transaction has 7,989 writes that count, and this one would too.
    TxFull,
    /// There was not enough memory.
    NoMemory,
}

/// A place in a transaction: the number of its writes that are not undone at this place.
#[derive(Clone, Copy)]
pub struct Mark {
    pub at: usize,
}

/// A write that can be undone: its slot, and the bytes before it.
#[derive(Clone, Copy)]
pub struct Undo {
    pub slot: u32,
    pub old: [u8; 256],
}

/// Slots 0 to 1,048,575 of 256 bytes each, with at most one transaction of each of the clients 0
/// to 15. Each slot is written by one begun transaction at most. That writes of the slots 5,000 to
/// 5,099 do not count, and the numbers 16, 7,989 and ten, are this project's choice.
pub trait Slots {
    /// The results of reads, the committed slots, the begun transactions, and the moment.
    ghost state: { Self → SlotState };

    /// The slots that reopening after a stop at that moment may give. It is empty outside the moments
    /// from `since` to now, and everywhere where stops are not observable.
    ghost stop: { Self → ℕ → (ℕ → List ℕ) → Type 0 };

    /// How often the disk has failed, at most 2^64 - 1.
    fn faults(&self) -> u64
        ensures { result ≡ (state self.now).faults };

    /// A number of slots, at most 1,048,576: each slot from there on reads zeros. It makes no disk call
    /// and takes no memory.
    fn end(&self) -> u32
        ensures small { result ≤ 2 ^ 20 }
        ensures blank { IsReadable (state self.now) → AreBlankFrom result (state self.now).reads };

    /// Reads the slot's bytes. It takes no memory.
    fn read(&mut self, slot: u32, into: &mut [u8; 256]) -> Result<(), SlotFault>
        requires { slot < 2 ^ 20 }
        ensures bytes { OnOk result (IsReadable (state self.old) → into.new ≡ (state self.old).reads slot) }
        ensures rest { Rests (state self.old) (state self.new) }
        ensures time { Goes (state self.old) (state self.new) (stop self.old) (stop self.new) }
        ensures cause { HasCause (state self.old) (state self.new) result }
        ensures only { OnlyDisk result };

    /// Begins the client's transaction, with memory for ten writes of low slots. After an error none
    /// is begun.
    fn begin(&mut self, client: u16) -> Result<(), SlotFault>
        requires client { client < 16 }
        requires idle { ((state self.old).transaction client).begun ≡ false }
        ensures ok { OnOk result (Begins (state self.old) (state self.new) client) }
        ensures err { OnErr result (Rests (state self.old) (state self.new)) }
        ensures time { Goes (state self.old) (state self.new) (stop self.old) (stop self.new) }
        ensures cause { HasCause (state self.old) (state self.new) result }
        ensures only { NeverFull result };

    /// Writes no slot. After Ok the next `writes` writes of this transaction never answer NoMemory.
    fn room(&mut self, client: u16, writes: u32) -> Result<(), SlotFault>
        requires client { client < 16 }
        requires begun { ((state self.old).transaction client).begun ≡ true }
        requires few { writes ≤ 7989 }
        ensures ok { OnOk result (Grows (state self.old) (state self.new) client writes) }
        ensures err { OnErr result (Rests (state self.old) (state self.new)) }
        ensures time { Goes (state self.old) (state self.new) (stop self.old) (stop self.new) }
        ensures cause { HasCause (state self.old) (state self.new) result }
        ensures only { NeverFull result };

    /// Writes the slot, which no other begun transaction wrote, writes that `back` undid included. A
    /// transaction writes low slots at most ten times, and such a write never answers NoMemory.
    /// `TxFull` is returned exactly if the transaction has 7,989 writes that count and the slot is
    /// not low. The undo list grows by this write alone. Undoing it restores the slots as they were.
    fn write(&mut self, client: u16, slot: u32, bytes: &[u8; 256]) -> Result<(), SlotFault>
        requires client { client < 16 }
        requires slot { slot < 2 ^ 20 }
        requires begun { ((state self.old).transaction client).begun ≡ true }
        requires alone { IsAlone (state self.old) client slot }
        requires low { IsTrue (is_low slot) → ((state self.old).transaction client).low < 10 }
        ensures ok { OnOk result (Writes (state self.old) (state self.new) client slot bytes.now) }
        ensures err { OnErr result (Rests (state self.old) (state self.new)) }
        ensures full { IsErrOf result SlotFault.TxFull ↔ IsFull (state self.old) client slot }
        ensures room { 0 < ((state self.old).transaction client).room → IsErrOf result SlotFault.NoMemory → ⊥ }
        ensures low_room { IsTrue (is_low slot) → IsErrOf result SlotFault.NoMemory → ⊥ }
        ensures time { Goes (state self.old) (state self.new) (stop self.old) (stop self.new) }
        ensures cause { HasCause (state self.old) (state self.new) result };

    /// The transaction's present place.
    fn mark(&self, client: u16) -> Mark
        requires client { client < 16 }
        requires begun { ((state self.now).transaction client).begun ≡ true }
        ensures { result.at ≡ length ((state self.now).transaction client).undo };

    /// Undoes the writes since the mark, which still count. The mark is of this transaction, and no
    /// `back` to an earlier mark was called since it was made. It takes no memory.
    fn back(&mut self, client: u16, mark: Mark) -> Result<(), SlotFault>
        requires client { client < 16 }
        requires begun { ((state self.old).transaction client).begun ≡ true }
        requires mark { mark.at ≤ length ((state self.old).transaction client).undo }
        ensures ok { OnOk result (GoesBack (state self.old) (state self.new) client mark.at) }
        ensures err { OnErr result (Rests (state self.old) (state self.new)) }
        ensures time { Goes (state self.old) (state self.new) (stop self.old) (stop self.new) }
        ensures cause { HasCause (state self.old) (state self.new) result }
        ensures only { OnlyDisk result };

    /// Commits the transaction's writes and ends it. It returns the moment from which on each stop
    /// leaves them. After an error the transaction is still begun, and a stop may leave its writes or
    /// not. It takes no memory.
    fn commit(&mut self, client: u16) -> Result<u64, SlotFault>
        requires client { client < 16 }
        requires begun { ((state self.old).transaction client).begun ≡ true }
        ensures moment { IfOk result (λ moment. moment ≡ (state self.new).moment) }
        ensures ok { OnOk result (Commits (state self.old) (state self.new) client) }
        ensures acknowledged { OnOk result ((slots : ℕ → List ℕ) → stop self.new (state self.new).moment slots → slots ≡ (state self.new).committed) }
        ensures err { OnErr result (Fails (state self.old) (state self.new) client) }
        ensures time { Goes (state self.old) (state self.new) (stop self.old) (stop self.new) }
        ensures cause { HasCause (state self.old) (state self.new) result }
        ensures only { OnlyDisk result };

    /// Undoes all of the transaction's writes and ends it. It cannot fail and takes no memory.
    /// Where the disk fails on the way, its count rises and the next call finishes the undoing: that
    /// call answers Disk only where the disk fails again, or where a call had answered Disk before.
    fn abandon(&mut self, client: u16)
        requires client { client < 16 }
        requires begun { ((state self.old).transaction client).begun ≡ true }
        ensures ended { Ends (state self.old) (state self.new) client }
        ensures time { Goes (state self.old) (state self.new) (stop self.old) (stop self.new) };

    /// A stop is known only where the slots are observable, and of moments from `since` to now.
    ghost stop_known: { (s : Self) (m : ℕ) (slots : ℕ → List ℕ) → stop s m slots → IsStop (state s) m };

    /// The moment `since` is past.
    ghost since_past: { (s : Self) → (state s).since ≤ (state s).moment };
}
