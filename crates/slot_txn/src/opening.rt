//! Opening and closing.

ghost use Rattle.std.specs.Prelude.{◌≡◌, ◌⊎◌, ◌≤◌, ◌^◌, [], None, ℕ, List, IsTrue, IfOk, IfErr, IsErrOf};
ghost use Rattle.storage.specs.faults.Faults.{Rose};
ghost use Rattle.log_meaning.specs.steps.Steps.{Image, Run};
ghost use Rattle.log_meaning.specs.Images.{Recovers};
ghost use Rattle.bi_log.specs.Logs.{HasNotes};
ghost use Rattle.bi_log.specs.Lengths.{WithinLog, StayShort};
ghost use Rattle.bi_recovery.specs.Reopening.{IsReadAs, SameRecovery};
ghost use Rattle.bi_recovery.specs.Causes.{HasOpenCause};
ghost use Rattle.open_transactions.specs.Clients.{idle, transaction_in, list_in, number_in};
ghost use Rattle.slot_area.specs.Area.{below, view, unwritten};
ghost use Rattle.slot_txn.specs.logged.Stops.{StayRecoverable};
ghost use Rattle.slot_txn.specs.Opening.{IsOpenedOver, IsFresh};

use crate::log_area::log_area;
use crate::logged::{Generation, LoggedSlots};
use crate::recovering::recover_whole;
use crate::slot_txn::SlotTxn;
use bi_log::Log;
use bi_recovery::recovery_run::Reopened;
use bi_recovery::{OpenFault, ReadLog, read_log};
use open_transactions::Transactions;
use slot_area::{FRAMES, SlotArea};
use std::alloc::{AllocError, Global};
use storage::{Disk, Slots};

/// The parts in memory of slots that are opened: no note, no frame in use, no transaction.
#[derive(Drop)]
struct Parts {
    log: Log,
    slots: SlotArea,
    transactions: Transactions,
    generation: Generation,
    ghost place: { (1 ≤ log.area) × (log.area ≤ 2) },
    ghost at: { log.gate ≡ 32 },
    ghost counts: { (log.appended ≡ 0) × (log.settled ≡ 0) },
    ghost notes: { ∥ HasNotes log.buffer [] ∥₁ },
    ghost reads: { (stored : List ℕ) (slot : ℕ) → view slots stored slot ≡ below slots.end stored slot },
    ghost unchanged: { (slot : ℕ) → unwritten slots slot ≡ None },
    ghost inactive: { (k : ℕ) → transaction_in transactions.clients.items k ≡ idle },
    ghost none: { (k : ℕ) → list_in transactions.clients.items k ≡ [] },
    ghost numbers: { (k : ℕ) → number_in transactions.clients.items k ≡ None },
    ghost extents: { (generation.extent ≤ slots.end) × (generation.filled ≡ generation.extent) },
}

/// The extent, where area 0 has `end` slots.
fn extent_within(extent: u64, end: u32) -> u32
    ensures { (result ≤ extent) × (result ≤ end) }
{
    if extent < end as u64 {
        extent as u32
    } else {
        end
    }
}

impl Parts {
    /// Takes the memory of the log's buffer, of the frames and of the clients.
    fn new(opened: &Reopened, end: u32, alloc: Global) -> Result<Parts, AllocError>
        requires end { end ≤ 2 ^ 20 }
        requires gate { opened.now.gate ≡ 32 }
        ensures generation { IfOk result (λ p. p.generation.number ≡ opened.now.generation) }
        ensures extent { IfOk result (λ p. p.generation.extent ≤ opened.now.extent) }
        ensures end { IfOk result (λ p. p.slots.end ≡ end) }
        ensures area { IfOk result (λ p. (opened.now.area ≡ 1) ⊎ (opened.now.area ≡ 2) → p.log.area ≡ opened.now.area) }
    {
        let extent = extent_within(opened.extent, end);
        Ok(Parts {
            log: Log::new(log_area(opened.area), opened.gate, alloc)?,
            slots: SlotArea::new(FRAMES, end, alloc)?,
            transactions: Transactions::new(alloc)?,
            generation: Generation {
                number: opened.generation,
                opened_at: opened.gate,
                extent,
                filled: extent,
            },
        })
    }
}

/// Recovers the disk, of which this log was read, and takes the memory for its slots.
fn recovered_parts<D: Disk>(disk: &mut D, log: &ReadLog, alloc: Global) -> Result<Parts, OpenFault>
    requires log { IsTrue (D.observable disk.old) → IsReadAs (D.seen disk.old) log.now.area log.now.generation log.now.slots.items }
    ensures same_observable { D.observable disk.new ≡ D.observable disk.old }
    ensures time { Run (D.time disk.old) (D.time disk.new) (D.left disk.old) (D.left disk.new) SameRecovery }
    ensures ok { IfOk result (λ p. IsTrue (D.observable disk.old) → IsFresh (D.seen disk.old) (D.seen disk.new) (D.left disk.new (D.time disk.new)) p.log.area p.generation.number p.generation.extent p.slots.end) }
    ensures within { Run (D.time disk.old) (D.time disk.new) (D.left disk.old) (D.left disk.new) (WithinLog 167772160) }
    ensures none { IsErrOf result OpenFault.NotCreated → IsTrue (D.observable disk.old) → (slots : ℕ → List ℕ) → Recovers (D.seen disk.old) slots → ⊥ }
    ensures cause { HasOpenCause (D.failures disk.old) (D.failures disk.new) result }
{
    let whole = recover_whole(disk, log, alloc)?;
    Ok(Parts::new(&whole.opened, whole.end, alloc)?)
}

impl<D: Disk + Drop> SlotTxn<D> {
    /// Recovers the disk, and opens its slots with no transaction begun. It takes about 3.5 MB of
    /// memory, and for a while memory for the notes of the log. `NotCreated` comes where the disk
    /// recovers to nothing, `Disk` where the disk failed, and `NoMemory` also where area 0 has more
    /// than 268,435,456 bytes, 1,048,576 slots (this project's choice: no image of a run of this
    /// program has). A slot within which area 0 ends has zeros past the end, and is written whole. At
    /// each moment, also where it fails, each image recovers to what an image at the start recovers
    /// to, and if no image at the start has an area of the log longer than 167,772,160 bytes, no
    /// image has one.
    pub fn open(alloc: Global, disk: D) -> Result<SlotTxn<D>, (OpenFault, D)>
        ensures ok { IfOk result (λ s. IsOpenedOver (⟦<SlotTxn<D> as Slots>⟧.state s) (⟦<SlotTxn<D> as Slots>⟧.stop s) (D.observable disk) (D.seen disk) (D.time disk) (D.left disk)) }
        ensures run { IfOk result (λ s. Run (D.time disk) (D.time s.slots.disk) (D.left disk) (D.left s.slots.disk) SameRecovery) }
        ensures err_run { IfErr result (λ e. Run (D.time disk) (D.time e.1) (D.left disk) (D.left e.1) SameRecovery) }
        ensures short { IfOk result (λ s. StayShort (D.left s.slots.disk) (D.time disk)) }
        ensures err_short { IfErr result (λ e. StayShort (D.left e.1) (D.time disk)) }
        ensures err_observable { IfErr result (λ e. D.observable e.1 ≡ D.observable disk) }
        ensures none { IfErr result (λ e. e.0 ≡ OpenFault.NotCreated → IsTrue (D.observable disk) → (slots : ℕ → List ℕ) → Recovers (D.seen disk) slots → ⊥) }
        ensures cause { IfErr result (λ e. (D.failures disk ≤ D.failures e.1) × (e.0 ≡ OpenFault.Disk → Rose (D.failures disk) (D.failures e.1))) }
    {
        let mut disk = disk;
        match read_log(&mut disk, alloc) {
            Ok(log) => SlotTxn::open_read(alloc, disk, log),
            Err(fault) => Err((fault, disk)),
        }
    }

    /// The same for a disk of which the log was read, and which was not written since then: the log
    /// is not read again.
    pub fn open_read(alloc: Global, disk: D, log: ReadLog) -> Result<SlotTxn<D>, (OpenFault, D)>
        requires log { IsTrue (D.observable disk) → IsReadAs (D.seen disk) log.area log.generation log.slots.items }
        ensures ok { IfOk result (λ s. IsOpenedOver (⟦<SlotTxn<D> as Slots>⟧.state s) (⟦<SlotTxn<D> as Slots>⟧.stop s) (D.observable disk) (D.seen disk) (D.time disk) (D.left disk)) }
        ensures run { IfOk result (λ s. Run (D.time disk) (D.time s.slots.disk) (D.left disk) (D.left s.slots.disk) SameRecovery) }
        ensures err_run { IfErr result (λ e. Run (D.time disk) (D.time e.1) (D.left disk) (D.left e.1) SameRecovery) }
        ensures short { IfOk result (λ s. StayShort (D.left s.slots.disk) (D.time disk)) }
        ensures err_short { IfErr result (λ e. StayShort (D.left e.1) (D.time disk)) }
        ensures err_observable { IfErr result (λ e. D.observable e.1 ≡ D.observable disk) }
        ensures none { IfErr result (λ e. e.0 ≡ OpenFault.NotCreated → IsTrue (D.observable disk) → (slots : ℕ → List ℕ) → Recovers (D.seen disk) slots → ⊥) }
        ensures cause { IfErr result (λ e. (D.failures disk ≤ D.failures e.1) × (e.0 ≡ OpenFault.Disk → Rose (D.failures disk) (D.failures e.1))) }
    {
        let mut disk = disk;
        let since = disk.moment();
        match recovered_parts(&mut disk, &log, alloc) {
            Ok(parts) => Ok(SlotTxn {
                slots: LoggedSlots {
                    disk,
                    log: parts.log,
                    slots: parts.slots,
                    transactions: parts.transactions,
                    generation: parts.generation,
                    serial: 1,
                    failed: false,
                    doubtful: None,
                    exhausted: false,
                    since,
                    short: false,
                },
            }),
            Err(fault) => Err((fault, disk)),
        }
    }

    /// The disk. Transactions that are begun are abandoned: reopening gives what is committed, or
    /// that with the writes of a commit that answered Disk. No image has an area of the log longer
    /// than 167,772,160 bytes, if none of the moment of `open` has one.
    pub fn close(self) -> D
        ensures disk { result ≡ self.slots.disk }
        ensures stops { (m : ℕ) (image : Image) (slots : ℕ → List ℕ) → self.slots.since ≤ m → D.left result m image → Recovers image slots → ⟦<SlotTxn<D> as Slots>⟧.stop self m slots }
        ensures recoverable { StayRecoverable (D.left result) self.slots.since }
        ensures short { StayShort (D.left result) self.slots.since }
    {
        self.slots.disk
    }
}
