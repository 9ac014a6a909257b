//! Steps performed on slots over a disk. A step that has no meaning there is passed over.

ghost use Rattle.std.specs.Prelude.{◌≡◌, ◌≢◌, ◌<◌, ℕ, true, false, IsTrue};
ghost use Rattle.storage.specs.Slots.{IsAlone, is_low};
ghost use Rattle.open_transactions.specs.Clients.{transaction_in};
ghost use Rattle.open_transactions.specs.Written.{has_written};

use crate::disk_rows::steps::Step;
use open_transactions::{Transactions, has_low_number};
use slot_txn::SlotTxn;
use storage::{Disk, Mark, SlotFault, Slots};

/// How many writes of low slots a transaction has at most.
const MOST_LOW: u32 = 10;

/// What a step answered.
#[derive(Clone, Copy, PartialEq, Eq)]
pub enum Answer {
    Done,
    /// The number of writes at a mark, or the moment of a commit.
    At(u64),
    Refused(SlotFault),
    /// It has no meaning there.
    PassedOver,
}

/// Whether the slot is one of these.
fn is_listed(slots: &[u32], slot: u32) -> bool
    ensures { result ≡ has_written slots.now slot }
{
    for listed in slots {
        if slot == *listed {
            return true;
        }
    }
    false
}

/// Whether the client has begun a transaction.
fn is_begun(transactions: &Transactions, client: u16) -> bool
    requires client { client < 16 }
    ensures { result ≡ (transaction_in transactions.now.clients.items client).begun }
{
    transactions.clients[client as usize].begun
}

/// How many writes of low slots the client's transaction has.
fn low_count(transactions: &Transactions, client: u16) -> u32
    requires client { client < 16 }
    ensures { result ≡ (transaction_in transactions.now.clients.items client).low }
{
    transactions.clients[client as usize].low
}

/// Whether the client has begun a transaction that wrote the slot.
fn wrote(transactions: &Transactions, client: u16, slot: u32) -> bool
    requires client { client < 16 }
    ensures { result ≡ false → (transaction_in transactions.now.clients.items client).begun ≡ true → (transaction_in transactions.now.clients.items client).written slot ≡ false }
{
    is_begun(transactions, client) && has_listed(transactions, client, slot)
}

/// Whether the slot is one of those that the client's transaction wrote.
fn has_listed(transactions: &Transactions, client: u16, slot: u32) -> bool
    requires client { client < 16 }
    ensures { result ≡ (transaction_in transactions.now.clients.items client).written slot }
{
    is_listed(&transactions.clients[client as usize].written, slot)
}

/// Whether the other client is another one and has begun a transaction that wrote the slot.
fn other_wrote(transactions: &Transactions, client: u16, other: u16, slot: u32) -> bool
    requires other { other < 16 }
    ensures { result ≡ false → other ≢ client → (transaction_in transactions.now.clients.items other).begun ≡ true → (transaction_in transactions.now.clients.items other).written slot ≡ false }
{
    other != client && wrote(transactions, other, slot)
}

/// Whether another client has begun a transaction that wrote the slot.
fn others_wrote(transactions: &Transactions, client: u16, slot: u32) -> bool
    ensures { result ≡ false → (other : ℕ) → other ≢ client → other < 16 → (transaction_in transactions.now.clients.items other).begun ≡ true → (transaction_in transactions.now.clients.items other).written slot ≡ false }
{
    let mut other = 0u16;
    'clients: while other < 16 {
        if other_wrote(transactions, client, other, slot) {
            return true;
        }
        other += 1;
    }
    false
}

/// What a call without a value answered.
fn done(outcome: Result<(), SlotFault>) -> Answer {
    match outcome {
        Ok(()) => Answer::Done,
        Err(fault) => Answer::Refused(fault),
    }
}

/// Performs the step. `mark` is where a step back goes to.
pub fn perform<D: Disk + Drop>(slots: &mut SlotTxn<D>, step: &Step, mark: usize) -> Answer {
    match *step {
        Step::Begin(client) => begin(slots, client),
        Step::Write { client, slot, byte } => write(slots, client, slot, &[byte; 256]),
        Step::Mark(client) => mark_of(slots, client),
        Step::Back(client) => back(slots, client, mark),
        Step::Commit(client) => commit(slots, client),
        Step::Abandon(client) => abandon(slots, client),
    }
}

/// Begins a transaction of a client that has none.
pub fn begin<D: Disk + Drop>(slots: &mut SlotTxn<D>, client: u16) -> Answer {
    if !may_begin(slots, client) {
        return Answer::PassedOver;
    }
    done(slots.begin(client))
}

/// Whether the client, which is one of the sixteen, has no transaction.
fn may_begin<D: Disk + Drop>(slots: &SlotTxn<D>, client: u16) -> bool
    ensures one { result ≡ true → client < 16 }
    ensures idle { result ≡ true → ((⟦<SlotTxn<D> as Slots>⟧.state slots.now).transaction client).begun ≡ false }
{
    client < 16 && !is_begun(&slots.slots.transactions, client)
}

/// Whether no other client wrote the slot, and the client may write one more slot of a low number.
fn may_write<D: Disk + Drop>(slots: &SlotTxn<D>, client: u16, slot: u32) -> bool
    requires client { client < 16 }
    ensures alone { result ≡ true → IsAlone (⟦<SlotTxn<D> as Slots>⟧.state slots.now) client slot }
    ensures low { result ≡ true → IsTrue (is_low slot) → ((⟦<SlotTxn<D> as Slots>⟧.state slots.now).transaction client).low < 10 }
{
    if others_wrote(&slots.slots.transactions, client, slot) {
        return false;
    }
    if !has_low_number(slot) {
        return true;
    }
    low_count(&slots.slots.transactions, client) < MOST_LOW
}

/// Whether the client, which is one of the sixteen, has begun a transaction.
fn has_begun<D: Disk + Drop>(slots: &SlotTxn<D>, client: u16) -> bool
    ensures one { result ≡ true → client < 16 }
    ensures begun { result ≡ true → ((⟦<SlotTxn<D> as Slots>⟧.state slots.now).transaction client).begun ≡ true }
{
    client < 16 && is_begun(&slots.slots.transactions, client)
}

/// Writes a slot that no other client has written.
pub fn write<D: Disk + Drop>(
    slots: &mut SlotTxn<D>,
    client: u16,
    slot: u32,
    bytes: &[u8; 256],
) -> Answer {
    if slot >= 1 << 20 {
        return Answer::PassedOver;
    }
    if !has_begun(slots, client) {
        return Answer::PassedOver;
    }
    if !may_write(slots, client, slot) {
        return Answer::PassedOver;
    }
    done(slots.write(client, slot, bytes))
}

/// Where the client's transaction is.
fn mark_of<D: Disk + Drop>(slots: &SlotTxn<D>, client: u16) -> Answer {
    if !has_begun(slots, client) {
        return Answer::PassedOver;
    }
    Answer::At(slots.mark(client).at as u64)
}

/// Goes back to where so many writes were not undone.
pub fn back<D: Disk + Drop>(slots: &mut SlotTxn<D>, client: u16, at: usize) -> Answer {
    if !has_begun(slots, client) {
        return Answer::PassedOver;
    }
    let here = slots.mark(client);
    if here.at < at {
        return Answer::PassedOver;
    }
    done(slots.back(client, Mark { at }))
}

/// Commits the client's transaction.
pub fn commit<D: Disk + Drop>(slots: &mut SlotTxn<D>, client: u16) -> Answer {
    if !has_begun(slots, client) {
        return Answer::PassedOver;
    }
    match slots.commit(client) {
        Ok(moment) => Answer::At(moment),
        Err(fault) => Answer::Refused(fault),
    }
}

/// Abandons the client's transaction.
pub fn abandon<D: Disk + Drop>(slots: &mut SlotTxn<D>, client: u16) -> Answer {
    if !has_begun(slots, client) {
        return Answer::PassedOver;
    }
    slots.abandon(client);
    Answer::Done
}
