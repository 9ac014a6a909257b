//! Notes of the writes of unfinished transactions, carried into a generation.

ghost use Rattle.std.specs.Prelude.{◌≡◌, ◌+◌, ◌*◌, ◌<◌, ◌≤◌, ◌^◌, ◌++◌, [], ℕ, List, length, IsTrue, IfOk, OnOk, is_ok};
ghost use Rattle.storage.specs.Disk.{Stays, Others, HasCause};
ghost use Rattle.log_meaning.specs.steps.Steps.{Image, Run};
ghost use Rattle.log_meaning.specs.declared.note.Note.{Note as LogNote};
ghost use Rattle.log_meaning.specs.Images.{slot_of};
ghost use Rattle.log_meaning.specs.Logged.{carried_of};
ghost use Rattle.bi_log.specs.Buffer.{content};
ghost use Rattle.bi_log.specs.Appending.{fresh};
ghost use Rattle.bi_log.specs.Generations.{IsClosed, AfterGate, IsPrepared};
ghost use Rattle.bi_log.specs.Carrying.{Carries};
ghost use Rattle.bi_log.specs.Lengths.{WithinLog};
ghost use Rattle.bi_recovery.specs.Carried.{IsCarried};
ghost use Rattle.open_transactions.specs.Clients.{list_in, number_in};
ghost use Rattle.checkpoint.specs.next.Carrying.{notes_of, notes_below};

use bi_log::NoteBuffer;
use bi_log::carrying::{carry_buffer, make_room};
use log_meaning::{Change, Note};
use open_transactions::Transactions;
use storage::{Disk, DiskFailed};

/// The bytes of a slot of area 0.
fn stored_slot<D: Disk>(disk: &mut D, slot: u32) -> Result<[u8; 256], DiskFailed>
    requires small { slot < 2 ^ 20 }
    ensures bytes { IfOk result (λ bytes. IsTrue (D.observable disk.old) → bytes ≡ slot_of (D.seen disk.old 0) slot) }
    ensures rest { Stays (D.observable disk.old) (D.observable disk.new) (D.seen disk.old) (D.seen disk.new) (D.time disk.old) (D.time disk.new) (D.left disk.old) (D.left disk.new) }
    ensures cause { HasCause (D.failures disk.old) (D.failures disk.new) (is_ok result) }
{
    let mut bytes = [0u8; 256];
    disk.read(0, 256 * slot as u64, &mut bytes)?;
    Ok(bytes)
}

/// Carries the writes of a client, each as a note of the bytes before it and of those that area 0
/// has. Returns the place of the next gate.
fn carry_client<D: Disk>(
    disk: &mut D,
    area: u8,
    first: u64,
    transactions: &Transactions,
    client: u16,
    number: u64,
    buffer: &mut NoteBuffer,
) -> Result<u64, DiskFailed>
    requires area { (1 ≤ area) × (area < 3) }
    requires client { client < 16 }
    requires first { 1 ≤ first }
    requires end { first + 6 * length (content buffer.old) + 3150 * length (list_in transactions.now.clients.items client) < 2 ^ 39 }
    requires closed { (image : Image) → D.left disk.old (D.time disk.old) image → IsClosed (image area) }
    ensures same_observable { D.observable disk.new ≡ D.observable disk.old }
    ensures time { Run (D.time disk.old) (D.time disk.new) (D.left disk.old) (D.left disk.new) (AfterGate area) }
    ensures ok { IfOk result (λ next. IsTrue (D.observable disk.old) → (generation : ℕ) (notes : List LogNote) → Carries (D.left disk.old (D.time disk.old)) area first buffer.old generation notes
        → Carries (D.left disk.new (D.time disk.new)) area next buffer.new generation (notes ++ carried_of number (slot_of (D.seen disk.old 0)) (list_in transactions.now.clients.items client))) }
    ensures place { IfOk result (λ next. (first ≤ next) × (next + 6 * length (content buffer.new) ≤ first + 6 * length (content buffer.old) + 3150 * length (list_in transactions.now.clients.items client))) }
    ensures near { IfOk result (λ next. 20 * next + 21 * length (content buffer.new) ≤ 20 * first + 21 * length (content buffer.old) + 11025 * length (list_in transactions.now.clients.items client)) }
    ensures within { (most : ℕ) → 20 * first + 21 * length (content buffer.old) + 11025 * length (list_in transactions.now.clients.items client) + 120 ≤ 20 * most → Run (D.time disk.old) (D.time disk.new) (D.left disk.old) (D.left disk.new) (WithinLog most) }
    ensures seen { IsTrue (D.observable disk.old) → Others area (D.seen disk.old) (D.seen disk.new) }
    ensures cause { HasCause (D.failures disk.old) (D.failures disk.new) (is_ok result) }
{
    let mut gate = first;
    let count = transactions.len(client);
    let mut i = 0;
    'writes: while i < count {
        let write = transactions.write_at(client, i);
        let slot = write.slot;
        let old = write.old;
        let at = make_room(disk, area, gate, buffer)?;
        let new = stored_slot(disk, slot)?;
        buffer.push(&Note::Change(Change {
            tx: number,
            slot,
            old,
            new,
        }));
        gate = at;
        i += 1;
    }
    Ok(gate)
}

/// Carries the writes of a client, if the log may have writes of it.
fn carry_one<D: Disk>(
    disk: &mut D,
    area: u8,
    first: u64,
    transactions: &Transactions,
    client: u16,
    buffer: &mut NoteBuffer,
) -> Result<u64, DiskFailed>
    requires area { (1 ≤ area) × (area < 3) }
    requires client { client < 16 }
    requires first { 1 ≤ first }
    requires few { length (list_in transactions.now.clients.items client) ≤ 7999 }
    requires end { first + 6 * length (content buffer.old) + 412876800 < 2 ^ 39 }
    requires closed { (image : Image) → D.left disk.old (D.time disk.old) image → IsClosed (image area) }
    ensures same_observable { D.observable disk.new ≡ D.observable disk.old }
    ensures time { Run (D.time disk.old) (D.time disk.new) (D.left disk.old) (D.left disk.new) (AfterGate area) }
    ensures ok { IfOk result (λ next. IsTrue (D.observable disk.old) → (generation : ℕ) (notes : List LogNote) → Carries (D.left disk.old (D.time disk.old)) area first buffer.old generation notes
        → Carries (D.left disk.new (D.time disk.new)) area next buffer.new generation (notes ++ notes_of (number_in transactions.now.clients.items client) (slot_of (D.seen disk.old 0)) (list_in transactions.now.clients.items client))) }
    ensures place { IfOk result (λ next. (first ≤ next) × (next + 6 * length (content buffer.new) ≤ first + 6 * length (content buffer.old) + 412876800)) }
    ensures near { IfOk result (λ next. 20 * next + 21 * length (content buffer.new) ≤ 20 * first + 21 * length (content buffer.old) + 88188975) }
    ensures within { (most : ℕ) → 20 * first + 21 * length (content buffer.old) + 88189095 ≤ 20 * most → Run (D.time disk.old) (D.time disk.new) (D.left disk.old) (D.left disk.new) (WithinLog most) }
    ensures seen { IsTrue (D.observable disk.old) → Others area (D.seen disk.old) (D.seen disk.new) }
    ensures cause { HasCause (D.failures disk.old) (D.failures disk.new) (is_ok result) }
{
    match transactions.number(client) {
        None => Ok(first),
        Some(number) => carry_client(disk, area, first, transactions, client, number, buffer),
    }
}

/// Carries the writes of all clients into the generation that the area is prepared for. Returns the
/// place of the next gate.
pub fn carry_all<D: Disk>(
    disk: &mut D,
    area: u8,
    transactions: &Transactions,
    buffer: &mut NoteBuffer,
) -> Result<u64, DiskFailed>
    requires area { (1 ≤ area) × (area < 3) }
    requires few { (client : ℕ) → client < 16 → length (list_in transactions.now.clients.items client) ≤ 7999 }
    requires empty { content buffer.old ≡ [] }
    requires closed { (image : Image) → D.left disk.old (D.time disk.old) image → IsClosed (image area) }
    ensures same_observable { D.observable disk.new ≡ D.observable disk.old }
    ensures time { Run (D.time disk.old) (D.time disk.new) (D.left disk.old) (D.left disk.new) (AfterGate area) }
    ensures ok { IfOk result (λ gate. IsTrue (D.observable disk.old) → (generation : ℕ) → ((image : Image) → D.left disk.old (D.time disk.old) image → IsPrepared (image area) (fresh generation) 32)
        → IsCarried (D.left disk.new (D.time disk.new)) area gate generation (notes_below (number_in transactions.now.clients.items) (slot_of (D.seen disk.old 0)) (list_in transactions.now.clients.items) 16)) }
    ensures empty { OnOk result (content buffer.new ≡ []) }
    ensures within { Run (D.time disk.old) (D.time disk.new) (D.left disk.old) (D.left disk.new) (WithinLog 167772160) }
    ensures seen { IsTrue (D.observable disk.old) → Others area (D.seen disk.old) (D.seen disk.new) }
    ensures cause { HasCause (D.failures disk.old) (D.failures disk.new) (is_ok result) }
{
    let mut gate: u64 = 32;
    let mut client = 0u16;
    'clients: while client < 16 {
        let next = carry_one(disk, area, gate, transactions, client, buffer)?;
        gate = next;
        client += 1;
    }
    carry_buffer(disk, area, gate, buffer)
}
