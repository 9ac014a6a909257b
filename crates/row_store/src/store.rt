//! The store of rows with transactions.

ghost use Rattle.std.specs.Prelude.{◌≡◌, ◌≢◌, ◌<◌, ◌≤◌, ◌↔◌, ℕ, List, Option, length, true, false, Some, None, IsTrue, IsFalse, IfOk, OnOk, OnErr, MatchOption, ⊤};
ghost use Rattle.std.specs.Option.{option_copied};
ghost use Rattle.abl_base.specs.declared.limits.TheConstants.{MAX_ROW_BYTES};
ghost use Rattle.abl_base.specs.declared.row.RowId.{RowId};
ghost use Rattle.database_meaning.specs.declared.state.Key.{Key};
ghost use Rattle.database_meaning.specs.Setting.{FitsTable, HasIndex, HasTable, fragments, row_size};
ghost use Rattle.database_meaning.specs.Waiting.{ListsAll, row_in};
ghost use Rattle.database_meaning.specs.Search.{IsNextIn};
ghost use Rattle.row_store.specs.Rows.{RowState, Durable, IsObservable, IsConsistent, AfterError, Begins, ChangesRow, IsFree, GoesBack, Commits, Abandons, HasCause, OnlyDisk, durable_of};
ghost use Rattle.row_store.specs.Questions.{FindsNoneIn, IsLeastDuplicate, IsLongKey, IsUsed, ReservesAgainst, replaced_at, table_at};
ghost use Rattle.row_store.specs.Times.{Goes, IsInDoubt, IsStop, Rests, Times};

use abl_base::{Bytes, Row, RowId};
use database_meaning::StoredRow;
use database_protocol::{ClientIds, Cursor};

/// Why a call on the rows was refused.
#[derive(Clone, Copy, Debug, PartialEq, Eq)]
pub enum RowFault {
    /// The disk failed in this call or in an earlier one.
    Disk,
    /// Out of memory; nothing has changed.
    NoMemory,
}

/// A change that can be undone: its row, and the row's value before it.
#[derive(Drop)]
pub struct RowChange {
    pub row: u32,
    pub old: Option<StoredRow>,
}

/// Another row with a unique key of a new row, in this index.
#[derive(Clone, Copy)]
pub struct Duplicate {
    pub index: u16,
    pub row: RowId,
}

/// A row that a search found, with its key in the order of the search.
#[derive(Drop)]
pub struct FoundRow {
    pub row: RowId,
    pub key: Bytes,
    pub values: Row,
}

/// Rows by their identities, with at most one transaction of each of the clients 0 to 15. Each row
/// is changed by one begun transaction at most. A call that only asks leaves the state as it is.
pub trait RowStore {
    /// The present rows, what is committed, and the transactions.
    ghost state: { Self → RowState };

    /// How often the disk has failed.
    ghost faults: { Self → ℕ };

    /// The moments, and what a commit in doubt would leave.
    ghost times: { Self → Times };

    /// What reopening after a stop at that moment may give. It is known only of the moments from
    /// `since` to now.
    ghost left: { Self → ℕ → Durable → Type 0 };

    /// The table of the row. It takes no memory.
    fn table(&mut self, row: RowId) -> Result<Option<u16>, RowFault>
        ensures found { IfOk result (λ table. IsObservable (state self.old) → table ≡ table_at (state self.old).rows row.0) }
        ensures same { OnOk result (state self.new ≡ state self.old) }
        ensures err { AfterError (state self.old) (state self.new) result }
        ensures cause { HasCause (faults self.old) (faults self.new) (state self.old) result }
        ensures only { OnlyDisk result }
        ensures time { Rests (state self.old) (left self.old) (left self.new) (times self.old) (times self.new) };

    /// The values of the row, if it is a row of that table.
    fn get(&mut self, table: u16, row: RowId) -> Result<Option<Row>, RowFault>
        ensures found { IfOk result (λ found. IsObservable (state self.old) →
            MatchOption found (table_at (state self.old).rows row.0 ≢ Some table)
            (λ values. (state self.old).rows row.0 ≡ row_in table values)) }
        ensures same { OnOk result (state self.new ≡ state self.old) }
        ensures err { AfterError (state self.old) (state self.new) result }
        ensures cause { HasCause (faults self.old) (faults self.new) (state self.old) result }
        ensures time { Rests (state self.old) (left self.old) (left self.new) (times self.old) (times self.new) };

    /// The other clients that have reserved a unique key which these values have and the row that
    /// they replace has not, ascending.
    fn reserved_by(
        &mut self,
        client: u16,
        table: u16,
        row: Option<RowId>,
        values: &Row,
    ) -> Result<ClientIds, RowFault>
        requires table { HasTable (state self.old).schema table }
        requires fits { FitsTable (state self.old).schema table values.now }
        ensures found { IfOk result (λ holders. IsObservable (state self.old) →
            ListsAll holders (ReservesAgainst (state self.old) client (replaced_at (state self.old) row) (row_in table values.now))) }
        ensures same { OnOk result (state self.new ≡ state self.old) }
        ensures err { AfterError (state self.old) (state self.new) result }
        ensures cause { HasCause (faults self.old) (faults self.new) (state self.old) result }
        ensures time { Rests (state self.old) (left self.old) (left self.new) (times self.old) (times self.new) };

    /// The least index in which another row than the replaced one has a unique key of these values,
    /// with that row.
    fn duplicate(
        &mut self,
        table: u16,
        row: Option<RowId>,
        values: &Row,
    ) -> Result<Option<Duplicate>, RowFault>
        requires table { HasTable (state self.old).schema table }
        requires fits { FitsTable (state self.old).schema table values.now }
        ensures found { IfOk result (λ found. IsObservable (state self.old) →
            MatchOption found ((index : ℕ) (other : RowId) → ¬ IsLeastDuplicate (state self.old) row (row_in table values.now) index other)
            (λ duplicate. IsLeastDuplicate (state self.old) row (row_in table values.now) duplicate.index duplicate.row)) }
        ensures same { OnOk result (state self.new ≡ state self.old) }
        ensures err { AfterError (state self.old) (state self.new) result }
        ensures cause { HasCause (faults self.old) (faults self.new) (state self.old) result }
        ensures time { Rests (state self.old) (left self.old) (left self.new) (times self.old) (times self.new) };

    /// The first row after the cursor in the order of the index, or of identities without an index,
    /// whose leading values are those of the prefix; the last one before it where the search does
    /// not go forward.
    fn next(
        &mut self,
        table: u16,
        index: Option<u16>,
        prefix: &Row,
        cursor: Option<&Cursor>,
        forward: bool,
    ) -> Result<Option<FoundRow>, RowFault>
        requires table { HasTable (state self.old).schema table }
        requires order { MatchOption index ⊤ (λ i. HasIndex (state self.old).schema table i) }
        ensures found { IfOk result (λ found. IsObservable (state self.old) →
            MatchOption found (FindsNoneIn (state self.old).schema (state self.old).rows table index prefix.now (option_copied cursor.entry) forward)
            (λ f. IsNextIn (state self.old).schema (state self.old).rows table index prefix.now (option_copied cursor.entry) forward f.row f.key f.values)) }
        ensures same { OnOk result (state self.new ≡ state self.old) }
        ensures err { AfterError (state self.old) (state self.new) result }
        ensures cause { HasCause (faults self.old) (faults self.new) (state self.old) result }
        ensures time { Rests (state self.old) (left self.old) (left self.new) (times self.old) (times self.new) };

    /// The number of the row's fragments, 0 where there is no row. It takes no memory.
    fn fragments(&mut self, row: RowId) -> Result<u32, RowFault>
        ensures found { IfOk result (λ count. IsObservable (state self.old) → count ≡ fragments ((state self.old).rows row.0)) }
        ensures same { OnOk result (state self.new ≡ state self.old) }
        ensures err { AfterError (state self.old) (state self.new) result }
        ensures cause { HasCause (faults self.old) (faults self.new) (state self.old) result }
        ensures only { OnlyDisk result }
        ensures time { Rests (state self.old) (left self.old) (left self.new) (times self.old) (times self.new) };

    /// The number of used fragments: those of the committed rows, and those that open transactions
    /// drew. A change that would make it pass MAX_FRAGMENTS is answered Full.
    fn used(&self) -> u64
        ensures { IsObservable (state self.now) → IsUsed (state self.now) result };

    /// The number of slot writes of the client's transaction. A change that would make it pass
    /// MAX_SLOT_WRITES is answered TxFull.
    fn written(&self, client: u16) -> u64
        requires client { client < 16 }
        ensures { result ≡ ((state self.now).transaction client).written };

    /// The least index in which the key of these values is too long.
    fn long_key(&self, table: u16, values: &Row) -> Result<Option<u16>, RowFault>
        requires table { HasTable (state self.now).schema table }
        requires fits { FitsTable (state self.now).schema table values.now }
        ensures found { IfOk result (λ found. MatchOption found ((index : ℕ) → ¬ IsLongKey (state self.now).schema table values.now index)
            (λ index. IsLongKey (state self.now).schema table values.now index)) };

    /// Whether the client has reserved a unique key.
    fn has_reserved(&self, client: u16) -> bool
        requires client { client < 16 }
        ensures { IsTrue result ↔ ((k : Key) × IsTrue (((state self.now).transaction client).reserved k)) };

    /// Begins the client's transaction. After an error none is begun.
    fn begin(&mut self, client: u16) -> Result<(), RowFault>
        requires client { client < 16 }
        requires fine { (state self.old).failed ≡ false }
        requires idle { ((state self.old).transaction client).begun ≡ false }
        ensures ok { OnOk result (Begins (state self.old) (state self.new) client) }
        ensures err { AfterError (state self.old) (state self.new) result }
        ensures cause { HasCause (faults self.old) (faults self.new) (state self.old) result }
        ensures time { Rests (state self.old) (left self.old) (left self.new) (times self.old) (times self.new) };

    /// An identity that a new row may have.
    fn fresh(&mut self) -> Result<RowId, RowFault>
        ensures free { IfOk result (λ row. IsFree (state self.old) row.0) }
        ensures same { OnOk result (state self.new ≡ state self.old) }
        ensures err { AfterError (state self.old) (state self.new) result }
        ensures cause { HasCause (faults self.old) (faults self.new) (state self.old) result }
        ensures time { Rests (state self.old) (left self.old) (left self.new) (times self.old) (times self.new) };

    /// Inserts a row at a free identity. The caller has asked for duplicates, reserved keys, long
    /// keys and room before: the errors are those of memory and the disk alone.
    fn insert(&mut self, client: u16, row: RowId, table: u16, values: &Row) -> Result<(), RowFault>
        requires client { client < 16 }
        requires fine { (state self.old).failed ≡ false }
        requires begun { ((state self.old).transaction client).begun ≡ true }
        requires free { IsFree (state self.old) row.0 }
        requires table { HasTable (state self.old).schema table }
        requires fits { FitsTable (state self.old).schema table values.now }
        requires size { row_size values.now ≤ MAX_ROW_BYTES }
        ensures ok { OnOk result (ChangesRow (state self.old) (state self.new) client row.0 (row_in table values.now)) }
        ensures err { AfterError (state self.old) (state self.new) result }
        ensures cause { HasCause (faults self.old) (faults self.new) (state self.old) result }
        ensures time { Rests (state self.old) (left self.old) (left self.new) (times self.old) (times self.new) };

    /// Gives a row of the table other values. No other begun transaction has touched it.
    fn put(&mut self, client: u16, table: u16, row: RowId, values: &Row) -> Result<(), RowFault>
        requires client { client < 16 }
        requires fine { (state self.old).failed ≡ false }
        requires begun { ((state self.old).transaction client).begun ≡ true }
        requires table { HasTable (state self.old).schema table }
        requires fits { FitsTable (state self.old).schema table values.now }
        requires size { row_size values.now ≤ MAX_ROW_BYTES }
        requires there { IsObservable (state self.old) → table_at (state self.old).rows row.0 ≡ Some table }
        requires alone { IsObservable (state self.old) → (c : ℕ) → c ≢ client → IsFalse (((state self.old).transaction c).touched row.0) }
        ensures ok { OnOk result (ChangesRow (state self.old) (state self.new) client row.0 (row_in table values.now)) }
        ensures err { AfterError (state self.old) (state self.new) result }
        ensures cause { HasCause (faults self.old) (faults self.new) (state self.old) result }
        ensures time { Rests (state self.old) (left self.old) (left self.new) (times self.old) (times self.new) };

    /// Deletes a row of the table. No other begun transaction has touched it.
    fn delete(&mut self, client: u16, table: u16, row: RowId) -> Result<(), RowFault>
        requires client { client < 16 }
        requires fine { (state self.old).failed ≡ false }
        requires begun { ((state self.old).transaction client).begun ≡ true }
        requires there { IsObservable (state self.old) → table_at (state self.old).rows row.0 ≡ Some table }
        requires alone { IsObservable (state self.old) → (c : ℕ) → c ≢ client → IsFalse (((state self.old).transaction c).touched row.0) }
        ensures ok { OnOk result (ChangesRow (state self.old) (state self.new) client row.0 None) }
        ensures err { AfterError (state self.old) (state self.new) result }
        ensures cause { HasCause (faults self.old) (faults self.new) (state self.old) result }
        ensures time { Rests (state self.old) (left self.old) (left self.new) (times self.old) (times self.new) };

    /// The number of changes of the transaction that are not undone.
    fn mark(&self, client: u16) -> usize
        requires client { client < 16 }
        requires begun { ((state self.now).transaction client).begun ≡ true }
        ensures { result ≡ length ((state self.now).transaction client).changes };

    /// Undoes the changes after the mark, in rows and indexes. It takes no memory.
    fn back(&mut self, client: u16, mark: usize) -> Result<(), RowFault>
        requires client { client < 16 }
        requires fine { (state self.old).failed ≡ false }
        requires begun { ((state self.old).transaction client).begun ≡ true }
        requires mark { mark ≤ length ((state self.old).transaction client).changes }
        ensures ok { OnOk result (GoesBack (state self.old) (state self.new) client mark) }
        ensures err { AfterError (state self.old) (state self.new) result }
        ensures cause { HasCause (faults self.old) (faults self.new) (state self.old) result }
        ensures only { OnlyDisk result }
        ensures time { Rests (state self.old) (left self.old) (left self.new) (times self.old) (times self.new) };

    /// Commits the transaction with these values of the schema's sequences, and returns the moment from
    /// which on each stop leaves it. It takes no memory.
    fn commit(&mut self, client: u16, sequences: &[i64]) -> Result<u64, RowFault>
        requires client { client < 16 }
        requires fine { (state self.old).failed ≡ false }
        requires begun { ((state self.old).transaction client).begun ≡ true }
        requires sequences { length sequences.now ≡ length (state self.old).schema.sequences }
        ensures ok { OnOk result (Commits (state self.old) (state self.new) client sequences.now) }
        ensures moment { IfOk result (λ moment. moment ≡ (times self.new).moment) }
        ensures acknowledged { OnOk result ((durable : Durable) → left self.new (times self.new).moment durable → durable ≡ durable_of (state self.new)) }
        ensures certain { OnOk result (IsTrue (state self.old).observable → (times self.new).doubt ≡ durable_of (state self.new)) }
        ensures doubt { OnErr result (IsInDoubt (state self.old) client sequences.now (times self.old) (times self.new)) }
        ensures err { AfterError (state self.old) (state self.new) result }
        ensures cause { HasCause (faults self.old) (faults self.new) (state self.old) result }
        ensures only { OnlyDisk result }
        ensures time { Goes (state self.old) (left self.old) (left self.new) (times self.old) (times self.new) };

    /// Undoes all changes and ends the transaction. It has no error.
    fn abandon(&mut self, client: u16)
        requires client { client < 16 }
        requires begun { ((state self.old).transaction client).begun ≡ true }
        ensures abandoned { Abandons (state self.old) (state self.new) client }
        ensures later { faults self.old ≤ faults self.new }
        ensures time { Rests (state self.old) (left self.old) (left self.new) (times self.old) (times self.new) };

    /// What holds of each store between two calls.
    ghost consistent: { (s : Self) → IsConsistent (state s) };

    /// A stop is known only where the store is observable, and of no moment to come or before `since`.
    ghost left_known: { (s : Self) (m : ℕ) (durable : Durable) → left s m durable → IsStop (state s) (times s) m };

    /// The moment `since` is past.
    ghost since_past: { (s : Self) → (times s).since ≤ (times s).moment };
}
