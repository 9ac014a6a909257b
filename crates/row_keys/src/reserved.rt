//! Unique keys that clients have reserved.

ghost use Rattle.std.specs.Prelude.{◌≡◌, ◌≢◌, ◌≤◌, ◌↔◌, ◌⊎◌, ℕ, Option, Some, length, IfOk, IsTrue, OnOk};
ghost use Rattle.std.specs.Option.{option_copied};
ghost use Rattle.abl_values.specs.Keys.{unique_key};
ghost use Rattle.abl_values.specs.Masks.{same_bytes};
ghost use Rattle.database_meaning.specs.declared.state.StoredRow.{StoredRow};
ghost use Rattle.database_meaning.specs.declared.state.Key.{Key};
ghost use Rattle.database_meaning.specs.Setting.{HasTable};
ghost use Rattle.database_meaning.specs.Waiting.{IsAscending, ListsAll, row_in};
ghost use Rattle.key_index.specs.Index.{keeper_of};
ghost use Rattle.key_index.specs.Left.{Lists};
ghost use Rattle.row_indexes.specs.Places.{keepers_of};
ghost use Rattle.row_keys.specs.Numbers.{index_count};
ghost use Rattle.row_keys.specs.Questions.{HasUniqueKey, IsKeptAgainst, IsRead, KeepsAgainst, below};
ghost use Rattle.row_keys.specs.Reserved.{reserved_at};

use crate::indexes::index_at;
use crate::keys::unique_key_of;
use crate::numbers::{def_at, first_of_table};
use abl_base::{Bytes, Items, Row};
use abl_values::{IndexDef, Schema, same_bytes};
use database_protocol::ClientIds;
use key_index::Index;
use std::alloc::AllocError;

/// The other clients that keep a unique key which these values have and the row that they replace
/// has not, ascending. `old` has the values of the replaced row, if there is one and it is of the
/// table. An error means out of memory.
pub fn reserved_by(
    schema: &Schema,
    indexes: &[Index],
    client: u16,
    table: u16,
    old: Option<&Row>,
    values: &Row,
) -> Result<ClientIds, AllocError>
    requires table { HasTable schema.now table }
    requires count { length indexes.now ≡ index_count schema.now }
    ensures { IfOk result (λ holders. (stored : Option StoredRow) → IsRead table (option_copied old.entry) stored →
        ListsAll holders (KeepsAgainst schema.now (keepers_of indexes.now) client stored (row_in table values.now))) }
{
    let _count = indexes.len();
    let first = first_of_table(schema, table);
    let mut holders = Vec::new(values.allocator());
    for index in 0..schema.indexes(table).len() {
        let def = def_at(schema, table, index);
        let at = index_at(indexes, first + index);
        let keeper = keeper_against(at, def, client, old, values)?;
        add_keeper(&mut holders, keeper)?;
    }
    Ok(Items::from_vec(holders))
}

/// The other client that keeps the unique key of these values in the index, where the row that they
/// replace has it not.
fn keeper_against(
    index: &Index,
    def: &IndexDef,
    client: u16,
    old: Option<&Row>,
    values: &Row,
) -> Result<Option<u16>, AllocError>
    ensures { IfOk result (λ keeper. (d : ℕ) → (keeper ≡ Some d) ↔ IsKeptAgainst index.now def.now client (option_copied old.entry) values.now d) }
{
    let Some(key) = unique_key_of(def, values)? else {
        return Ok(None);
    };
    if has_it(def, old, &key)? {
        return Ok(None);
    }
    Ok(other_keeper(index, client, &key))
}

/// The client that keeps the key, if it is another one.
fn other_keeper(index: &Index, client: u16, key: &Bytes) -> Option<u16>
    ensures { (d : ℕ) → (result ≡ Some d) ↔ ((keeper_of index.now key.now ≡ Some d) × (d ≢ client)) }
{
    let keeper = index.keeper(key)?;
    if keeper == client {
        return None;
    }
    Some(keeper)
}

/// Whether the row, if there is one, has this unique key in the index.
fn has_it(def: &IndexDef, row: Option<&Row>, key: &Bytes) -> Result<bool, AllocError>
    ensures { IfOk result (λ has. IsTrue has ↔ HasUniqueKey def.now (option_copied row.entry) key.now) }
{
    match row {
        None => Ok(false),
        Some(row) => {
            let has = row_has(def, row, key)?;
            Ok(has)
        }
    }
}

/// Whether these values have this unique key in the index.
fn row_has(def: &IndexDef, values: &Row, key: &Bytes) -> Result<bool, AllocError>
    ensures { IfOk result (λ has. IsTrue has ↔ (unique_key def.now.unique def.now.parts values.now ≡ Some key.now)) }
{
    match unique_key_of(def, values)? {
        None => Ok(false),
        Some(other) => Ok(same_key(&other, key)),
    }
}

/// Whether two keys have the same bytes.
fn same_key(key: &Bytes, other: &Bytes) -> bool
    ensures { result ≡ same_bytes key.now other.now }
{
    same_bytes(key.as_slice(), other.as_slice())
}

/// Adds a client, if there is one and it is not among them, to clients in ascending order.
fn add_keeper(clients: &mut Vec<u16>, keeper: Option<u16>) -> Result<(), AllocError>
    requires { IsAscending clients.old.items }
    ensures ascending { OnOk result (IsAscending clients.new.items) }
    ensures lists { OnOk result ((d : ℕ) → Lists clients.new.items d ↔ (Lists clients.old.items d ⊎ (keeper ≡ Some d))) }
{
    let Some(client) = keeper else {
        return Ok(());
    };
    if lists(clients.as_slice(), client) {
        return Ok(());
    }
    let at = place_of(clients.as_slice(), client);
    clients.insert(at, client)?;
    Ok(())
}

/// Whether the client is among these.
fn lists(clients: &[u16], client: u16) -> bool
    ensures { IsTrue result ↔ Lists clients.now client }
{
    match clients.split_first() {
        None => false,
        Some((first, rest)) => *first == client || lists(rest, client),
    }
}

/// How many of the clients, from the first one on, are below this one.
fn place_of(clients: &[u16], client: u16) -> usize
    ensures place { result ≡ below clients.now client }
    ensures within { result ≤ length clients.now }
{
    match clients.split_first() {
        None => 0,
        Some((first, rest)) => {
            if *first < client {
                1 + place_of(rest, client)
            } else {
                0
            }
        }
    }
}

/// Whether the client has reserved a unique key. It takes no memory.
pub fn has_reserved(schema: &Schema, indexes: &[Index], client: u16) -> bool
    requires count { length indexes.now ≡ index_count schema.now }
    ensures { IsTrue result ↔ ((k : Key) × IsTrue (reserved_at schema.now (keepers_of indexes.now) client k)) }
{
    for table in 0..schema.tables() {
        if keeps_in_table(schema, indexes, table, client) {
            return true;
        }
    }
    false
}

/// Whether the client has reserved a unique key of the table.
fn keeps_in_table(schema: &Schema, indexes: &[Index], table: u16, client: u16) -> bool
    requires table { HasTable schema.now table }
    requires count { length indexes.now ≡ index_count schema.now }
    ensures { IsTrue result ↔ ((k : Key) × (k.table ≡ table) × IsTrue (reserved_at schema.now (keepers_of indexes.now) client k)) }
{
    let _count = indexes.len();
    let first = first_of_table(schema, table);
    for index in 0..schema.indexes(table).len() {
        if index_at(indexes, first + index).keeps(client) {
            return true;
        }
    }
    false
}
