//! The database that the clients run over.

ghost use Rattle.std.specs.Prelude.{◌≡◌, ◌<◌, ◌≤◌, [], ℕ, IfOk};
ghost use Rattle.schema_reader.specs.Meaning.{schema_of};
ghost use Rattle.schema_lines.specs.Files.{items_of};

use abl_values::Schema;
use database_interface::Database;
use new_database::{NewDatabase, open};
use schema_reader::read_df;
use std::alloc::{AllocError, Global};

/// The schema file: one table, in which no two records have one code.
const SCHEMA: &str = "ADD TABLE \"item\"
ADD FIELD \"code\" OF \"item\" AS integer
ADD INDEX \"code\" ON \"item\"
  UNIQUE
  PRIMARY
  INDEX-FIELD \"code\" ASCENDING
";

/// A new database without records, for this number of clients. An error means out of memory.
pub fn empty(alloc: Global, clients: u16) -> Result<NewDatabase, AllocError>
    requires few { clients ≤ 16 }
    ensures empty { IfOk result (λ database. ⟦<NewDatabase as Database>⟧.trace database ≡ []) }
    ensures active { IfOk result (λ database. (client : ℕ) → client < clients → ⟦<NewDatabase as Database>⟧.active database client) }
{
    let text = SCHEMA.as_bytes();
    let database = open(alloc, schema(alloc, text)?, schema(alloc, text)?, clients)?;
    Ok(database)
}

/// The schema of a file that breaks no rule.
fn schema(alloc: Global, text: &[u8]) -> Result<Schema, AllocError>
    ensures { IfOk result (λ schema. schema ≡ schema_of (items_of text.now)) }
{
    match read_df(alloc, text) {
        Ok(schema) => Ok(schema),
        Err(_) => Err(AllocError),
    }
}
