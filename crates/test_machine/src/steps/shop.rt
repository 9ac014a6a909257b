//! The database of the rows: two tables, two sequences near the ends of their range, and the customers
//! of num 1, 2 and 3, each named Ann, in the rows 8192, 8193 and 8194.

ghost use Rattle.std.specs.Prelude.{◌≡◌, IfOk};
ghost use Rattle.schema_reader.specs.Meaning.{schema_of};
ghost use Rattle.schema_lines.specs.Files.{items_of};

use crate::steps::rows::{answers, request};
use abl_base::{Items, Row, Value};
use abl_values::Schema;
use database_protocol::Op;
use db_machine::Db;
use new_database::{NewDatabase, open};
use row_store::RowStore;
use schema_reader::read_df;
use std::alloc::{AllocError, Global};

/// The schema file.
const SCHEMA: &str = "ADD TABLE \"customer\"
ADD FIELD \"num\" OF \"customer\" AS integer
ADD FIELD \"name\" OF \"customer\" AS character
ADD INDEX \"num\" ON \"customer\"
  UNIQUE
  PRIMARY
  INDEX-FIELD \"num\" ASCENDING
ADD TABLE \"item\"
ADD FIELD \"code\" OF \"item\" AS character
ADD FIELD \"price\" OF \"item\" AS decimal
ADD FIELD \"lot\" OF \"item\" AS integer
ADD INDEX \"code\" ON \"item\"
  UNIQUE
  PRIMARY
  INDEX-FIELD \"code\" ASCENDING
ADD INDEX \"price\" ON \"item\"
  INDEX-FIELD \"price\" DESCENDING
  INDEX-FIELD \"lot\" ASCENDING
ADD INDEX \"lot\" ON \"item\"
  UNIQUE
  INDEX-FIELD \"lot\" ASCENDING
ADD SEQUENCE \"up\"
  INITIAL 9223372036854775806
  INCREMENT 1
ADD SEQUENCE \"down\"
  INITIAL -9223372036854775807
  INCREMENT -1
";

/// The client that creates the customers, before it does what a row asks.
const FIRST: u16 = 2;

/// The values of a customer with this name.
pub fn customer(alloc: Global, num: Value, name: &[u8]) -> Result<Row, AllocError> {
    let mut values = Vec::new(alloc);
    values.push(num)?;
    values.push(Value::Text(Items::of(alloc, name)?))?;
    Ok(Items::from_vec(values))
}

/// The schema of a file that breaks no rule.
fn schema(alloc: Global, text: &[u8]) -> Result<Schema, AllocError>
    ensures { IfOk result (λ schema. schema ≡ schema_of (items_of text.now)) }
{
    match read_df(alloc, text) {
        Ok(schema) => Ok(schema),
        Err(_) => Err(AllocError),
    }
}

/// The rows after a heading, each with its answer. No rows open no database.
pub fn answered(alloc: Global, rows: &[String]) -> Result<String, AllocError> {
    if rows.is_empty() {
        return Ok(String::new(alloc));
    }
    let mut database = empty(alloc, SCHEMA.as_bytes())?;
    run(alloc, &mut database, rows)
}

/// Creates the customers, and answers the rows.
fn run<R: RowStore + Drop>(
    alloc: Global,
    database: &mut Db<R>,
    rows: &[String],
) -> Result<String, AllocError> {
    set_up(alloc, database)?;
    answers(alloc, database, rows)
}

/// A new database of the schema file, for three clients.
fn empty(alloc: Global, text: &[u8]) -> Result<NewDatabase, AllocError> {
    open(alloc, schema(alloc, text)?, schema(alloc, text)?, 3)
}

/// Creates the customers.
fn set_up<R: RowStore + Drop>(alloc: Global, database: &mut Db<R>) -> Result<(), AllocError> {
    succeed(database, Op::Enter)?;
    for num in 1..4 {
        let values = customer(alloc, Value::Int(num), b"Ann")?;
        succeed(database, Op::Insert { table: 0, values })?;
    }
    let keep = Items::empty(alloc);
    succeed(database, Op::Leave { keep })
}

/// Requests an operation of the first client, whose answer does not matter.
fn succeed<R: RowStore + Drop>(database: &mut Db<R>, op: Op) -> Result<(), AllocError> {
    match request(database, FIRST, op) {
        Some(_) => Ok(()),
        None => Err(AllocError),
    }
}
