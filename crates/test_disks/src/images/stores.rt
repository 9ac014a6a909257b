//! Databases of the areas: created, opened, and a table of one dumped.

ghost use Rattle.std.specs.Prelude.{◌≡◌, ◌<◌};
ghost use Rattle.log_meaning.specs.steps.Steps.{Image};

use crate::disk_rows::{Areas, disk_over};
use crate::images::schema::{CUSTOMERS, PLAIN, schema};
use abl_values::Schema;
use disk_database::{CreateRefusal, DumpRefusal, OpenRefusal, Opening, close, create, dump, open};
use host_io::{MemOut, Stream};
use mem_disk::MemDisk;
use std::alloc::{AllocError, Global};
use std::marker::Brand;
use storage::Disk;
use test_words::push_bytes;

/// The most bytes that a dump writes.
const MOST_BYTES: u64 = 1 << 16;

/// The answer to a row on a database.
pub fn answer(
    alloc: Global,
    areas: &mut Areas,
    call: &str,
    words: &str,
) -> Result<String, AllocError> {
    let df = if words == "plain" { PLAIN } else { CUSTOMERS };
    let Some(disk) = disk_over(alloc, areas, &[])? else {
        return String::from_str(alloc, "too long");
    };
    match call {
        "create" => created(alloc, areas, disk, df),
        "open" => opened(alloc, areas, disk, df),
        _ => dumped(alloc, disk, df),
    }
}

/// Makes the areas what they are on the disk.
fn keep(alloc: Global, areas: &mut Areas, disk: &MemDisk) -> Result<(), AllocError> {
    *areas = Areas::of(alloc, &disk.crash(disk.moment(), &[])?)?;
    Ok(())
}

/// Creates a database. What is synced are the areas from then on.
fn created(
    alloc: Global,
    areas: &mut Areas,
    disk: MemDisk,
    df: &[u8],
) -> Result<String, AllocError> {
    let mut disk = disk;
    let Some(schema) = schema(alloc, df) else {
        return String::from_str(alloc, "no schema");
    };
    let outcome = create(alloc, &mut disk, &schema);
    keep(alloc, areas, &disk)?;
    let answer = match outcome {
        Ok(()) => "done",
        Err(CreateRefusal::AlreadyCreated) => "already created",
        Err(CreateRefusal::Disk) => "disk",
        Err(CreateRefusal::NoMemory) => "no memory",
    };
    String::from_str(alloc, answer)
}

/// Opens the database and closes it. What is synced are the areas from then on.
fn opened(
    alloc: Global,
    areas: &mut Areas,
    disk: MemDisk,
    df: &[u8],
) -> Result<String, AllocError> {
    let Some(first) = schema(alloc, df) else {
        return String::from_str(alloc, "no schema");
    };
    let Some(second) = schema(alloc, df) else {
        return String::from_str(alloc, "no schema");
    };
    let (outcome, disk) = open_and_close(alloc, disk, first, second);
    keep(alloc, areas, &disk)?;
    match outcome {
        Ok(()) => String::from_str(alloc, "done"),
        Err(refusal) => String::from_str(alloc, name(&refusal)),
    }
}

/// Opens the database of this schema and closes it.
fn open_and_close<D: Disk + Drop>(
    alloc: Global,
    disk: D,
    schema: Schema,
    schema_of_rows: Schema,
) -> (Result<(), OpenRefusal>, D)
    requires same { schema_of_rows ≡ schema }
{
    open_since::<D, Brand>(alloc, disk, schema, schema_of_rows)
}

/// The same for an opening of this schema, over these images.
fn open_since<D: Disk + Drop, K: Opening>(
    alloc: Global,
    disk: D,
    schema: Schema,
    schema_of_rows: Schema,
) -> (Result<(), OpenRefusal>, D)
    requires same { schema_of_rows ≡ schema }
    requires of { K.schema ≡ schema }
    requires images { (image : Image) → D.left disk (D.time disk) image → K.images image }
{
    match open::<D, K>(alloc, disk, schema, schema_of_rows, 1) {
        Ok(database) => (Ok(()), close(database).0),
        Err((refusal, disk)) => (Err(refusal), disk),
    }
}

/// The name of a refusal.
fn name(refusal: &OpenRefusal) -> &'static str {
    match refusal {
        OpenRefusal::NotCreated => "not created",
        OpenRefusal::SchemaDiffers { .. } => "schema differs",
        OpenRefusal::Disk => "disk",
        OpenRefusal::NoMemory => "no memory",
    }
}

/// The rows of the first table.
fn dumped(alloc: Global, disk: MemDisk, df: &[u8]) -> Result<String, AllocError> {
    let Some(first) = schema(alloc, df) else {
        return String::from_str(alloc, "no schema");
    };
    let Some(second) = schema(alloc, df) else {
        return String::from_str(alloc, "no schema");
    };
    if first.tables() == 0 {
        return String::from_str(alloc, "no table");
    }
    let mut out = MemOut::new(alloc, MOST_BYTES, &[])?;
    let (outcome, _) = dump(alloc, disk, first, second, 0, &mut out);
    match outcome {
        Ok(()) => {
            let mut text = String::new(alloc);
            push_bytes(&mut text, out.text(Stream::Output))?;
            Ok(text)
        }
        Err(DumpRefusal::Database(refusal)) => String::from_str(alloc, name(&refusal)),
        Err(DumpRefusal::Output) => String::from_str(alloc, "output"),
    }
}
