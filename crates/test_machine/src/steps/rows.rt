//! One row: a step of a client, or several of one kind.

use crate::steps::asked::op_of;
use crate::steps::shop::customer;
use crate::steps::written::answer_text;
use abl_base::Value;
use database_protocol::{Answer, Cursor, Op};
use db_machine::Db;
use row_store::RowStore;
use std::alloc::{AllocError, Global};

/// The rows, each with its answer.
pub fn answers<R: RowStore + Drop>(
    alloc: Global,
    database: &mut Db<R>,
    rows: &[String],
) -> Result<String, AllocError> {
    let mut found = None;
    let mut text = String::new(alloc);
    for row in rows {
        let answer = answer(alloc, database, &mut found, row.as_str())?;
        let line = format!(in alloc; "{row} = {answer}\n")?;
        text.push_str(line.as_str())?;
    }
    Ok(text)
}

/// The answer to a row, as `0 share 8192`. `0 many FROM TO BYTES` inserts customers of the nums from FROM
/// to before TO, with names of this many bytes, and has the answer to the last of them.
fn answer<R: RowStore + Drop>(
    alloc: Global,
    database: &mut Db<R>,
    found: &mut Option<Cursor>,
    row: &str,
) -> Result<String, AllocError> {
    let (first, rest) = row.split_once(' ').unwrap_or((row, ""));
    let (verb, argument) = rest.split_once(' ').unwrap_or((rest, ""));
    let Ok(client) = first.parse::<u16>() else {
        return String::from_str(alloc, "no row");
    };
    if !database.is_active(client) {
        return String::from_str(alloc, "no client");
    }
    if verb == "many" {
        return inserted(alloc, database, client, argument);
    }
    let Some(op) = op_of(alloc, verb, argument, found)? else {
        return String::from_str(alloc, "no row");
    };
    match request(database, client, op) {
        Some(answer) => {
            note(found, &answer)?;
            answer_text(alloc, &answer)
        }
        None => String::from_str(alloc, "no memory"),
    }
}

/// Requests an operation. None comes where the client has ended, or out of memory.
pub fn request<R: RowStore + Drop>(database: &mut Db<R>, client: u16, op: Op) -> Option<Answer> {
    if !database.is_active(client) {
        return None;
    }
    database.execute(client, op)
}

/// Notes where a search ended.
fn note(found: &mut Option<Cursor>, answer: &Answer) -> Result<(), AllocError> {
    if let Answer::Found { row, key, .. } = answer {
        *found = Some(Cursor {
            key: key.copy()?,
            row: *row,
        });
    }
    Ok(())
}

/// Inserts customers of nums `FROM TO BYTES`.
fn inserted<R: RowStore + Drop>(
    alloc: Global,
    database: &mut Db<R>,
    client: u16,
    argument: &str,
) -> Result<String, AllocError> {
    let (from, rest) = argument.split_once(' ').unwrap_or((argument, ""));
    let (to, bytes) = rest.split_once(' ').unwrap_or((rest, ""));
    let (Ok(from), Ok(to), Ok(bytes)) = (
        from.parse::<i32>(),
        to.parse::<i32>(),
        bytes.parse::<u16>(),
    ) else {
        return String::from_str(alloc, "no row");
    };
    let name = vec![in alloc; b'n'; usize::from(bytes)]?;
    let mut last = None;
    for num in from..to {
        let values = customer(alloc, Value::Int(num), name.as_slice())?;
        last = request(database, client, Op::Insert { table: 0, values });
    }
    match last {
        Some(answer) => answer_text(alloc, &answer),
        None => String::from_str(alloc, "none"),
    }
}
