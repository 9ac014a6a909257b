//! The answers to calls on rows.

ghost use Rattle.std.specs.Prelude.{◌≡◌, ◌<◌, ◌≤◌, length, true, false};

use abl_base::RowId;
use byte_rows::{ChainFault, Chains};
use new_database::slots::MemSlots;
use row_fragments::StoredRow;
use std::alloc::{AllocError, Global};
use storage::{Mark, SlotFault, Slots};

/// The answer to a call: its name and its numbers, with a blank between.
pub fn answer(
    alloc: Global,
    chains: &mut Chains<MemSlots>,
    marks: &mut [usize],
    row: &str,
) -> Result<String, AllocError>
    requires { length marks.old ≡ 16 }
{
    let (call, words) = row.split_once(' ').unwrap_or((row, ""));
    let numbers = numbers(alloc, words)?;
    let first = number(&numbers, 0);
    match call {
        "get" => match chains.get(RowId(first)) {
            Ok(found) => shown(alloc, found),
            Err(fault) => String::from_str(alloc, name(fault)),
        },
        "there" => match chains.there(RowId(first)) {
            Ok(found) => String::from_str(alloc, if found { "yes" } else { "no" }),
            Err(fault) => String::from_str(alloc, name(fault)),
        },
        _ => {
            if first >= 16 {
                return String::from_str(alloc, "no client");
            }
            if chains.is_begun(first as u16) {
                client_answer(alloc, chains, marks, call, first as u16, &numbers)
            } else {
                idle_answer(alloc, chains, call, first as u16)
            }
        }
    }
}

/// The numbers of a call.
fn numbers(alloc: Global, words: &str) -> Result<Vec<u32>, AllocError> {
    let mut numbers = Vec::new(alloc);
    for word in words.split(' ') {
        if let Ok(number) = word.parse::<u32>() {
            numbers.push(number)?;
        }
    }
    Ok(numbers)
}

/// The number at a place, or 0.
fn number(numbers: &[u32], at: usize) -> u32 {
    if at < numbers.len() { numbers[at] } else { 0 }
}

/// A row's bytes, from their number and a seed.
fn data(alloc: Global, length: u32, seed: u32) -> Result<Vec<u8>, AllocError> {
    let mut bytes = Vec::new(alloc);
    let mut next = seed % 251;
    for _ in 0..length {
        bytes.push((next % 251) as u8)?;
        next = next % 251 + 7;
    }
    Ok(bytes)
}

/// A number made from bytes.
fn summed(bytes: &[u8]) -> u64 {
    let mut total = 7u64;
    for byte in bytes {
        total = (total % 1_000_003 * 33 + u64::from(*byte)) % 1_000_003;
    }
    total
}

/// The answer to a call of a client without a transaction.
fn idle_answer(
    alloc: Global,
    chains: &mut Chains<MemSlots>,
    call: &str,
    client: u16,
) -> Result<String, AllocError>
    requires client { client < 16 }
    requires idle { ((⟦<MemSlots as Slots>⟧.state chains.old.slots).transaction client).begun ≡ false }
{
    match call {
        "begin" => done(alloc, chains.begin(client)),
        "counts" => counts(alloc, chains, client),
        _ => String::from_str(alloc, "no transaction"),
    }
}

/// The counts of a client's transaction.
fn counts(alloc: Global, chains: &Chains<MemSlots>, client: u16) -> Result<String, AllocError>
    requires { client < 16 }
{
    format!(in alloc;
        "drawn {}, written {}",
        chains.drawn(client),
        chains.written(client)
    )
}

/// The answer to a call of a client with a transaction.
fn client_answer(
    alloc: Global,
    chains: &mut Chains<MemSlots>,
    marks: &mut [usize],
    call: &str,
    client: u16,
    numbers: &[u32],
) -> Result<String, AllocError>
    requires client { client < 16 }
    requires begun { ((⟦<MemSlots as Slots>⟧.state chains.old.slots).transaction client).begun ≡ true }
    requires marks { length marks.old ≡ 16 }
{
    match call {
        "insert" | "put" | "delete" => change(alloc, chains, call, client, numbers),
        "mark" => {
            marks[client as usize] = chains.mark(client).at;
            String::from_str(alloc, "done")
        }
        "back" => {
            let at = marks[client as usize];
            if chains.mark(client).at < at {
                return String::from_str(alloc, "no mark");
            }
            done(alloc, chains.back(client, Mark { at }))
        }
        "commit" => match chains.commit(client) {
            Ok(_) => String::from_str(alloc, "done"),
            Err(fault) => String::from_str(alloc, name(fault)),
        },
        "abandon" => {
            chains.abandon(client);
            String::from_str(alloc, "done")
        }
        "many" => many(alloc, chains, client, numbers),
        "counts" => counts(alloc, chains, client),
        _ => String::from_str(alloc, "begun"),
    }
}

/// Inserts rows with the same bytes, at most the number asked for, in as many transactions as they
/// take.
fn many(
    alloc: Global,
    chains: &mut Chains<MemSlots>,
    client: u16,
    numbers: &[u32],
) -> Result<String, AllocError>
    requires { client < 16 }
{
    let bytes = data(alloc, number(numbers, 2), number(numbers, 3))?;
    if bytes.len() > 30_000 {
        return String::from_str(alloc, "too long");
    }
    let table = (number(numbers, 1) % 65_536) as u16;
    let mut last = 0u32;
    for made in 0..number(numbers, 4) {
        match insert_next(chains, client, table, bytes.as_slice()) {
            Ok(row) => last = row.0,
            Err(fault) => {
                let why = name(fault);
                return format!(in alloc; "{made} rows, the last {last}, then {why}");
            }
        }
    }
    format!(in alloc; "{} rows, the last {last}", number(numbers, 4))
}

/// Inserts a row; where the client's transaction is full, in its next one.
fn insert_next(
    chains: &mut Chains<MemSlots>,
    client: u16,
    table: u16,
    bytes: &[u8],
) -> Result<RowId, ChainFault>
    requires client { client < 16 }
    requires size { length bytes.now ≤ 30000 }
{
    if chains.is_begun(client) {
        match chains.insert(client, table, bytes) {
            Err(ChainFault::Slot(SlotFault::TxFull)) => {}
            answer => return answer,
        }
    }
    if chains.is_begun(client) {
        chains.commit(client)?;
    }
    if !chains.is_begun(client) {
        chains.begin(client)?;
    }
    if !chains.is_begun(client) {
        return Err(ChainFault::Slot(SlotFault::TxFull));
    }
    chains.insert(client, table, bytes)
}

/// The answer to a change of a row.
fn change(
    alloc: Global,
    chains: &mut Chains<MemSlots>,
    call: &str,
    client: u16,
    numbers: &[u32],
) -> Result<String, AllocError>
    requires client { client < 16 }
    requires begun { ((⟦<MemSlots as Slots>⟧.state chains.old.slots).transaction client).begun ≡ true }
{
    let bytes = data(alloc, number(numbers, 2), number(numbers, 3))?;
    if bytes.len() > 30_000 {
        return String::from_str(alloc, "too long");
    }
    if call == "insert" {
        return match chains.insert(
            client,
            (number(numbers, 1) % 65_536) as u16,
            bytes.as_slice(),
        ) {
            Ok(row) => format!(in alloc; "row {}", row.0),
            Err(fault) => String::from_str(alloc, name(fault)),
        };
    }
    let row = RowId(number(numbers, 1));
    match chains.there(row) {
        Ok(true) => {}
        _ => return String::from_str(alloc, "no row"),
    }
    if call == "put" {
        done(alloc, chains.put(client, row, bytes.as_slice()))
    } else {
        done(alloc, chains.delete(client, row))
    }
}

/// What is written of a call without a value.
fn done(alloc: Global, answer: Result<(), ChainFault>) -> Result<String, AllocError> {
    match answer {
        Ok(()) => String::from_str(alloc, "done"),
        Err(fault) => String::from_str(alloc, name(fault)),
    }
}

/// What is written of a fault.
fn name(fault: ChainFault) -> &'static str {
    match fault {
        ChainFault::Full => "full",
        ChainFault::Slot(SlotFault::TxFull) => "transaction full",
        ChainFault::Slot(SlotFault::Disk) => "disk",
        ChainFault::Slot(SlotFault::NoMemory) => "out of memory",
    }
}

/// What is written of a row.
fn shown(alloc: Global, found: Option<StoredRow>) -> Result<String, AllocError> {
    match found {
        None => String::from_str(alloc, "none"),
        Some(row) => {
            let bytes = row.bytes.as_slice();
            format!(in alloc;
                "table {}, {} bytes, sum {}",
                row.table,
                bytes.len(),
                summed(bytes)
            )
        }
    }
}
