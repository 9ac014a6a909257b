//! What the program says about the files of a database, after the lines of the status.

use abl_cli::Arg;
use disk_files::DiskFiles;
use std::alloc::{AllocError, Global};
use std::fs::File;
use std::io;
use std::io::ErrorKind;
use std::rt::Files as Machine;

/// The status of a command whose disk failed.
const DISK_FAILED: u8 = 5;

/// Writes what the status does not say about the files, after a command of these arguments ended with
/// it: which file failed and why, or that a creation replaced what the files held.
pub fn explain_files<R: Machine<File = File>>(
    alloc: Global,
    diagnostics: &mut impl Print,
    status: u8,
    after_database: &[Arg],
    disk: &DiskFiles<'_, R>,
) {
    if status == DISK_FAILED {
        explain_fault(alloc, diagnostics, disk.first_fault());
    }
    if status == 0 && is_creation(after_database) {
        explain_replaced(alloc, diagnostics, disk.held());
    }
}

/// Whether the command is `create`.
fn is_creation(after_database: &[Arg]) -> bool {
    match after_database.first() {
        Some(command) => command.as_slice() == b"create".as_slice(),
        None => false,
    }
}

/// Writes that a creation replaced the bytes of a file, which were no database.
fn explain_replaced(alloc: Global, diagnostics: &mut impl Print, held: Option<(&str, u64)>) {
    if let Some((name, bytes)) = held
        && let Ok(line) = format!(in alloc;
            "abl: {name}: replaced, since there was no database; its length was {bytes}\n"
        )
    {
        let _ = diagnostics.write_all(line.as_str().as_bytes());
    }
}

/// Writes why a call on the files of the database failed: the name of the file and the reason.
fn explain_fault(alloc: Global, diagnostics: &mut impl Print, fault: Option<(&str, io::Error)>) {
    if let Some((name, error)) = fault
        && let Ok(line) = fault_line(alloc, name, error)
    {
        let _ = diagnostics.write_all(line.as_str().as_bytes());
    }
}

/// The line about the file of that name.
fn fault_line(alloc: Global, name: &str, error: io::Error) -> Result<String, AllocError> {
    match own_reason(error.kind()) {
        Some(reason) => format!(in alloc; "abl: {name}: {reason}\n"),
        None => format!(in alloc; "abl: {name}: {error}\n"),
    }
}

/// What these errors mean of a file of a database; the text of any other is in the error.
fn own_reason(kind: ErrorKind) -> Option<&'static str> {
    if kind == ErrorKind::WouldBlock {
        return Some("in use by another process");
    }
    if kind == ErrorKind::AlreadyExists {
        return Some("made by another process meanwhile");
    }
    if kind == ErrorKind::Unsupported {
        return Some("no regular file, or longer than 2^40 bytes");
    }
    if kind == ErrorKind::InvalidInput {
        return Some("the database has no name");
    }
    None
}
