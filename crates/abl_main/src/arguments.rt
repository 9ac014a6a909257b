//! The arguments of the program.

use abl_base::Bytes;
use abl_cli::Arg;
use std::alloc::AllocError;
use std::env::{Env, FillError};

/// The sizes of the buffers that are tried for an argument, in bytes. A longer one counts as out of
/// memory.
const BUFFER_BYTES: [usize; 3] = [256, 131_072, 4_194_304];

/// The arguments after the program's name. An argument that is not UTF-8 is empty in the list, so
/// that no form of the command line has it.
pub fn arguments(rt: &(impl Env + AllocGlobal)) -> Result<Vec<Arg>, AllocError> {
    let mut arguments = Vec::new(rt.alloc());
    for at in 1..usize::MAX {
        match argument(rt, at)? {
            Some(argument) => arguments.push(argument)?,
            None => break,
        }
    }
    Ok(arguments)
}

/// The argument DATABASE: the path of the files of the database without their suffixes. Without one, and
/// where it is not UTF-8, it is empty, which names no database.
pub fn database_in(arguments: &[Arg]) -> &str {
    match arguments.first() {
        Some(database) => str::from_utf8(database.as_slice()).unwrap_or(""),
        None => "",
    }
}

/// The argument of this number, where there is one.
fn argument(rt: &(impl Env + AllocGlobal), at: usize) -> Result<Option<Arg>, AllocError> {
    for size in BUFFER_BYTES {
        let mut buffer = vec![in rt.alloc(); 0u8; size]?;
        match rt.arg(at, &mut buffer) {
            Ok(length) => return Ok(Some(text_in(rt, buffer.get(..length).unwrap_or(&[]))?)),
            Err(FillError::NotPresent) => return Ok(None),
            Err(FillError::TooLong) => {}
        }
    }
    Err(AllocError)
}

/// The bytes, if they are UTF-8, and else none.
fn text_in(rt: &impl AllocGlobal, bytes: &[u8]) -> Result<Arg, AllocError> {
    match str::from_utf8(bytes) {
        Ok(_) => Bytes::of(rt.alloc(), bytes),
        Err(_) => Ok(Bytes::empty(rt.alloc())),
    }
}
