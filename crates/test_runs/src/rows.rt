//! The fields of a row.

use crate::texts::text_of;
use abl_base::{Bytes, Items};
use abl_cli::Arg;
use bank_run::inputs::BANK_SCHEMA;
use host_io::{MemFiles, NamedFile};
use std::alloc::{AllocError, Global};

/// The fields of a row: the commands, the source, the schema file, the faults, and other files.
#[derive(Clone, Copy)]
pub struct Row<'a> {
    pub commands: &'a str,
    pub source: &'a str,
    pub schema: &'a str,
    pub faults: &'a str,
    pub others: &'a str,
}

impl<'a> Row<'a> {
    /// The fields of a row; those that it lacks are empty, and one without a schema file has this one.
    pub fn of(row: &'a str, default: &'a str) -> Row<'a> {
        let (commands, rest) = row.split_once('\t').unwrap_or((row, ""));
        let (source, rest) = rest.split_once('\t').unwrap_or((rest, ""));
        let (schema, rest) = rest.split_once('\t').unwrap_or((rest, ""));
        let (faults, others) = rest.split_once('\t').unwrap_or((rest, ""));
        Row {
            commands,
            source,
            schema: if schema.is_empty() { default } else { schema },
            faults,
            others,
        }
    }

    /// The arguments of a command, separated by blanks.
    pub fn arguments(&self, alloc: Global, command: &str) -> Result<Vec<Arg>, AllocError> {
        let mut arguments = Vec::new(alloc);
        for argument in command.as_bytes().split(|byte| *byte == b' ') {
            if !argument.is_empty() {
                arguments.push(Bytes::of(alloc, argument)?)?;
            }
        }
        Ok(arguments)
    }

    /// The numbers that follow the word among the faults, as in `read2 write1`.
    pub fn numbers_after(&self, alloc: Global, word: &str) -> Result<Vec<u64>, AllocError> {
        let mut numbers = Vec::new(alloc);
        for fault in self.faults.split(' ') {
            if let Some(digits) = fault.strip_prefix(word)
                && let Ok(number) = digits.parse::<u64>()
            {
                numbers.push(number)?;
            }
        }
        Ok(numbers)
    }

    /// The files of a row: `p`, the source, `s.df`, the schema file, `bank.df`, that of a bank, and the
    /// others; the reads of these numbers fail.
    pub fn files(&self, alloc: Global, fails: &[u64]) -> Result<MemFiles, AllocError> {
        let mut files = Vec::new(alloc);
        files.push(named(alloc, "p", text_of(alloc, self.source)?)?)?;
        files.push(named(alloc, "s.df", text_of(alloc, self.schema)?)?)?;
        files.push(named(alloc, "bank.df", Bytes::of(alloc, BANK_SCHEMA)?)?)?;
        for file in self.others.split('\t') {
            if let Some((name, text)) = file.split_once('=') {
                files.push(named(alloc, name, text_of(alloc, text)?)?)?;
            }
        }
        MemFiles::new(alloc, &Items::from_vec(files), fails)
    }
}

/// The file of that name with these bytes.
fn named(alloc: Global, name: &str, bytes: Bytes) -> Result<NamedFile, AllocError> {
    Ok(NamedFile {
        name: Bytes::of(alloc, name.as_bytes())?,
        bytes,
    })
}
