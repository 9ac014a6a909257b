//! Why a call on a database over a disk was refused.

use abl_base::Bytes;

/// Why a database was not opened.
#[derive(Drop)]
pub enum OpenRefusal {
    /// The disk holds no database, of whatever schema.
    NotCreated,
    /// The disk holds a database of another schema: its text, which is stored, is not that of the given
    /// one.
    SchemaDiffers { stored: Bytes, given: Bytes },
    /// The disk failed.
    Disk,
    /// Out of memory. Also where the text of the given schema has more than 2^20 bytes, or that schema
    /// has more than 256 sequences.
    NoMemory,
}

/// Why a database was not made.
#[derive(Clone, Copy, Debug, PartialEq, Eq)]
pub enum CreateRefusal {
    /// The disk holds a database, of whatever schema. It is as it was.
    AlreadyCreated,
    /// The disk failed. If it holds a database, it is as it was.
    Disk,
    /// Out of memory; the disk is as it was. Also where the text of the given schema has more than 2^20
    /// bytes, that schema has more than 256 sequences, or a log is open and area 0 has more than
    /// 268,435,456 bytes.
    NoMemory,
}

/// Why a table was not written.
#[derive(Drop)]
pub enum DumpRefusal {
    /// The database was not opened, or its disk failed, or out of memory.
    Database(OpenRefusal),
    /// The output did not take a whole line.
    Output,
}
