//! What a line about a fault reports.

ghost use Rattle.std.specs.Prelude.{◌≡◌};
ghost use Rattle.block_meaning.specs.Lines.{complaint_of};
ghost use Rattle.record_rules.specs.lines.Complaints.{complaint_in};

use expression_meaning::RunFault;

/// What a line `** TEXT` about a fault of a statement reports. A buffer is given by its number in
/// the running procedure; tables, fields of a table and indexes of a table are numbered from 0 in
/// the order of the schema file. (OpenEdge ABL Reference, the statements' notes; the texts are this
/// project's choice.)
#[derive(Clone, Copy)]
pub enum Complaint {
    /// FIND has found no record.
    NoRecordFound(u32),
    /// FIND without FIRST, LAST, NEXT or PREV has found a second record.
    MoreThanOne(u32),
    /// Another client holds a lock on the record, and the statement has NO-WAIT.
    Locked(u32),
    /// A statement or an expression needs the record of an empty buffer.
    NoRecord(u32),
    /// A record that was read NO-LOCK is changed or deleted.
    ReadNoLock(u32),
    /// Another record has the same values in the fields of a unique index.
    Duplicate { table: u16, index: u16 },
    /// A mandatory field is `?`.
    Mandatory { table: u16, field: usize },
    /// The key of a record has more than `MAX_KEY_BYTES` bytes.
    KeyTooLong { table: u16, index: u16 },
    /// A record of the table has more than `MAX_ROW_BYTES` bytes.
    RecordTooLong(u16),
    /// The database has no room for another record.
    DatabaseFull,
    /// Another client has deleted the record.
    Gone(u32),
    /// A number, a date or a text is out of its range.
    OutOfRange,
    /// A text that is converted to a number is no number.
    BadConversion,
    /// An argument of a function is not one that it permits.
    BadArgument,
    /// The field of this number, from 1, in a line of input.
    BadField(u32),
}

/// The complaint about a fault of an expression.
pub fn complaint_about(fault: RunFault) -> Complaint
    ensures { complaint_in result ≡ complaint_of fault }
{
    match fault {
        RunFault::EmptyBuffer(buffer) => Complaint::NoRecord(buffer),
        RunFault::Range => Complaint::OutOfRange,
        RunFault::Convert => Complaint::BadConversion,
        RunFault::Argument => Complaint::BadArgument,
    }
}
