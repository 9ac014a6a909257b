//! The lines.

ghost use Rattle.std.specs.Prelude.{◌≡◌, ◌++◌, ℕ, codes, IfOk};
ghost use Rattle.std.specs.Fmt.{decimal};
ghost use Rattle.block_meaning.specs.Lines.{line_of};
ghost use Rattle.block_meaning.specs.Program.{Program, buffer_name, index_name, table_name};
ghost use Rattle.record_rules.specs.lines.Complaints.{HasNames, complaint_in};
ghost use Rattle.record_rules.specs.declared.lines.complaint.Complaint.{Complaint};

use crate::lines::complaint::Complaint;
use crate::lines::names::{buffer_name, field_name, index_name, table_name};
use abl_values::Schema;
use bound_tree::BufferDef;
use std::alloc::{AllocError, Global};

/// The line about a fault: `** `, a text and a line feed. `buffers` are those of the running
/// procedure. A number that names nothing is written as an empty name. Out of memory is the only
/// error. (This project's choice.)
pub fn complaint_line(
    alloc: Global,
    schema: &Schema,
    buffers: &[BufferDef],
    complaint: Complaint,
) -> Result<Vec<u8>, AllocError>
    ensures { IfOk result (λ line. (p : Program) (n : ℕ) → HasNames p n schema.now buffers.now → line.items ≡ line_of p n (complaint_in complaint)) }
{
    let names = Names {
        alloc,
        schema,
        buffers,
    };
    names.line(complaint)
}

/// Where the names of a line come from.
#[derive(Drop)]
struct Names<'a> {
    alloc: Global,
    schema: &'a Schema,
    buffers: &'a [BufferDef],
}

impl Names<'_> {
    /// The line about a fault.
    fn line(&self, complaint: Complaint) -> Result<Vec<u8>, AllocError>
        ensures { IfOk result (λ line. (p : Program) (n : ℕ) → HasNames p n self.now.schema.now self.now.buffers.now → line.items ≡ line_of p n (complaint_in complaint)) }
    {
        match complaint {
            Complaint::NoRecordFound(b) => self.of_buffer(b"** no record found in ", b, b"\n"),
            Complaint::MoreThanOne(b) => self.of_buffer(b"** more than one record in ", b, b"\n"),
            Complaint::Locked(b) => self.of_buffer(b"** record of ", b, b" is locked\n"),
            Complaint::NoRecord(b) => self.of_buffer(b"** no record in buffer ", b, b"\n"),
            Complaint::ReadNoLock(b) => self.of_buffer(b"** record of ", b, b" is read NO-LOCK\n"),
            Complaint::Duplicate { table, index } => {
                self.of_index(b"** duplicate key in index ", index, table)
            }
            Complaint::Mandatory { table, field } => self.of_field(table, field),
            Complaint::KeyTooLong { table, index } => {
                self.of_index(b"** key too long in index ", index, table)
            }
            Complaint::RecordTooLong(table) => self.of_table(table),
            Complaint::DatabaseFull => Vec::from_slice(self.alloc, b"** database full\n"),
            Complaint::Gone(b) => self.of_buffer(b"** record of ", b, b" is gone\n"),
            Complaint::OutOfRange => Vec::from_slice(self.alloc, b"** value out of range\n"),
            Complaint::BadConversion => Vec::from_slice(self.alloc, b"** bad conversion\n"),
            Complaint::BadArgument => Vec::from_slice(self.alloc, b"** bad argument\n"),
            Complaint::BadField(number) => bad_field(self.alloc, number),
        }
    }

    /// A line with the name of a buffer.
    fn of_buffer(&self, before: &[u8], buffer: u32, after: &[u8]) -> Result<Vec<u8>, AllocError>
        ensures { IfOk result (λ line. (p : Program) (n : ℕ) → HasNames p n self.now.schema.now self.now.buffers.now → line.items ≡ before.now ++ (buffer_name p n buffer ++ after.now)) }
    {
        joined(self.alloc, before, buffer_name(self.buffers, buffer), after)
    }

    /// The line about a record of the table that is too long.
    fn of_table(&self, table: u16) -> Result<Vec<u8>, AllocError>
        ensures { IfOk result (λ line. (p : Program) (n : ℕ) → HasNames p n self.now.schema.now self.now.buffers.now → line.items ≡ line_of p n (complaint_in (Complaint.RecordTooLong table))) }
    {
        let name = table_name(self.schema, table);
        joined(self.alloc, b"** record of ", name, b" too long\n")
    }

    /// A line with the name of an index and that of its table.
    fn of_index(&self, before: &[u8], index: u16, table: u16) -> Result<Vec<u8>, AllocError>
        ensures { IfOk result (λ line. (p : Program) (n : ℕ) → HasNames p n self.now.schema.now self.now.buffers.now → line.items ≡ before.now ++ (index_name p table index ++ (codes " of " ++ (table_name p table ++ codes "\n")))) }
    {
        let name = index_name(self.schema, table, index);
        let mut line = joined(self.alloc, before, name, b" of ")?;
        line.extend_from_slice(table_name(self.schema, table))?;
        line.extend_from_slice(b"\n")?;
        Ok(line)
    }

    /// The line about a mandatory field of the table that is `?`.
    fn of_field(&self, table: u16, field: usize) -> Result<Vec<u8>, AllocError>
        ensures { IfOk result (λ line. (p : Program) (n : ℕ) → HasNames p n self.now.schema.now self.now.buffers.now → line.items ≡ line_of p n (complaint_in (Complaint.Mandatory table field))) }
    {
        let name = field_name(self.schema, table, field);
        let mut line = joined(self.alloc, b"** field ", name, b" of ")?;
        line.extend_from_slice(table_name(self.schema, table))?;
        line.extend_from_slice(b" is mandatory\n")?;
        Ok(line)
    }
}

/// Three texts in one.
fn joined(alloc: Global, before: &[u8], name: &[u8], after: &[u8]) -> Result<Vec<u8>, AllocError>
    ensures { IfOk result (λ line. line.items ≡ before.now ++ (name.now ++ after.now)) }
{
    let mut line = Vec::from_slice(alloc, before)?;
    line.extend_from_slice(name)?;
    line.extend_from_slice(after)?;
    Ok(line)
}

/// The line about a field of input.
fn bad_field(alloc: Global, number: u32) -> Result<Vec<u8>, AllocError>
    ensures { IfOk result (λ line. line.items ≡ codes "** input field " ++ (decimal number ++ codes " is bad\n")) }
{
    let number = format!(in alloc; "{number}")?;
    joined(alloc, b"** input field ", number.as_bytes(), b" is bad\n")
}
