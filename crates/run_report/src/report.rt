//! The text that a run writes to standard output, and the lines on how a command ended.

ghost use Rattle.std.specs.Prelude.{◌≡◌, ◌++◌, ◌∷◌, [], List, codes, decimal, is_ok, slice_get};
ghost use Rattle.client_output.specs.declared.section.Section.{Section as Written};
ghost use Rattle.std.specs.List.{flat_map};
ghost use Rattle.host_io.specs.declared.out.Stream.{Stream};
ghost use Rattle.host_io.specs.Out.{Writes};
ghost use Rattle.run_report.specs.Report.{file_part, line_end_of, line_end_after, part_of, report_of, end_line, end_lines, name_or_none, status_lines};

use crate::refusal::Refusal;
use abl_base::{Bytes, Place};
use abl_values::Schema;
use client_output::Section;
use command_arguments::Mode;
use database_protocol::ClientEnd;
use host_io::{Out, OutFailed, Stream};
use itoa::Buffer;

/// What the report of a run needs besides what the clients did: the mode, the schema, whose names are
/// in the lines of a trace, and the names of the clients.
#[derive(Clone, Copy)]
pub struct ReportForm<'a> {
    pub mode: Mode,
    pub schema: &'a Schema,
    pub names: &'a [Bytes],
}

/// Writes the piece. After an error a prefix of it was written.
fn write_piece<O: Out>(out: &mut O, stream: Stream, piece: &[u8]) -> Result<(), OutFailed>
    ensures { Writes (is_ok result) stream piece.now (O.state out.old) (O.state out.new) }
{
    match out.write(stream, piece) {
        Ok(()) => Ok(()),
        Err(fault) => Err(fault),
    }
}

/// Writes the pieces one after the other. After an error a prefix of them was written.
pub(crate) fn write_all<O: Out>(
    out: &mut O,
    stream: Stream,
    pieces: &[&[u8]],
) -> Result<(), OutFailed>
    ensures { Writes (is_ok result) stream (flat_map (λ piece. piece.now) pieces.now) (O.state out.old) (O.state out.new) }
{
    for piece in pieces {
        write_piece(out, stream, piece)?;
    }
    Ok(())
}

/// A line feed if `bytes` does not end with one; nothing for empty `bytes`.
pub fn line_end(bytes: &[u8]) -> &'static [u8]
    ensures { result.now ≡ line_end_of bytes.now }
{
    match bytes {
        [] => b"",
        [.., last] => line_end_after_byte(*last),
    }
}

/// A line feed, except after a line feed.
fn line_end_after_byte(last: u8) -> &'static [u8]
    ensures { result.now ≡ line_end_after last }
{
    if last == b'\n' { b"" } else { b"\n" }
}

/// Writes a part of the report under this title.
pub fn write_part<'a, O: Out>(
    out: &mut O,
    title: &'a [u8],
    bytes: &'a [u8],
    end: &'a [u8],
) -> Result<(), OutFailed>
    requires { end.now ≡ line_end_of bytes.now }
    ensures { Writes (is_ok result) Stream.Output (part_of title.now bytes.now) (O.state out.old) (O.state out.new) }
{
    let pieces = [b"== ", title, b" ==\n", bytes, end];
    write_all(out, Stream::Output, &pieces)
}

/// Writes the part of a named output.
fn write_named<'a, O: Out>(
    out: &mut O,
    name: &'a [u8],
    file: &'a [u8],
    bytes: &'a [u8],
    end: &'a [u8],
) -> Result<(), OutFailed>
    requires { end.now ≡ line_end_of bytes.now }
    ensures { Writes (is_ok result) Stream.Output (part_of (name.now ++ 58 ∷ file.now) bytes.now) (O.state out.old) (O.state out.new) }
{
    let pieces = [b"== ", name, b":", file, b" ==\n", bytes, end];
    write_all(out, Stream::Output, &pieces)
}

/// Writes a client's part of the report: `== NAME ==` and its output, and for each named output
/// `== NAME:FILE ==` and its bytes. It takes no memory.
pub fn write_report<O: Out>(out: &mut O, name: &[u8], sections: &[Section]) -> Result<(), OutFailed>
    ensures { Writes (is_ok result) Stream.Output (report_of name.now sections.now) (O.state out.old) (O.state out.new) }
{
    let Some((default, named)) = sections.split_first() else {
        return write_part(out, name, b"", b"");
    };
    let bytes = default.bytes.as_slice();
    write_part(out, name, bytes, line_end(bytes))?;
    write_all_named(out, name, named)
}

/// Writes the parts of the named outputs.
fn write_all_named<O: Out>(out: &mut O, name: &[u8], named: &[Section]) -> Result<(), OutFailed>
    ensures { Writes (is_ok result) Stream.Output (flat_map (λ s. part_of (name.now ++ 58 ∷ s.name) s.bytes) named.now) (O.state out.old) (O.state out.new) }
{
    for section in named {
        let bytes = section.bytes.as_slice();
        write_named(out, name, section.name.as_slice(), bytes, line_end(bytes))?;
    }
    Ok(())
}

/// Writes the lines of a status to standard error: of the clients or sources of these names, and of
/// the clients' ends where a run began. A fault there changes nothing else.
pub fn write_status<O: Out>(
    out: &mut O,
    names: &[Bytes],
    ends: &[ClientEnd],
    refusal: &Refusal,
) -> Result<(), OutFailed>
    ensures { Writes (is_ok result) Stream.Diagnostics (status_lines names.now ends.now refusal.now) (O.state out.old) (O.state out.new) }
{
    let mut buffer = Buffer::new();
    match refusal {
        Refusal::Usage { argument } => {
            let argument = buffer.format(*argument).as_bytes();
            write_line(out, b"abl: usage at word ", argument, b"")
        }
        Refusal::File { name: file } => {
            write_line(out, b"abl: cannot read ", file.as_slice(), b"")
        }
        Refusal::TooLong { name: file, most } => {
            let most = buffer.format(*most).as_bytes();
            write_too_long(out, file.as_slice(), most)
        }
        Refusal::Schema { rule, line } => {
            let line = buffer.format(*line).as_bytes();
            write_schema(out, rule.name(), line)
        }
        Refusal::Source {
            client,
            file,
            rule,
            place,
        } => write_source(out, name_at(names, *client), file, rule.name(), *place),
        Refusal::NoTable { name: table } => {
            write_line(out, b"abl: no table ", table.as_slice(), b"")
        }
        Refusal::NotCreated => write_line(out, b"abl: not created", b"", b""),
        Refusal::AlreadyCreated => write_line(out, b"abl: already created", b"", b""),
        Refusal::SchemaDiffers { .. } => write_line(out, b"abl: schema differs", b"", b""),
        Refusal::Disk => write_line(out, b"abl: disk", b"", b""),
        Refusal::Client { .. } => write_ends(out, names, ends),
        Refusal::Output => write_line(out, b"abl: output", b"", b""),
        Refusal::NoMemory => write_line(out, b"abl: no memory", b"", b""),
    }
}

/// The name of this number, and nothing where there is none.
pub(crate) fn name_at(names: &[Bytes], number: u16) -> &[u8]
    ensures { result.now ≡ name_or_none (slice_get names.now number) }
{
    match names.get(usize::from(number)) {
        Some(name) => name.as_slice(),
        None => b"",
    }
}

/// Writes a line of three pieces to standard error.
fn write_line<'a, O: Out>(
    out: &mut O,
    before: &'a [u8],
    middle: &'a [u8],
    after: &'a [u8],
) -> Result<(), OutFailed>
    ensures { Writes (is_ok result) Stream.Diagnostics (before.now ++ middle.now ++ after.now ++ 10 ∷ []) (O.state out.old) (O.state out.new) }
{
    let pieces = [before, middle, after, b"\n"];
    write_all(out, Stream::Diagnostics, &pieces)
}

/// Writes the line about a file that is too long.
fn write_too_long<'a, O: Out>(out: &mut O, name: &'a [u8], most: &'a [u8]) -> Result<(), OutFailed>
    ensures { Writes (is_ok result) Stream.Diagnostics (codes "abl: " ++ name.now ++ codes " is longer than " ++ most.now ++ codes " bytes" ++ 10 ∷ []) (O.state out.old) (O.state out.new) }
{
    let pieces = [b"abl: ", name, b" is longer than ", most, b" bytes\n"];
    write_all(out, Stream::Diagnostics, &pieces)
}

/// Writes the line about a schema file that breaks a rule.
fn write_schema<'a, O: Out>(out: &mut O, rule: &'a [u8], line: &'a [u8]) -> Result<(), OutFailed>
    ensures { Writes (is_ok result) Stream.Diagnostics (codes "abl: schema " ++ rule.now ++ codes " at line " ++ line.now ++ 10 ∷ []) (O.state out.old) (O.state out.new) }
{
    let pieces = [b"abl: schema ", rule, b" at line ", line, b"\n"];
    write_all(out, Stream::Diagnostics, &pieces)
}

/// Writes the line about a source that breaks a rule, at a place of the file of this name or, without
/// one, of the source's own file.
fn write_source<O: Out>(
    out: &mut O,
    name: &[u8],
    file: &Option<Bytes>,
    rule: &[u8],
    place: Place,
) -> Result<(), OutFailed>
    ensures { Writes (is_ok result) Stream.Diagnostics (codes "abl: " ++ name.now ++ codes ": " ++ rule.now ++ codes " at " ++ file_part file.now ++ decimal place.line ++ 58 ∷ decimal place.column ++ 10 ∷ []) (O.state out.old) (O.state out.new) }
{
    let mut line = Buffer::new();
    let mut column = Buffer::new();
    let line = line.format(place.line).as_bytes();
    let column = column.format(place.column).as_bytes();
    match file {
        Some(file) => write_file_rule(out, name, file.as_slice(), rule, line, column),
        None => write_rule(out, name, rule, line, column),
    }
}

/// Writes the line about a source that breaks a rule in its own file, with its place in digits.
fn write_rule<'a, O: Out>(
    out: &mut O,
    name: &'a [u8],
    rule: &'a [u8],
    line: &'a [u8],
    column: &'a [u8],
) -> Result<(), OutFailed>
    ensures { Writes (is_ok result) Stream.Diagnostics (codes "abl: " ++ name.now ++ codes ": " ++ rule.now ++ codes " at " ++ line.now ++ 58 ∷ column.now ++ 10 ∷ []) (O.state out.old) (O.state out.new) }
{
    let pieces = [
        b"abl: ", name, b": ", rule, b" at ", line, b":", column, b"\n",
    ];
    write_all(out, Stream::Diagnostics, &pieces)
}

/// Writes the line about a source that breaks a rule in a file that it needs.
fn write_file_rule<'a, O: Out>(
    out: &mut O,
    name: &'a [u8],
    file: &'a [u8],
    rule: &'a [u8],
    line: &'a [u8],
    column: &'a [u8],
) -> Result<(), OutFailed>
    ensures { Writes (is_ok result) Stream.Diagnostics (codes "abl: " ++ name.now ++ codes ": " ++ rule.now ++ codes " at " ++ file.now ++ 58 ∷ line.now ++ 58 ∷ column.now ++ 10 ∷ []) (O.state out.old) (O.state out.new) }
{
    let pieces = [
        b"abl: ", name, b": ", rule, b" at ", file, b":", line, b":", column, b"\n",
    ];
    write_all(out, Stream::Diagnostics, &pieces)
}

/// Writes a line for each client that ended in Error or Stop.
fn write_ends<O: Out>(out: &mut O, names: &[Bytes], ends: &[ClientEnd]) -> Result<(), OutFailed>
    ensures { Writes (is_ok result) Stream.Diagnostics (end_lines names.now ends.now) (O.state out.old) (O.state out.new) }
{
    let Some((name, names)) = names.split_first() else {
        return Ok(());
    };
    let Some((end, ends)) = ends.split_first() else {
        return Ok(());
    };
    write_end(out, name.as_slice(), end)?;
    write_ends(out, names, ends)
}

/// Writes the line about a client that ended in Error or Stop.
fn write_end<O: Out>(out: &mut O, name: &[u8], end: &ClientEnd) -> Result<(), OutFailed>
    ensures { Writes (is_ok result) Stream.Diagnostics (end_line name.now end.now) (O.state out.old) (O.state out.new) }
{
    match end {
        ClientEnd::Normal | ClientEnd::Returned | ClientEnd::NoMemory => Ok(()),
        ClientEnd::Error(text) => write_how(out, name, b": error ", text.as_slice()),
        ClientEnd::Stop(why) => write_how(out, name, b": stop ", why.name()),
    }
}

/// Writes the line about a client's end, and why it came.
fn write_how<'a, O: Out>(
    out: &mut O,
    name: &'a [u8],
    how: &'a [u8],
    why: &'a [u8],
) -> Result<(), OutFailed>
    ensures { Writes (is_ok result) Stream.Diagnostics (codes "abl: client " ++ name.now ++ how.now ++ why.now ++ 10 ∷ []) (O.state out.old) (O.state out.new) }
{
    let pieces = [b"abl: client ", name, how, why, b"\n"];
    write_all(out, Stream::Diagnostics, &pieces)
}
