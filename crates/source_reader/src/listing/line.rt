//! The line of a block.

ghost use Rattle.std.specs.Prelude.{◌≡◌, ◌++◌, ◌∷◌, [], IfOk, OnOk, slice_get};
ghost use Rattle.std.specs.List.{flat_map};
ghost use Rattle.bound_tree.specs.Bound.{header_of};
ghost use Rattle.source_reader.specs.listing.Listing.{kind_word, line, line_number, listed, name_of, named, property};

use crate::listing::own_lines::OwnLines;
use abl_base::{Bytes, Place};
use bound_tree::{BlockKind, BufferDef, Flags, Header};
use itoa::Buffer;
use std::alloc::{AllocError, Global};

/// What is listed of a block: where its first keyword is, and what follows the line number, with the
/// line feed.
#[derive(Drop)]
pub struct ListedBlock {
    pub place: Place,
    pub text: Bytes,
}

/// What is listed of a block with this header, in a procedure with these buffers.
pub fn listed(
    alloc: Global,
    buffers: &[BufferDef],
    header: &Header,
) -> Result<ListedBlock, AllocError>
    ensures { IfOk result (λ r. r ≡ listed buffers.now (header_of header.now)) }
{
    let mut text = Bytes::of(alloc, b" ")?;
    text.extend_from_slice(kind_word(header.kind))?;
    text.extend_from_slice(b" ")?;
    text.extend_from_slice(property(header.flags))?;
    add_names(&mut text, buffers, &header.scoped)?;
    text.extend_from_slice(b"\n")?;
    Ok(ListedBlock {
        place: header.place,
        text,
    })
}

/// Adds the line of the block of this number.
pub fn add_line<L: OwnLines>(
    own: &L,
    number: u32,
    block: &ListedBlock,
    text: &mut Bytes,
) -> Result<(), AllocError>
    ensures { OnOk result (text.new ≡ text.old ++ line (L.own_line own.now) number block.now) }
{
    let mut digits = Buffer::new();
    let first = line_number(own, number, block.place);
    text.extend_from_slice(digits.format(u64::from(first)).as_bytes())?;
    text.extend_from_slice(block.text.as_slice())?;
    Ok(())
}

/// The line number of the block of this number: that of its first keyword in its own text, and 1 of
/// the external procedure, which has none.
fn line_number<L: OwnLines>(own: &L, number: u32, place: Place) -> u32
    ensures { result ≡ line_number (L.own_line own.now) number place }
{
    if number == 0 { 1 } else { own.line_of(place) }
}

/// What a block is called.
fn kind_word(kind: BlockKind) -> &'static [u8]
    ensures { result.now ≡ kind_word kind }
{
    match kind {
        BlockKind::Procedure => b"procedure",
        BlockKind::Do => b"DO",
        BlockKind::Repeat => b"REPEAT",
        BlockKind::For => b"FOR",
    }
}

/// Whether the block starts a transaction, or has the undo property.
fn property(flags: Flags) -> &'static [u8]
    ensures { result.now ≡ property flags }
{
    if flags.starts {
        b"transaction"
    } else if flags.undo {
        b"sub"
    } else {
        b"plain"
    }
}

/// Adds the names of these buffers, each after a blank.
fn add_names(text: &mut Bytes, buffers: &[BufferDef], scoped: &[u32]) -> Result<(), AllocError>
    ensures { OnOk result (text.new ≡ text.old ++ flat_map (named buffers.now) scoped.now) }
{
    for number in scoped {
        add_name(text, buffers, *number as usize)?;
    }
    Ok(())
}

/// Adds the name of a buffer after a blank.
fn add_name(text: &mut Bytes, buffers: &[BufferDef], number: usize) -> Result<(), AllocError>
    ensures { OnOk result (text.new ≡ text.old ++ named buffers.now number) }
{
    text.extend_from_slice(b" ")?;
    text.extend_from_slice(name_of(buffers, number))?;
    Ok(())
}

/// The name of the buffer of this number.
fn name_of(buffers: &[BufferDef], number: usize) -> &[u8]
    ensures { result.now ≡ name_of (slice_get buffers.now number) }
{
    if number < buffers.len() {
        buffers[number].name.as_slice()
    } else {
        b""
    }
}
