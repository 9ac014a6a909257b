//! The indexes of a table.

ghost use Rattle.std.specs.Prelude.{◌≡◌, ◌<◌, ◌≤◌, ◌++◌, List, ℕ, Bool, Option, ◌^◌, false, length, if◌then◌else◌, All, IfOk, IfSome, IsTrue, MatchOption, MatchResult, None, Some};
ghost use Rattle.std.specs.List.{flat_map};
ghost use Rattle.abl_values.specs.declared.schema.KeyPart.{KeyPart};
ghost use Rattle.abl_values.specs.declared.schema.IndexDef.{IndexDef};
ghost use Rattle.abl_values.specs.Schema.{index_line, index_lines, part_text};
ghost use Rattle.abl_values.specs.Sound.{IsSoundIndex, has_twice};
ghost use Rattle.schema_text.specs.Words.{begins, part_at};
ghost use Rattle.schema_text.specs.Written.{AreFields, AreWrittenIndexes, IsWrittenIndex, index_names};
ghost use Rattle.schema_text.specs.declared.unread.Unread.TheVariants.{NoMemory};

use crate::adding::add;
use crate::unread::Unread;
use crate::words::{begins, flag_at, index_head, name_before, past};
use abl_base::Items;
use abl_values::{FieldDef, IndexDef, KeyPart, KeyParts, Named};
use std::alloc::Global;

/// The indexes of a table, the number of the primary one, and what follows them.
#[derive(Drop)]
pub struct Indexes<'a> {
    pub indexes: Named<IndexDef>,
    pub primary: Option<u16>,
    pub rest: &'a [u8],
}

/// An index, whether it is the primary one, and what follows it.
#[derive(Drop)]
struct Index<'a> {
    index: IndexDef,
    primary: bool,
    rest: &'a [u8],
}

/// A component of an index, and what follows it.
#[derive(Clone, Copy)]
struct Part<'a> {
    part: KeyPart,
    rest: &'a [u8],
}

/// The indexes whose lines the text begins with, of a table with these fields.
pub fn indexes_at<'a>(
    alloc: Global,
    fields: &Named<FieldDef>,
    text: &'a [u8],
) -> Result<Indexes<'a>, Unread>
    requires { AreFields fields.now }
    ensures indexes { (indexes : List IndexDef) → (primary : Option ℕ) → (rest : List ℕ) → AreWrittenIndexes (length fields.now) indexes primary → begins 73 rest ≡ false → text.now ≡ index_lines fields.now primary 0 indexes ++ rest → MatchResult result (λ read. (read.indexes ≡ indexes) × (read.primary ≡ primary) × (read.rest.now ≡ rest)) (λ fault. fault ≡ NoMemory) }
    ensures sound { IfOk result (λ read. All (IsSoundIndex (length fields.now)) read.indexes) }
    ensures primary { IfOk result (λ read. IfSome read.primary (λ n. n < length read.indexes)) }
    ensures apart { IfOk result (λ read. has_twice (index_names read.indexes) ≡ false) }
    ensures small { IfOk result (λ read. IfSome read.primary (λ n. n < 2 ^ 16)) }
    ensures within { IfOk result (λ read. length read.rest.now ≤ length text.now) }
{
    let mut indexes = Named::empty(alloc);
    let mut primary = None;
    let mut rest = text;
    while begins(b'I', rest) {
        let read = index_at(alloc, fields, rest)?;
        primary = primary_number(primary, read.primary, indexes.len())?;
        rest = read.rest;
        add(&mut indexes, read.index)?;
    }
    Ok(Indexes {
        indexes,
        primary,
        rest,
    })
}

/// The number of the primary index after one more, which has this number.
fn primary_number(
    before: Option<u16>,
    is_primary: bool,
    number: usize,
) -> Result<Option<u16>, Unread>
    ensures number { MatchResult result (λ after. after ≡ (if is_primary then Some number else before)) (λ fault. IsTrue is_primary × (2 ^ 16 ≤ number)) }
    ensures small { IfOk result (λ after. IfSome after (λ n. n < 2 ^ 16)) }
{
    if !is_primary {
        return Ok(before);
    }
    match u16::try_from(number) {
        Ok(number) => Ok(Some(number)),
        Err(_) => Err(Unread::NotCanonical),
    }
}

/// The index whose line the text begins with, of a table with these fields.
fn index_at<'a>(
    alloc: Global,
    fields: &Named<FieldDef>,
    text: &'a [u8],
) -> Result<Index<'a>, Unread>
    requires { AreFields fields.now }
    ensures index { (index : IndexDef) → (primary : Bool) → (rest : List ℕ) → IsWrittenIndex (length fields.now) index → text.now ≡ index_line fields.now primary index ++ rest → MatchResult result (λ read. (read.index ≡ index) × (read.primary ≡ primary) × (read.rest.now ≡ rest)) (λ fault. fault ≡ NoMemory) }
    ensures sound { IfOk result (λ read. IsSoundIndex (length fields.now) read.index) }
    ensures shorter { IfOk result (λ read. length read.rest.now < length text.now) }
{
    let Some(head) = index_head(text) else {
        return Err(Unread::NotCanonical);
    };
    let (parts, end) = parts_at(alloc, fields, head.rest)?;
    let Some(rest) = past(b'\n', end) else {
        return Err(Unread::NotCanonical);
    };
    let name = Items::of(alloc, head.name)?;
    let index = IndexDef {
        name,
        unique: head.unique,
        parts,
    };
    Ok(Index {
        index,
        primary: head.primary,
        rest,
    })
}

/// The components that the text begins with, of an index of a table with these fields.
fn parts_at<'a>(
    alloc: Global,
    fields: &Named<FieldDef>,
    text: &'a [u8],
) -> Result<(KeyParts, &'a [u8]), Unread>
    requires { AreFields fields.now }
    ensures parts { (parts : List KeyPart) → (rest : List ℕ) → All (λ p. p.field < length fields.now) parts → begins 32 rest ≡ false → text.now ≡ flat_map (part_text fields.now) parts ++ rest → MatchResult result (λ read. (read.0 ≡ parts) × (read.1.now ≡ rest)) (λ fault. fault ≡ NoMemory) }
    ensures sound { IfOk result (λ read. All (λ p. p.field < length fields.now) read.0) }
    ensures within { IfOk result (λ read. length read.1.now ≤ length text.now) }
{
    let mut parts = Items::empty(alloc);
    let mut rest = text;
    while begins(b' ', rest) {
        let Some(read) = part_at(fields, rest) else {
            return Err(Unread::NotCanonical);
        };
        parts.push(read.part)?;
        rest = read.rest;
    }
    Ok((parts, rest))
}

/// The component that the text begins with, by the number of its field.
fn part_at<'a>(fields: &Named<FieldDef>, text: &'a [u8]) -> Option<Part<'a>>
    requires { AreFields fields.now }
    ensures part { MatchOption result (part_at fields.now text.now ≡ None) (λ read. part_at fields.now text.now ≡ Some (record { part = read.part; rest = read.rest.now })) }
    ensures sound { IfSome result (λ read. read.part.field < length fields.now) }
    ensures shorter { IfSome result (λ read. length read.rest.now < length text.now) }
{
    let blank = past(b' ', text)?;
    let name = name_before(b' ', blank)?;
    let number = fields.find(name.word)?;
    let descending = flag_at(b'D', b'A', name.rest)?;
    let part = KeyPart {
        field: number as u16,
        descending: descending.is_set,
    };
    Some(Part {
        part,
        rest: descending.rest,
    })
}
