//! The nodes and tokens of a source.

ghost use Rattle.std.specs.Prelude.{◌≡◌, ◌<◌, ◌+◌, ◌^◌, length, IfOk, IfSome};
ghost use Rattle.syntax_reader.specs.Nodes.{IsAt, IsName, IsNameThere, IsQualified, IsText, IsTextThere, IsWordThere, Uses};
ghost use Rattle.syntax_reader.specs.Views.{source_of};

use abl_base::Place;
use parse_tree::{Meaning, Node, Token};
use std::alloc::{AllocError, AllocFailed};
use syntax_tree::{Named, Word};

/// Why a part was not read.
#[derive(Clone, Copy, Debug, PartialEq, Eq)]
pub enum ReadFault {
    /// The nodes are no tree of the tokens.
    Malformed,
    /// Out of memory.
    NoMemory,
}

impl From<AllocError> for ReadFault {
    fn from(_: AllocError) -> ReadFault {
        ReadFault::NoMemory
    }
}

impl<T: Drop> From<AllocFailed<T>> for ReadFault {
    fn from(_: AllocFailed<T>) -> ReadFault {
        ReadFault::NoMemory
    }
}

/// The tokens of a source and the nodes of its tree.
#[derive(Clone, Copy)]
pub struct Reader<'a> {
    pub tokens: &'a [Token],
    pub nodes: &'a [Node],
}

/// The number of the first token of a node, where the node uses the production.
pub(crate) fn uses(reader: &Reader<'_>, n: usize, production: u16) -> Option<usize>
    ensures is { IfSome result (λ k. Uses (source_of reader.now) n production k) }
    ensures within { IfSome result (λ k. n < length reader.now.nodes.now) }
    ensures room { IfSome result (λ k. n < 2 ^ 62) }
    ensures small { IfSome result (λ k. k < 2 ^ 32) }
{
    if n >= 1 << 62 {
        return None;
    }
    let node = reader.nodes.get(n)?;
    if node.production != production {
        return None;
    }
    Some(node.first as usize)
}

/// The number of the first token of a node that must use the production.
pub(crate) fn needs(reader: &Reader<'_>, n: usize, production: u16) -> Result<usize, ReadFault>
    ensures is { IfOk result (λ k. Uses (source_of reader.now) n production k) }
    ensures within { IfOk result (λ k. n < length reader.now.nodes.now) }
    ensures room { IfOk result (λ k. n < 2 ^ 62) }
    ensures small { IfOk result (λ k. k < 2 ^ 32) }
{
    match uses(reader, n, production) {
        Some(k) => Ok(k),
        None => Err(ReadFault::Malformed),
    }
}

/// The place of a token.
pub(crate) fn place(reader: &Reader<'_>, k: usize) -> Result<Place, ReadFault>
    ensures { IfOk result (λ at. IsAt (source_of reader.now) k at) }
{
    match reader.tokens.get(k) {
        Some(token) => Ok(token.place),
        None => Err(ReadFault::Malformed),
    }
}

/// The name that a token is.
pub(crate) fn name(reader: &Reader<'_>, k: usize) -> Result<Word, ReadFault>
    ensures { IfOk result (λ word. IsName (source_of reader.now) k word) }
{
    let Some(token) = reader.tokens.get(k) else {
        return Err(ReadFault::Malformed);
    };
    match &token.meaning {
        Meaning::Spelling(spelling) => {
            let spelling = spelling.copy()?;
            Ok(Word {
                spelling,
                at: token.place,
            })
        }
        _ => Err(ReadFault::Malformed),
    }
}

/// The qualified name that a token is.
pub(crate) fn qualified(reader: &Reader<'_>, k: usize) -> Result<Named, ReadFault>
    ensures { IfOk result (λ name. IsQualified (source_of reader.now) k name) }
{
    let Some(token) = reader.tokens.get(k) else {
        return Err(ReadFault::Malformed);
    };
    match &token.meaning {
        Meaning::Parts(first, second) => {
            let buffer = first.copy()?;
            let field = second.copy()?;
            Ok(Named::Qualified {
                buffer,
                field,
                at: token.place,
            })
        }
        _ => Err(ReadFault::Malformed),
    }
}

/// The text literal that a token is.
pub(crate) fn text(reader: &Reader<'_>, k: usize) -> Result<Word, ReadFault>
    ensures { IfOk result (λ word. IsText (source_of reader.now) k word) }
{
    let Some(token) = reader.tokens.get(k) else {
        return Err(ReadFault::Malformed);
    };
    match &token.meaning {
        Meaning::TextBytes(bytes) => {
            let spelling = bytes.copy()?;
            Ok(Word {
                spelling,
                at: token.place,
            })
        }
        _ => Err(ReadFault::Malformed),
    }
}

/// Whether a word is there that may be left out.
pub(crate) fn word_there(
    reader: &Reader<'_>,
    n: usize,
    present: u16,
    absent: u16,
) -> Result<bool, ReadFault>
    ensures is { IfOk result (λ found. IsWordThere (source_of reader.now) present absent n found) }
    ensures room { IfOk result (λ found. n < 2 ^ 62) }
    ensures within { IfOk result (λ found. n < length reader.now.nodes.now) }
{
    if let Some(k) = uses(reader, n, present) {
        return Ok(true);
    }
    let k = needs(reader, n, absent)?;
    Ok(false)
}

/// A name that may be left out.
pub(crate) fn name_there(
    reader: &Reader<'_>,
    n: usize,
    present: u16,
    absent: u16,
    skipped: usize,
) -> Result<Option<Word>, ReadFault>
    requires { skipped < 4 }
    ensures is { IfOk result (λ found. IsNameThere (source_of reader.now) present absent skipped n found) }
    ensures room { IfOk result (λ found. n < 2 ^ 62) }
    ensures within { IfOk result (λ found. n < length reader.now.nodes.now) }
{
    if let Some(k) = uses(reader, n, present) {
        let word = name(reader, k + skipped)?;
        return Ok(Some(word));
    }
    let k = needs(reader, n, absent)?;
    Ok(None)
}

/// A text literal that may be left out.
pub(crate) fn text_there(
    reader: &Reader<'_>,
    n: usize,
    present: u16,
    absent: u16,
) -> Result<Option<Word>, ReadFault>
    ensures is { IfOk result (λ found. IsTextThere (source_of reader.now) present absent n found) }
    ensures room { IfOk result (λ found. n < 2 ^ 62) }
    ensures within { IfOk result (λ found. n < length reader.now.nodes.now) }
{
    if let Some(k) = uses(reader, n, present) {
        let word = text(reader, k + 1)?;
        return Ok(Some(word));
    }
    let k = needs(reader, n, absent)?;
    Ok(None)
}
