//! Names, and what they are defined as.

ghost use Rattle.std.specs.Prelude.{◌≡◌, ◌+◌, ◌≤◌, length};
ghost use Rattle.preprocessor.specs.Names.{is_name, lower, same_bytes, same_name, word_length};

use crate::mode::{is_letter, is_name_byte};
use abl_base::Bytes;

/// What made a definition.
#[derive(Clone, Copy)]
pub enum Maker {
    /// `&GLOBAL-DEFINE`.
    ByGlobal,
    /// An argument `&NAME=value`.
    ByArgument,
    /// `&SCOPED-DEFINE`.
    ByScoped,
}

/// A definition of a name.
#[derive(Drop)]
pub struct Definition {
    pub name: Bytes,
    pub value: Bytes,
    pub maker: Maker,
}

/// A letter as the small one, any other byte unchanged.
pub fn lower(byte: u8) -> u8
    ensures { result ≡ lower byte }
{
    if byte >= b'A' && byte <= b'Z' {
        byte + 32
    } else {
        byte
    }
}

/// Says whether the names are the same; case is ignored.
pub fn same_name(a: &[u8], b: &[u8]) -> bool
    ensures { result ≡ same_name a.now b.now }
{
    let mut x = a;
    let mut y = b;
    while let [p, ps @ ..] = x {
        match y {
            [q, qs @ ..] => {
                if lower(*p) != lower(*q) {
                    return false;
                }
                x = ps;
                y = qs;
            }
            _ => return false,
        }
    }
    y.is_empty()
}

/// Says whether the bytes are the same.
pub fn same_bytes(a: &[u8], b: &[u8]) -> bool
    ensures { result ≡ same_bytes a.now b.now }
{
    let mut x = a;
    let mut y = b;
    while let [p, ps @ ..] = x {
        match y {
            [q, qs @ ..] => {
                if *p != *q {
                    return false;
                }
                x = ps;
                y = qs;
            }
            _ => return false,
        }
    }
    y.is_empty()
}

/// The number of bytes of names that these bytes begin with.
pub fn word_length(bytes: &[u8]) -> usize
    ensures is { result ≡ word_length bytes.now }
    ensures within { result ≤ length bytes.now }
{
    let mut n: usize = 0;
    let mut rest = bytes;
    while let [first, tail @ ..] = rest {
        if !is_name_byte(*first) {
            return n;
        }
        n += 1;
        rest = tail;
    }
    n
}

/// Says whether the bytes are a name: a letter, then letters, digits and `# $ % & - _`.
pub fn is_name(name: &[u8]) -> bool
    ensures { result ≡ is_name name.now }
{
    match name {
        [first, tail @ ..] => {
            if is_letter(*first) {
                word_length(tail) == tail.len()
            } else {
                false
            }
        }
        [] => false,
    }
}
