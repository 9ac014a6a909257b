//! The words of a reference.

ghost use Rattle.std.specs.Prelude.{◌≡◌, ◌∷◌, [], IfOk, None, false};
ghost use Rattle.preprocessor.specs.Words.{is_blank, words};

use abl_base::{Bytes, Items};
use std::alloc::{AllocError, Global};

/// White space.
pub fn is_blank(byte: u8) -> bool
    ensures { result ≡ is_blank byte }
{
    byte == b' ' || byte == b'\t' || byte == b'\n' || byte == b'\r' || byte == 12
}

/// The words, set apart by white space; between quotes it belongs to the word.
pub fn words(alloc: Global, bytes: &[u8]) -> Result<Items<Bytes>, AllocError>
    ensures { IfOk result (λ w. w ≡ words None false bytes.now) }
{
    let mut done: Items<Bytes> = Items::empty(alloc);
    let mut word: Option<Bytes> = None;
    let mut quoted = false;
    let mut rest = bytes;
    while let [first, tail @ ..] = rest {
        if !quoted && is_blank(*first) {
            if let Some(w) = word {
                done.push(w)?;
            }
            word = None;
        } else {
            let mut w = match word {
                Some(w) => w,
                None => Items::empty(alloc),
            };
            if *first == b'"' {
                quoted = !quoted;
            } else {
                w.push(*first)?;
            }
            word = Some(w);
        }
        rest = tail;
    }
    if let Some(w) = word {
        done.push(w)?;
    }
    Ok(done)
}
