//! Where a reference ends.

ghost use Rattle.std.specs.Prelude.{◌≡◌, ◌+◌, ◌<◌, ◌≤◌, ◌^◌, [], length, IfOk, IfSome};
ghost use Rattle.preprocessor.specs.Braces.{closing};
ghost use Rattle.preprocessor.specs.Modes.{inner};

use crate::mode::{Mode, next_byte};
use std::alloc::{AllocError, Global};

/// The number of bytes before the `}` that closes the reference whose `{` is directly before.
/// `None` says that there is none. Out of memory is the only error.
pub fn closing(alloc: Global, bytes: &[u8]) -> Result<Option<usize>, AllocError>
    requires { length bytes.now < 2 ^ 30 }
    ensures is { IfOk result (λ end. end ≡ closing [] inner bytes.now) }
    ensures within { IfOk result (λ end. IfSome end (λ n. n < length bytes.now)) }
{
    let mut outer: Vec<u8> = Vec::new(alloc);
    let mut mode = Mode::inner();
    let mut n: usize = 0;
    let mut rest = bytes;
    while let [first, tail @ ..] = rest {
        if mode.opens(*first) {
            outer.push(mode.quote)?;
            mode = Mode::inner();
        } else if mode.closes(*first) {
            match outer.pop() {
                Some(quote) => mode = Mode::within(quote),
                None => return Ok(Some(n)),
            }
        } else {
            mode = mode.after(*first, next_byte(tail));
        }
        n += 1;
        rest = tail;
    }
    Ok(None)
}
