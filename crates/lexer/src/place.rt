//! Lines and columns.

ghost use Rattle.std.specs.Prelude.{◌+◌, ◌<◌, ◌≤◌, ◌≡◌, ◌^◌, length};
ghost use Rattle.lexer.specs.Texts.{place_of};

use abl_base::Place;

/// The line and column of the place `to`, from those of a place before it.
pub fn moved(text: &[u8], place: Place, from: usize, to: usize) -> Place
    requires order { from ≤ to }
    requires within { to ≤ length text.now }
    requires small { length text.now + 1 < 2 ^ 32 }
    requires known { place ≡ place_of text.now from }
    ensures { result ≡ place_of text.now to }
{
    let mut line = place.line;
    let mut column = place.column;
    for i in from..to {
        if text[i] == b'\n' {
            line += 1;
            column = 1;
        } else {
            column += 1;
        }
    }
    Place { line, column }
}
