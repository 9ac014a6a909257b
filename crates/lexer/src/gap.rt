//! White space and comments, which nest.

ghost use Rattle.std.specs.Prelude.{◌+◌, ◌<◌, ◌≤◌, ◌≡◌, length, IfErr, IfOk, IfSome};
ghost use Rattle.lexer.specs.Bytes.{comment_at, pair_at, starts_gap};
ghost use Rattle.lexer.specs.Forms.{ends_here};
ghost use Rattle.lexer.specs.Gaps.{Gap, OpenGap, comment};

use crate::bytes::{has_byte_at, is_white, rest_from};

// These two bytes are here.
fn pair_at(rest: &[u8], i: usize, a: u8, b: u8) -> bool
    requires { i + 1 < length rest.now }
    ensures { result ≡ pair_at rest.now i a b }
{
    rest[i] == a && rest[i + 1] == b
}

fn comment_at(rest: &[u8], i: usize) -> bool
    requires { i < length rest.now }
    ensures { result ≡ comment_at rest.now i }
{
    i + 1 < rest.len() && pair_at(rest, i, b'/', b'*')
}

// How many bytes there are up to the end of the comment that is open at the start.
fn comment_len(rest: &[u8]) -> Option<usize>
    ensures is { result ≡ comment 1 rest.now }
    ensures within { IfSome result (λ n. n ≤ length rest.now) }
{
    let mut depth: usize = 1;
    let mut i = 0;
    while i + 1 < rest.len() {
        if pair_at(rest, i, b'/', b'*') {
            depth += 1;
            i += 2;
        } else if pair_at(rest, i, b'*', b'/') {
            depth -= 1;
            i += 2;
            if depth == 0 {
                return Some(i);
            }
        } else {
            i += 1;
        }
    }
    None
}

/// How many bytes of white space and comments the text begins with, or where a comment is open at the end.
pub fn gap(rest: &[u8]) -> Result<usize, usize>
    ensures gap { IfOk result (λ n. Gap rest.now n × (n ≤ length rest.now)) }
    ensures open { IfErr result (λ n. OpenGap rest.now n × (n ≤ length rest.now)) }
{
    let mut i = 0;
    while i < rest.len() {
        if is_white(rest[i]) {
            i += 1;
        } else if comment_at(rest, i) {
            match comment_len(rest_from(rest, i + 2)) {
                Some(m) => i += m + 2,
                None => return Err(i),
            }
        } else {
            return Ok(i);
        }
    }
    Ok(i)
}

/// Whether white space, a comment or nothing follows.
pub fn ends_here(rest: &[u8]) -> bool
    ensures { result ≡ ends_here rest.now }
{
    if rest.len() == 0 {
        return true;
    }
    let b = rest[0];
    if is_white(b) {
        return true;
    }
    if b == b'/' {
        has_byte_at(rest, 1, b'*')
    } else {
        false
    }
}
