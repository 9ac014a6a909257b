//! Lexemes that break a rule: names and numbers that are too long, and invalid dates.

ghost use Rattle.std.specs.Prelude.{◌≡◌, ℕ, List, true, IfNone, IfSome};
ghost use Rattle.lexer.specs.Forms.{form};
ghost use Rattle.lexer.specs.Texts.{IsFirstMisfit, IsFit};
ghost use Rattle.lexer.specs.declared.form.Form.TheVariants.{Qualified, Fractional};

use crate::form::Form;
use crate::number::{date, is_date};
use crate::word::{digits_len, name_len};
use abl_base::Rule;
use abl_base::limits::MAX_NAME_BYTES;

/// How many digits a number has before the point at most.
pub const MAX_WHOLE_DIGITS: usize = 18;

/// How many digits a number has after the point at most.
pub const MAX_DECIMALS: usize = 10;

fn long_part(word: &[u8]) -> Option<(Rule, usize)>
    ensures none { IfNone result (IsFit Qualified word.now) }
    ensures some { IfSome result (λ found. IsFirstMisfit Qualified word.now found.0 found.1) }
{
    let n = name_len(word);
    if n > MAX_NAME_BYTES {
        return Some((Rule::L4, 0));
    }
    if word.len().saturating_sub(n + 1) > MAX_NAME_BYTES {
        return Some((Rule::L4, n + 1));
    }
    None
}

fn long_fraction(word: &[u8]) -> Option<(Rule, usize)>
    ensures none { IfNone result (IsFit Fractional word.now) }
    ensures some { IfSome result (λ found. IsFirstMisfit Fractional word.now found.0 found.1) }
{
    let n = digits_len(word);
    if n > MAX_WHOLE_DIGITS {
        return Some((Rule::L5, 0));
    }
    if word.len().saturating_sub(n + 1) > MAX_DECIMALS {
        return Some((Rule::L5, 0));
    }
    None
}

/// The first rule that a lexeme of this form breaks, and the offset from its start: L4 for a
/// part of a name above 32 bytes; L5 for more than 18 digits before or 10 after the point, and
/// for an invalid date, with years from 1 to 9999.
pub fn misfit(shape: Form, word: &[u8]) -> Option<(Rule, usize)>
    requires { (after : List ℕ) × (form shape word.now after ≡ true) }
    ensures none { IfNone result (IsFit shape word.now) }
    ensures some { IfSome result (λ found. IsFirstMisfit shape word.now found.0 found.1) }
{
    match shape {
        Form::Word => {
            if word.len() > MAX_NAME_BYTES {
                Some((Rule::L4, 0))
            } else {
                None
            }
        }
        Form::Qualified => long_part(word),
        Form::Digits => {
            if word.len() > MAX_WHOLE_DIGITS {
                Some((Rule::L5, 0))
            } else {
                None
            }
        }
        Form::Fractional => long_fraction(word),
        Form::Dated => {
            if is_date(date(word)) {
                None
            } else {
                Some((Rule::L5, 0))
            }
        }
        Form::Quoted | Form::Symbol => None,
    }
}
