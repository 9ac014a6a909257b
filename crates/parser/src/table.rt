//! The table of productions, read by row.

ghost use Rattle.std.specs.Prelude.{◌+◌, length, ℕ, ◌<◌, ◌≤◌, ◌≡◌, true, false};
ghost use Rattle.parser.specs.Same.{same_kind, same_nonterminal, nonterminal_number};
ghost use Rattle.parser.specs.Grammar.{rule, rule_count, nonterminals, symbols, symbols_from, starts, starts_from, empty, statement, not_or_sign, expression};
ghost use Rattle.parser.specs.Table.{rows_from, has};

use crate::nonterminal::Nonterminal;
use crate::rows::{EMPTY, NONTERMINALS, ROWS_FROM, STARTS_FROM, SYMBOLS_FROM};
use crate::starts::STARTS;
use crate::symbol::Symbol;
use crate::symbols::SYMBOLS;
use parse_tree::TokenKind;
use parse_tree::production::{NEGATION_NOT, SIGNED_PLUS_OR_MINUS};

fn nonterminals() -> &'static [Nonterminal]
    ensures { result.now ≡ nonterminals }
{
    &NONTERMINALS
}

fn symbols() -> &'static [Symbol]
    ensures { result.now ≡ symbols }
{
    &SYMBOLS
}

fn symbols_from() -> &'static [usize]
    ensures { result.now ≡ symbols_from }
{
    &SYMBOLS_FROM
}

fn starts() -> &'static [TokenKind]
    ensures { result.now ≡ starts }
{
    &STARTS
}

fn starts_from() -> &'static [usize]
    ensures { result.now ≡ starts_from }
{
    &STARTS_FROM
}

fn empty() -> &'static [bool]
    ensures { result.now ≡ empty }
{
    &EMPTY
}

fn rows_from() -> &'static [usize]
    ensures { result.now ≡ rows_from }
{
    &ROWS_FROM
}

/// How many productions there are.
pub(crate) fn count() -> usize
    ensures { result ≡ rule_count }
{
    nonterminals().len()
}

/// The nonterminal of a production.
pub(crate) fn nonterminal_at(r: usize) -> Nonterminal
    requires { r < rule_count }
    ensures { result ≡ (rule r).nonterminal }
{
    let all = nonterminals();
    all[r]
}

/// The symbols of a production.
pub(crate) fn symbols_at(r: usize) -> &'static [Symbol]
    requires { r < rule_count }
    ensures { result.now ≡ (rule r).symbols }
{
    let all = symbols();
    let from = symbols_from();
    &all[from[r]..from[r + 1]]
}

/// The tokens that a production can begin with.
pub(crate) fn starts_at(r: usize) -> &'static [TokenKind]
    requires { r < rule_count }
    ensures { result.now ≡ (rule r).starts }
{
    let all = starts();
    let from = starts_from();
    &all[from[r]..from[r + 1]]
}

/// Whether a production can be empty.
pub(crate) fn may_be_empty(r: usize) -> bool
    requires { r < rule_count }
    ensures { result ≡ (rule r).empty }
{
    let all = empty();
    all[r]
}

pub(crate) fn same_kind(a: TokenKind, b: TokenKind) -> bool
    ensures { result ≡ same_kind a b }
{
    a == b
}

pub(crate) fn same_nonterminal(a: Nonterminal, b: Nonterminal) -> bool
    ensures { result ≡ same_nonterminal a b }
{
    a == b
}

fn nonterminal_number(nonterminal: Nonterminal) -> usize
    ensures { result ≡ nonterminal_number nonterminal }
{
    nonterminal as usize
}

/// The first row of the nonterminal, or 0 where the table does not say.
pub(crate) fn first_row(nonterminal: Nonterminal) -> usize
    ensures below { result ≤ rule_count }
    ensures before { (q : ℕ) → q < rule_count → (rule q).nonterminal ≡ nonterminal → result ≤ q }
{
    let from = rows_from();
    let number = nonterminal_number(nonterminal);
    if number < from.len() && from[number] <= count() {
        from[number]
    } else {
        0
    }
}

/// The row after the last of the nonterminal, or the number of rows where the table does not say.
pub(crate) fn after_rows(nonterminal: Nonterminal) -> usize
    ensures below { result ≤ rule_count }
    ensures beyond { (q : ℕ) → q < rule_count → (rule q).nonterminal ≡ nonterminal → q < result }
{
    let from = rows_from();
    let number = nonterminal_number(nonterminal);
    if number < from.len() && number + 1 < from.len() && from[number + 1] <= count() {
        from[number + 1]
    } else {
        count()
    }
}

/// Whether the kind is one of these.
pub(crate) fn has(kinds: &[TokenKind], kind: TokenKind) -> bool
    ensures { result ≡ has kinds.now kind }
{
    for k in kinds {
        if same_kind(*k, kind) {
            return true;
        }
    }
    false
}

/// Whether the production is one of a statement.
pub(crate) fn is_statement(r: usize) -> bool
    requires { r < rule_count }
    ensures { result ≡ statement r }
{
    same_nonterminal(nonterminal_at(r), Nonterminal::Statement)
}

/// Whether the production is one of an expression, a NOT or a sign.
pub(crate) fn is_expression(r: usize) -> bool
    requires { r < rule_count }
    ensures { result ≡ expression r }
{
    if same_nonterminal(nonterminal_at(r), Nonterminal::Expression) {
        true
    } else {
        not_or_sign(r)
    }
}

fn not_or_sign(r: usize) -> bool
    ensures { result ≡ not_or_sign r }
{
    r == NEGATION_NOT as usize || r == SIGNED_PLUS_OR_MINUS as usize
}
