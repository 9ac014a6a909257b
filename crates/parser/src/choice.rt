//! The one production with which a derivation can continue.

ghost use Rattle.std.specs.Prelude.{ℕ, ◌<◌, ◌≡◌, true, false, List, ◌∷◌, IfSome, IfNone};
ghost use Rattle.parse_tree.specs.declared.token.TokenKind.{TokenKind};
ghost use Rattle.parser.specs.declared.symbol.Room.{Room};
ghost use Rattle.parser.specs.declared.symbol.Entry.{Entry};
ghost use Rattle.parser.specs.declared.symbol.Entry.TheVariants.{Derive};
ghost use Rattle.parser.specs.Grammar.{rule, rule_count};
ghost use Rattle.parser.specs.Table.{starts_with, vanishes_as};
ghost use Rattle.parser.specs.Engine.{OnlyRule, Stuck};

use crate::nonterminal::Nonterminal;
use crate::table::{
    after_rows, first_row, has, may_be_empty, nonterminal_at, same_kind, same_nonterminal,
    starts_at,
};
use parse_tree::TokenKind;

// The production of the nonterminal that begins with this token.
fn starting(nonterminal: Nonterminal, kind: TokenKind) -> Option<usize>
    ensures some { IfSome result (λ r. (r < rule_count) × (starts_with nonterminal kind (rule r) ≡ true)) }
    ensures none { IfNone result ((q : ℕ) → q < rule_count → starts_with nonterminal kind (rule q) ≡ false) }
{
    for r in first_row(nonterminal)..after_rows(nonterminal) {
        if same_nonterminal(nonterminal_at(r), nonterminal) && has(starts_at(r), kind) {
            return Some(r);
        }
    }
    None
}

// The production of the nonterminal that can be empty.
fn vanishing(nonterminal: Nonterminal) -> Option<usize>
    ensures some { IfSome result (λ r. (r < rule_count) × (vanishes_as nonterminal (rule r) ≡ true)) }
    ensures none { IfNone result ((q : ℕ) → q < rule_count → vanishes_as nonterminal (rule q) ≡ false) }
{
    for r in first_row(nonterminal)..after_rows(nonterminal) {
        if same_nonterminal(nonterminal_at(r), nonterminal) && may_be_empty(r) {
            return Some(r);
        }
    }
    None
}

/// The one production of the nonterminal that a derivation can use where the next token is this one.
pub(crate) fn choose(nonterminal: Nonterminal, kind: TokenKind) -> Option<usize>
    requires { kind ≡ TokenKind.Name → nonterminal ≡ Nonterminal.Statement → ⊥ }
    ensures some { IfSome result (λ r. OnlyRule nonterminal kind r) }
    ensures none { IfNone result ((at : ℕ) (room : Room) (stack : List Entry) → Stuck at (Derive nonterminal room ∷ stack) kind) }
{
    match starting(nonterminal, kind) {
        Some(r) => Some(r),
        None => vanishing(nonterminal),
    }
}

/// Whether the choice needs a second token: for a statement that begins with a name.
pub(crate) fn needs_two(nonterminal: Nonterminal, kind: TokenKind) -> bool
    ensures yes { result ≡ true → (nonterminal ≡ Nonterminal.Statement) × (kind ≡ TokenKind.Name) }
    ensures no { result ≡ false → kind ≡ TokenKind.Name → nonterminal ≡ Nonterminal.Statement → ⊥ }
{
    same_nonterminal(nonterminal, Nonterminal::Statement) && same_kind(kind, TokenKind::Name)
}
