//! The parser.

ghost use Rattle.std.specs.Prelude.{◌+◌, ◌++◌, ◌^◌, take, drop, ◌≤◌, length, IfOk, slice_index_or, Ok, Err, ℕ, ◌<◌, ◌≡◌, true, false, IsTrue, List};
ghost use Rattle.parse_tree.specs.Tokens.{ends_once};
ghost use Rattle.parse_tree.specs.declared.token.TokenKind.TheVariants.{Name};
ghost use Rattle.abl_base.specs.declared.rule.Rule.{Rule};
ghost use Rattle.parser.specs.Grammar.{Forest, Spells, IsTree, IsShallow, kinds, any_deep};
ghost use Rattle.parser.specs.Violations.{Breaks, IsFirst};
ghost use Rattle.parser.specs.Engine.{IsRead};

use crate::expand::expand;
use crate::nodes::nodes_of;
use crate::stack::Stack;
use crate::symbol::Opening;
use abl_base::Rule;
use parse_tree::{Token, TokenKind, Tokens, Tree};
use std::alloc::{AllocError, Global};

/// Why a list of tokens is no program.
#[derive(Debug, Drop)]
pub enum SyntaxRefusal {
    /// The rule that is broken, and the number of the token where, counted from 0. `G1`: no
    /// program begins with the tokens up to and with this one, but one does with those before it.
    /// `G2`: this token opens a statement inside 64 others, or an expression, a NOT or a sign
    /// inside 64 others of these three. The bound of 64 is this project's choice.
    Broken { rule: Rule, at: u32 },
    /// Memory ran out.
    NoMemory,
}

impl From<AllocError> for SyntaxRefusal {
    ghost use Rattle.parser.specs.declared.syntax.SyntaxRefusal.TheVariants.{NoMemory};

    ghost from_gives = { λ _ e. e ≡ NoMemory };

    fn from(_error: AllocError) -> Self {
        SyntaxRefusal::NoMemory
    }
}

fn kind_at(tokens: &[Token], at: usize) -> TokenKind
    requires { at < length tokens.now }
    ensures { result ≡ slice_index_or (kinds tokens.now) at Name }
{
    tokens[at].kind
}

fn kind_after(tokens: &[Token], at: usize) -> TokenKind
    requires { at < length tokens.now }
    ensures { at + 1 < length tokens.now → result ≡ slice_index_or (kinds tokens.now) (at + 1) Name }
{
    if at + 1 < tokens.len() {
        kind_at(tokens, at + 1)
    } else {
        TokenKind::EndOfSource
    }
}

fn rest_from(openings: &[Opening], from: usize) -> &[Opening]
    requires { from ≤ length openings.now }
    ensures { result.now ≡ drop from openings.now }
{
    &openings[from..]
}

fn finds_deep(openings: &[Opening]) -> bool
    ensures { result ≡ any_deep openings.now }
{
    for opening in openings {
        if opening.deep {
            return true;
        }
    }
    false
}

fn refusal(rule: Rule, at: u32) -> SyntaxRefusal
    ensures { result ≡ SyntaxRefusal.Broken rule at }
{
    SyntaxRefusal::Broken { rule, at }
}

// The openings of the source's tree.
fn read(alloc: Global, tokens: &[Token]) -> Result<Vec<Opening>, SyntaxRefusal>
    requires { IsTrue (ends_once tokens.now) }
    ensures spelled { IfOk result (λ used. (forest : Forest) × IsRead forest used.items (kinds tokens.now)) }
    ensures shallow { IfOk result (λ used. any_deep used.items ≡ false) }
    ensures clean { IfOk result (λ _. (broken : Rule) (place : ℕ) → Breaks (kinds tokens.now) broken place → ⊥) }
    ensures refused { (broken : Rule) (place : ℕ) → result ≡ Err (SyntaxRefusal.Broken broken place) → IsFirst (kinds tokens.now) broken place }
{
    let mut stack = Stack::whole(alloc)?;
    let mut used = Vec::new(alloc);
    for at in 0..tokens.len() {
        if at > u32::MAX as usize {
            return Err(SyntaxRefusal::NoMemory);
        }
        let before = used.as_slice().len();
        let kind = kind_at(tokens, at);
        let next = kind_after(tokens, at);
        if !expand(&mut stack, &mut used, at as u32, kind, next)? {
            return Err(refusal(Rule::G1, at as u32));
        }
        if !stack.take(kind) {
            return Err(refusal(Rule::G1, at as u32));
        }
        if finds_deep(rest_from(used.as_slice(), before)) {
            return Err(refusal(Rule::G2, at as u32));
        }
    }
    Ok(used)
}

/// The syntax tree of the tokens, in time linear in them and with no recursion.
///
/// `G1` and `G2` come exactly where the tokens break them; the first of them in the order of the
/// tokens is returned. `NoMemory` may be returned in place of either.
pub fn parse(alloc: Global, tokens: &Tokens) -> Result<Tree, SyntaxRefusal>
    ensures spelled { IfOk result (λ tree. Spells tree (kinds tokens.now)) }
    ensures shallow { IfOk result (λ tree. (forest : Forest) → IsTree forest tree (kinds tokens.now) → IsShallow forest) }
    ensures clean { IfOk result (λ _. (broken : Rule) (place : ℕ) → Breaks (kinds tokens.now) broken place → ⊥) }
    ensures refused { (broken : Rule) (place : ℕ) → result ≡ Err (SyntaxRefusal.Broken broken place) → IsFirst (kinds tokens.now) broken place }
{
    let used = match read(alloc, tokens.as_slice()) {
        Ok(used) => used,
        Err(refused) => return Err(refused),
    };
    if used.len() > u32::MAX as usize {
        return Err(SyntaxRefusal::NoMemory);
    }
    Ok(Tree::from_vec(nodes_of(alloc, used.as_slice())?))
}
