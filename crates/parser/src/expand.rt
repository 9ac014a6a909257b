//! The reader's steps before it takes a token.

ghost use Rattle.std.specs.Prelude.{◌++◌, IfOk, Ok, ℕ, ◌<◌, ◌≡◌, true, false, List, [], ◌∷◌};
ghost use Rattle.parse_tree.specs.declared.token.TokenKind.TheVariants.{Name, EndOfSource};
ghost use Rattle.parser.specs.declared.symbol.Entry.{Entry};
ghost use Rattle.parser.specs.declared.symbol.Entry.TheVariants.{Await, Derive};
ghost use Rattle.parser.specs.declared.nonterminal.Nonterminal.TheVariants.{Statement};
ghost use Rattle.parser.specs.Grammar.{rule_count, rules, opening};
ghost use Rattle.parser.specs.Table.{ends_once, front};
ghost use Rattle.parser.specs.Completing.{suits};
ghost use Rattle.parser.specs.Engine.{body, plain, Stuck, Leads, Named, Went, IsTaking};

use crate::choice::{choose, needs_two};
use crate::nonterminal::Nonterminal;
use crate::opening::{inside, opening};
use crate::stack::Stack;
use crate::symbol::{Entry, Opening, Room};
use crate::table::{same_kind, symbols_at};
use parse_tree::TokenKind;
use parse_tree::production::{
    ASSIGNMENT_TARGET, STATEMENT_ASSIGNMENT, STATEMENT_NAME, TARGET_NAME,
};
use std::alloc::AllocError;

// Replaces the topmost nonterminal by this production.
fn open_row(
    stack: &mut Stack,
    used: &mut Vec<Opening>,
    nonterminal: Nonterminal,
    room: Room,
    at: u32,
    r: usize,
) -> Result<(), AllocError>
    requires top { (rest : List Entry) × (stack.old ≡ Derive nonterminal room ∷ rest) }
    requires row { r < rule_count }
    ensures stack { IfOk result (λ _. (rest : List Entry) → stack.old ≡ Derive nonterminal room ∷ rest → stack.new ≡ body r room ++ rest) }
    ensures used { IfOk result (λ _. used.new.items ≡ used.old.items ++ opening r at room ∷ []) }
{
    stack.pop();
    stack.push_all(symbols_at(r), inside(r, room))?;
    used.push(opening(r, at, room))?;
    Ok(())
}

// Replaces the topmost nonterminal by its production, where the next token allows one.
fn open_top(
    stack: &mut Stack,
    used: &mut Vec<Opening>,
    nonterminal: Nonterminal,
    room: Room,
    at: u32,
    kind: TokenKind,
) -> Result<bool, AllocError>
    requires top { (rest : List Entry) × (stack.old ≡ Derive nonterminal room ∷ rest) }
    requires plain { kind ≡ TokenKind.Name → nonterminal ≡ Nonterminal.Statement → ⊥ }
    ensures leads { IfOk result (λ _. Leads at stack.old used.old.items stack.new used.new.items kind) }
    ensures nearer { result ≡ Ok true → front rules (plain stack.new) < front rules (plain stack.old) }
    ensures ends { IfOk result (λ _. ends_once (plain stack.old) ≡ true → ends_once (plain stack.new) ≡ true) }
    ensures suits { IfOk result (λ _. suits rules (plain stack.old) EndOfSource ≡ true → suits rules (plain stack.new) EndOfSource ≡ true) }
    ensures stuck { result ≡ Ok false → Stuck at stack.new kind }
{
    match choose(nonterminal, kind) {
        Some(r) => {
            open_row(stack, used, nonterminal, room, at, r)?;
            Ok(true)
        }
        None => Ok(false),
    }
}

// A statement that begins with a name: a label before a colon, else an assignment.
fn open_name(
    stack: &mut Stack,
    used: &mut Vec<Opening>,
    room: Room,
    at: u32,
    next: TokenKind,
) -> Result<(), AllocError>
    requires { (rest : List Entry) × (stack.old ≡ Derive Nonterminal.Statement room ∷ rest) }
    ensures named { IfOk result (λ _. (rest : List Entry) → stack.old ≡ Derive Nonterminal.Statement room ∷ rest → Named at room rest used.old.items stack.new used.new.items next) }
    ensures ends { IfOk result (λ _. ends_once (plain stack.old) ≡ true → ends_once (plain stack.new) ≡ true) }
    ensures suits { IfOk result (λ _. suits rules (plain stack.old) EndOfSource ≡ true → suits rules (plain stack.new) EndOfSource ≡ true) }
{
    if same_kind(next, TokenKind::Colon) {
        open_row(
            stack,
            used,
            Nonterminal::Statement,
            room,
            at,
            STATEMENT_NAME as usize,
        )?;
        return Ok(());
    }
    let within = inside(STATEMENT_ASSIGNMENT as usize, room);
    let target = inside(ASSIGNMENT_TARGET as usize, within);
    open_row(
        stack,
        used,
        Nonterminal::Statement,
        room,
        at,
        STATEMENT_ASSIGNMENT as usize,
    )?;
    open_row(
        stack,
        used,
        Nonterminal::Assignment,
        within,
        at,
        ASSIGNMENT_TARGET as usize,
    )?;
    open_row(
        stack,
        used,
        Nonterminal::Target,
        target,
        at,
        TARGET_NAME as usize,
    )?;
    Ok(())
}

/// Expands until no nonterminal is on top. Returns false where no production allows the next token.
pub(crate) fn expand(
    stack: &mut Stack,
    used: &mut Vec<Opening>,
    at: u32,
    kind: TokenKind,
    next: TokenKind,
) -> Result<bool, AllocError>
    ensures went { IfOk result (λ _. Went at stack.old used.old.items stack.new used.new.items kind next) }
    ensures ends { IfOk result (λ _. ends_once (plain stack.old) ≡ true → ends_once (plain stack.new) ≡ true) }
    ensures suits { IfOk result (λ _. suits rules (plain stack.old) EndOfSource ≡ true → suits rules (plain stack.new) EndOfSource ≡ true) }
    ensures taking { result ≡ Ok true → IsTaking stack.new }
    ensures stuck { result ≡ Ok false → Leads at stack.old used.old.items stack.new used.new.items kind × Stuck at stack.new kind }
{
    while let Some(Entry::Derive(nonterminal, room)) = stack.top() {
        if needs_two(nonterminal, kind) {
            open_name(stack, used, room, at, next)?;
            return Ok(true);
        }
        if !open_top(stack, used, nonterminal, room, at, kind)? {
            return Ok(false);
        }
    }
    Ok(true)
}
