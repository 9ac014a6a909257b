//! A stack of what is still to come, which contracts see as a list from its top.

ghost use Rattle.std.specs.Prelude.{ℕ, ◌<◌, ◌≡◌, List, [], ◌∷◌, ◌++◌, length, Bool, true, false, IfOk, MatchOption, reverse};
ghost use Rattle.parser.specs.declared.symbol.Entry.{Entry};
ghost use Rattle.parser.specs.declared.symbol.Entry.TheVariants.{Await};
ghost use Rattle.parser.specs.Engine.{entry, entries, source};

use crate::nonterminal::Nonterminal;
use crate::symbol::{Entry, Room, Symbol};
use crate::table::same_kind;
use parse_tree::TokenKind;
use std::alloc::{AllocError, Global};
use std::marker::Model;

/// What is still to come. The top comes next.
#[derive(Drop)]
pub(crate) struct Stack {
    // The top is last.
    entries: Vec<Entry>,
}

impl Model for Stack {
    ghost use Rattle.std.specs.Prelude.{List, reverse};
    ghost use Rattle.parser.specs.declared.symbol.Entry.{Entry};

    ghost Value = { List Entry };

    ghost view = { λ s. reverse s.entries.items };
}

impl Stack {
    /// A program, and after it the end of the source.
    pub(crate) fn whole(alloc: Global) -> Result<Stack, AllocError>
        ensures { IfOk result (λ s. s ≡ source) }
    {
        let room = Room {
            statements: 64,
            expressions: 64,
        };
        let mut entries = Vec::new(alloc);
        entries.push(Entry::Await(TokenKind::EndOfSource))?;
        entries.push(Entry::Derive(Nonterminal::Program, room))?;
        Ok(Stack { entries })
    }

    /// What comes next.
    pub(crate) fn top(&self) -> Option<Entry>
        ensures { MatchOption result (self.now ≡ []) (λ s. (rest : List Entry) × (self.now ≡ s ∷ rest)) }
    {
        self.entries.last().copied()
    }

    /// Takes the top away.
    pub(crate) fn pop(&mut self)
        ensures { (s : Entry) (rest : List Entry) → self.old ≡ s ∷ rest → self.new ≡ rest }
    {
        let _top = self.entries.pop();
    }

    /// Takes a token off the top, where this one is there.
    pub(crate) fn take(&mut self, kind: TokenKind) -> bool
        ensures taken { result ≡ true → self.old ≡ Await kind ∷ self.new }
        ensures other { result ≡ false → (rest : List Entry) → self.old ≡ Await kind ∷ rest → ⊥ }
    {
        match self.top() {
            Some(Entry::Await(k)) => {
                if same_kind(k, kind) {
                    self.pop();
                    true
                } else {
                    false
                }
            }
            _ => false,
        }
    }

    /// Puts symbols on top with this room, so that the first is on top.
    pub(crate) fn push_all(&mut self, symbols: &[Symbol], room: Room) -> Result<(), AllocError>
        ensures { IfOk result (λ _. self.new ≡ entries room symbols.now ++ self.old) }
    {
        push_reversed(&mut self.entries, symbols, room)
    }
}

fn entry_of(symbol: Symbol, room: Room) -> Entry
    ensures { result ≡ entry room symbol }
{
    match symbol {
        Symbol::Take(kind) => Entry::Await(kind),
        Symbol::Open(nonterminal) => Entry::Derive(nonterminal, room),
    }
}

fn push_reversed(list: &mut Vec<Entry>, symbols: &[Symbol], room: Room) -> Result<(), AllocError>
    ensures { IfOk result (λ _. list.new.items ≡ list.old.items ++ reverse (entries room symbols.now)) }
{
    for i in 0..symbols.len() {
        list.push(entry_of(symbols[symbols.len() - 1 - i], room))?;
    }
    Ok(())
}
