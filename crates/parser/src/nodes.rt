//! The nodes of a tree, from its openings.

ghost use Rattle.std.specs.Prelude.{ℕ, ◌<◌, ◌≡◌, ◌+◌, ◌^◌, List, ◌∷◌, drop, length, slice_index, IfOk};
ghost use Rattle.parser.specs.Closing.{end_after, is_nonterminal, laid, opens_in, children_of};

use crate::symbol::{Opening, Symbol};
use crate::table::{count, symbols_at};
use parse_tree::Node;
use std::alloc::{AllocError, Global};
use std::marker::Model;

// The ends of the nodes that begin after a place, the nearest first.
#[derive(Drop)]
struct Ends {
    // The nearest is last.
    ends: Vec<u32>,
}

impl Model for Ends {
    ghost use Rattle.std.specs.Prelude.{List, ℕ, reverse};

    ghost Value = { List ℕ };

    ghost view = { λ s. reverse s.ends.items };
}

impl Ends {
    fn at(&self, number: usize) -> u32
        ensures { result ≡ slice_index self.now number }
    {
        let long = self.ends.len();
        if number < long {
            self.ends[long - 1 - number]
        } else {
            0
        }
    }

    // In place of the first few this one.
    fn close(&mut self, nonterminals: usize, end: u32) -> Result<(), AllocError>
        ensures { IfOk result (λ _. self.new ≡ end ∷ drop nonterminals self.old) }
    {
        let keep = self.ends.as_slice().len().saturating_sub(nonterminals);
        self.ends.truncate(keep);
        self.ends.push(end)?;
        Ok(())
    }
}

fn is_nonterminal(symbol: Symbol) -> bool
    ensures { result ≡ is_nonterminal symbol }
{
    matches!(symbol, Symbol::Open(_))
}

fn opens_in(symbols: &[Symbol]) -> usize
    ensures { result ≡ opens_in symbols.now }
{
    let mut nonterminals: usize = 0;
    for symbol in symbols {
        if is_nonterminal(*symbol) {
            nonterminals += 1;
        }
    }
    nonterminals
}

fn children_of(r: usize) -> usize
    ensures { result ≡ children_of r }
{
    if r < count() {
        opens_in(symbols_at(r))
    } else {
        0
    }
}

fn end_after(ends: &Ends, number: u32, nonterminals: usize) -> u32
    requires { number + 1 < 2 ^ 32 }
    ensures { result ≡ end_after number nonterminals ends.now }
{
    if nonterminals == 0 {
        number + 1
    } else {
        ends.at(nonterminals - 1)
    }
}

/// The nodes with these openings. It fails only out of memory.
pub(crate) fn nodes_of(alloc: Global, openings: &[Opening]) -> Result<Vec<Node>, AllocError>
    requires { length openings.now < 2 ^ 32 }
    ensures { IfOk result (λ nodes. nodes.items ≡ laid openings.now) }
{
    let mut nodes = Vec::with_capacity(alloc, openings.len())?;
    let mut ends = Ends {
        ends: Vec::new(alloc),
    };
    for k in 0..openings.len() {
        let number = openings.len() - 1 - k;
        let opening = openings[number];
        let nonterminals = children_of(opening.production as usize);
        let end = end_after(&ends, number as u32, nonterminals);
        ends.close(nonterminals, end)?;
        nodes.push(Node {
            production: opening.production,
            first: opening.first,
            end,
        })?;
    }
    nodes.reverse();
    Ok(nodes)
}
