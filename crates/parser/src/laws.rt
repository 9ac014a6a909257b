//! Laws of the grammar, about its definitions alone. Each is the contract of a function that does
//! nothing.

ghost use Rattle.std.specs.Prelude.{ℕ, ◌<◌, ◌≡◌, ◌⊎◌, ◌↔◌, ◌++◌, [], ◌∷◌, true, Some, slice_get, List};
ghost use Rattle.parse_tree.specs.declared.token.TokenKind.TheVariants.{EndOfSource};
ghost use Rattle.parse_tree.specs.declared.token.TokenKind.{TokenKind};
ghost use Rattle.parse_tree.specs.declared.tree.Node.{Node};
ghost use Rattle.parser.specs.Grammar.{Spells, Begins, rule, rule_count};
ghost use Rattle.parser.specs.Table.{has};
ghost use Rattle.parser.specs.Within.{IsWithin};

use crate::nonterminal::Nonterminal;
use parse_tree::TokenKind;

/// No list of tokens is spelled by two trees.
pub fn one_tree_spells()
    ensures { (one other : List Node) (tokens : List TokenKind) → Spells one tokens → Spells other tokens → one ≡ other }
{}

/// Nothing follows the end of the source: it is the last token of a list that a tree spells.
pub fn nothing_follows_the_end()
    ensures { (before after : List TokenKind) (tree : List Node) → Spells tree (before ++ EndOfSource ∷ after) → after ≡ [] }
{}

/// Each node of a tree has its end within the tree and after its number, begins at a token, and
/// uses a production of the table.
pub fn nodes_are_within()
    ensures { (tree : List Node) (tokens : List TokenKind) → Spells tree tokens → (number : ℕ) (node : Node) → slice_get tree number ≡ Some node → IsWithin number node tree tokens }
{}

/// The table says of each production exactly which tokens it can begin with.
pub fn starts_are_first_tokens()
    ensures { (r : ℕ) (kind : TokenKind) → r < rule_count → (has (rule r).starts kind ≡ true) ↔ Begins (rule r).symbols kind }
{}

/// Two productions of one nonterminal begin with no common token, but for the statements that begin with
/// a name.
pub fn one_token_decides()
    ensures { (q r : ℕ) (kind : TokenKind) → q < rule_count → r < rule_count → (rule q).nonterminal ≡ (rule r).nonterminal → Begins (rule q).symbols kind → Begins (rule r).symbols kind → (q ≡ r) ⊎ ((kind ≡ TokenKind.Name) × ((rule r).nonterminal ≡ Nonterminal.Statement)) }
{}
