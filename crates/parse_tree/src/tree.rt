//! The syntax tree of a source.

ghost use Rattle.std.specs.Prelude.{◌≡◌, ◌<◌, length};

use std::marker::Model;

/// A node of a syntax tree: a production that the source uses.
#[derive(Clone, Copy, Debug, PartialEq, Eq)]
pub struct Node {
    /// The number of the production, one of `production`.
    pub production: u16,
    /// The number of the first token inside, counted from 0. Of an empty node: the number of the
    /// token that follows it.
    pub first: u32,
    /// One more than the number of the last node inside, so that the nodes inside are those after
    /// this one and before `end`, and the next node beside this one is `end` itself.
    pub end: u32,
}

/// The syntax tree of a source: its nodes, each before those inside it, and those from left to
/// right. The node 0 is the whole program. A node is known by its number.
///
/// The children of a node are one for each nonterminal of its production, in that order. The
/// first has the next number, and each other begins where the one before ends.
#[derive(Drop)]
pub struct Tree {
    nodes: Vec<Node>,
}

impl Model for Tree {
    ghost use Rattle.std.specs.Prelude.{List};
    ghost use Rattle.parse_tree.specs.declared.tree.Node.{Node};

    ghost Value = { List Node };

    ghost view = { λ tree. tree.nodes.items };
}

impl Tree {
    /// The tree with these nodes.
    pub fn from_vec(nodes: Vec<Node>) -> Tree
        ensures { result ≡ nodes.items }
    {
        Tree { nodes }
    }

    /// The nodes, each before those inside it.
    pub fn as_slice(&self) -> &[Node]
        ensures { result.now ≡ self.now }
    {
        self.nodes.as_slice()
    }

    /// How many nodes there are.
    pub fn len(&self) -> usize
        ensures { result ≡ length self.now }
    {
        self.nodes.len()
    }
}
