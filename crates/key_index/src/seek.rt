//! Searches through the nodes of a range.

ghost use Rattle.std.specs.Prelude.{◌≤◌, ℕ, IfSome, IfNone, MatchOption};
ghost use Rattle.key_index.specs.Places.{HasEntry};
ghost use Rattle.key_index.specs.Search.{BeginsWith};
ghost use Rattle.key_index.specs.Seeking.{ArePassed, IsFirst, IsLast, IsPassed};
ghost use Rattle.key_index.specs.Touched.{nodes_of};

use crate::index::Node;
use crate::prefix::begins_with;
use crate::touched::Keyed;
use std::collections::btree_map::Range;

/// The first key of the range that begins with the prefix and has an entry, and its least row.
pub(crate) fn first_entry<'a>(
    mut nodes: Range<'a, Vec<u8>, Keyed>,
    prefix: &[u8],
) -> Option<(&'a Vec<u8>, u32)>
    ensures { MatchOption result (ArePassed prefix.now (nodes_of nodes.entry)) (λ found. IsFirst prefix.now (nodes_of nodes.entry) found.0.now found.1) }
{
    while let Some((key, keyed)) = nodes.next() {
        if let Some(row) = least_with(key, &keyed.node, prefix) {
            return Some((key, row));
        }
    }
    None
}

/// The last key of the range that begins with the prefix and has an entry, and its greatest row.
pub(crate) fn last_entry<'a>(
    mut nodes: Range<'a, Vec<u8>, Keyed>,
    prefix: &[u8],
) -> Option<(&'a Vec<u8>, u32)>
    ensures { MatchOption result (ArePassed prefix.now (nodes_of nodes.entry)) (λ found. IsLast prefix.now (nodes_of nodes.entry) found.0.now found.1) }
{
    while let Some((key, keyed)) = nodes.next_back() {
        if let Some(row) = greatest_with(key, &keyed.node, prefix) {
            return Some((key, row));
        }
    }
    None
}

/// The least entry of a node whose key begins with the prefix.
fn least_with(key: &Vec<u8>, node: &Node, prefix: &[u8]) -> Option<u32>
    ensures begins { IfSome result (λ _. BeginsWith key.now.items prefix.now) }
    ensures entry { IfSome result (λ row. HasEntry node.now.rows row) }
    ensures least { IfSome result (λ row. (q : ℕ) → HasEntry node.now.rows q → row ≤ q) }
    ensures none { IfNone result (IsPassed prefix.now key.now.items node.now) }
{
    if !begins_with(key.as_slice(), prefix) {
        return None;
    }
    node.rows.least(None)
}

/// The greatest entry of a node whose key begins with the prefix.
fn greatest_with(key: &Vec<u8>, node: &Node, prefix: &[u8]) -> Option<u32>
    ensures begins { IfSome result (λ _. BeginsWith key.now.items prefix.now) }
    ensures entry { IfSome result (λ row. HasEntry node.now.rows row) }
    ensures greatest { IfSome result (λ row. (q : ℕ) → HasEntry node.now.rows q → q ≤ row) }
    ensures none { IfNone result (IsPassed prefix.now key.now.items node.now) }
{
    if !begins_with(key.as_slice(), prefix) {
        return None;
    }
    node.rows.greatest(None)
}
