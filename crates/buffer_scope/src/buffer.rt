//! The scopes of one buffer.

ghost use Rattle.std.specs.Prelude.{◌≡◌, IfOk};
ghost use Rattle.std.specs.List.{find, list_any};
ghost use Rattle.std.specs.Prelude.{slice_get};
ghost use Rattle.buffer_scope.specs.Blocks.{holding, may_scope_of};
ghost use Rattle.buffer_scope.specs.Scopes.{free_scope, holds_all, innermost, is_free, is_in, is_outside, is_own, is_scope, is_the, outside, references_to, scopes_of, takes_all, takes_in};
ghost use Rattle.buffer_scope.specs.Views.{all_of, found_of, own_of};

use crate::blocks::Block;
use crate::own::{OwnBlocks, is_own, is_strong_block, is_weak_block, own_blocks};
use bound_tree::{Reference, ReferenceKind};
use std::alloc::{AllocError, Global};

/// What the scopes of a buffer are found from.
#[derive(Drop)]
pub struct BufferScopes {
    pub own: OwnBlocks,
    /// The free scope, where there is one.
    pub free: Option<usize>,
}

/// The scopes of a buffer with these references.
pub fn scopes_of(
    alloc: Global,
    blocks: &[Block],
    references: &[Reference],
) -> Result<BufferScopes, AllocError>
    ensures { IfOk result (λ r. found_of r ≡ scopes_of (all_of blocks.now) references.now) }
{
    let own = own_blocks(alloc, references)?;
    let free = free_scope(alloc, blocks, &own, references)?;
    Ok(BufferScopes { own, free })
}

/// Whether the block is a scope of the buffer.
pub fn is_scope(blocks: &[Block], scopes: &BufferScopes, n: usize) -> bool
    ensures { result ≡ is_scope (all_of blocks.now) (found_of scopes.now) n }
{
    is_strong_block(&scopes.own, n)
        || (is_weak_block(&scopes.own, n) && !takes_in(blocks, scopes.free, n))
        || is_the(scopes.free, n)
}

/// Whether it is this block.
fn is_the(block: Option<usize>, n: usize) -> bool
    ensures { result ≡ is_the block n }
{
    match block {
        None => false,
        Some(m) => m == n,
    }
}

/// The references to a buffer, among those of its procedure.
pub fn references_to(
    alloc: Global,
    buffer: usize,
    references: &[Reference],
) -> Result<Vec<Reference>, AllocError>
    ensures { IfOk result (λ r. r.items ≡ references_to buffer references.now) }
{
    let mut found = Vec::new(alloc);
    for reference in references {
        if reference.buffer as usize == buffer {
            found.push(*reference)?;
        }
    }
    Ok(found)
}

/// The free scope, if there is one.
fn free_scope(
    alloc: Global,
    blocks: &[Block],
    own: &OwnBlocks,
    references: &[Reference],
) -> Result<Option<usize>, AllocError>
    ensures { IfOk result (λ r. r ≡ free_scope (all_of blocks.now) (own_of own.now) references.now) }
{
    let outside = outside(alloc, blocks, own, references)?;
    Ok(innermost(blocks, &outside))
}

/// The free references that no strong or weak block holds.
fn outside(
    alloc: Global,
    blocks: &[Block],
    own: &OwnBlocks,
    references: &[Reference],
) -> Result<Vec<Reference>, AllocError>
    ensures { IfOk result (λ r. r.items ≡ outside (all_of blocks.now) (own_of own.now) references.now) }
{
    let mut found = Vec::new(alloc);
    for reference in references {
        if is_outside(blocks, own, reference) {
            found.push(*reference)?;
        }
    }
    Ok(found)
}

/// Whether it is a free reference that no strong or weak block holds.
fn is_outside(blocks: &[Block], own: &OwnBlocks, reference: &Reference) -> bool
    ensures { result ≡ is_outside (all_of blocks.now) (own_of own.now) reference.now }
{
    is_free(reference.kind) && !one_is_own(own, holding(blocks, reference.block as usize))
}

/// Whether it is neither strong nor weak.
fn is_free(kind: ReferenceKind) -> bool
    ensures { result ≡ is_free kind }
{
    matches!(kind, ReferenceKind::Free)
}

/// Whether one of these blocks is strong or weak.
fn one_is_own(own: &OwnBlocks, around: &[usize]) -> bool
    ensures { result ≡ list_any (is_own (own_of own.now)) around.now }
{
    for n in around {
        if is_own(own, *n) {
            return true;
        }
    }
    false
}

/// The innermost block that may be a free scope and holds all of these.
fn innermost(blocks: &[Block], references: &[Reference]) -> Option<usize>
    ensures { result ≡ innermost (all_of blocks.now) references.now }
{
    match references.split_first() {
        None => None,
        Some((first, others)) => {
            first_to_take(blocks, others, holding(blocks, first.block as usize))
        }
    }
}

/// The first of the blocks `around` that may be a free scope and holds all of these.
fn first_to_take(blocks: &[Block], references: &[Reference], around: &[usize]) -> Option<usize>
    ensures { result ≡ find (takes_all (all_of blocks.now) references.now) around.now }
{
    for n in around {
        if takes_all(blocks, references, *n) {
            return Some(*n);
        }
    }
    None
}

/// Whether the block may be a free scope and holds all of these.
fn takes_all(blocks: &[Block], references: &[Reference], n: usize) -> bool
    ensures { result ≡ takes_all (all_of blocks.now) references.now n }
{
    may_scope(blocks, n) && holds_all(blocks, references, n)
}

/// Whether the block may be a free scope.
fn may_scope(blocks: &[Block], n: usize) -> bool
    ensures { result ≡ may_scope_of (slice_get (all_of blocks.now) n) }
{
    if n < blocks.len() {
        blocks[n].may_scope
    } else {
        false
    }
}

/// Whether the block holds all of these.
fn holds_all(blocks: &[Block], references: &[Reference], n: usize) -> bool
    ensures { result ≡ holds_all (all_of blocks.now) references.now n }
{
    for reference in references {
        if !is_in(n, holding(blocks, reference.block as usize)) {
            return false;
        }
    }
    true
}

/// Whether the block is in the free scope.
pub fn takes_in(blocks: &[Block], free: Option<usize>, n: usize) -> bool
    ensures { result ≡ takes_in (all_of blocks.now) free n }
{
    match free {
        None => false,
        Some(scope) => is_in(scope, holding(blocks, n)),
    }
}

/// The blocks that hold what is in the block of this number.
pub fn holding(blocks: &[Block], n: usize) -> &[usize]
    ensures { result.now ≡ holding (all_of blocks.now) n }
{
    if n < blocks.len() {
        &blocks[n].around
    } else {
        &[]
    }
}

/// Whether the number is one of these.
fn is_in(n: usize, around: &[usize]) -> bool
    ensures { result ≡ is_in n around.now }
{
    for m in around {
        if *m == n {
            return true;
        }
    }
    false
}
