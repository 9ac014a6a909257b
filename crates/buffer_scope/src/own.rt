//! The strong and the weak blocks of a buffer.

ghost use Rattle.std.specs.Prelude.{◌≡◌, ◌&&◌, ◌||◌, ◌==◌, ℕ, IfOk, OnOk};
ghost use Rattle.std.specs.Ordering.{nat_cmp};
ghost use Rattle.std.specs.BTreeSet.{contains};
ghost use Rattle.buffer_scope.specs.Scopes.{is_own, is_strong, is_weak, own_blocks};
ghost use Rattle.buffer_scope.specs.Views.{own_of};

use bound_tree::{Reference, ReferenceKind};
use std::alloc::{AllocError, Global};
use std::collections::BTreeSet;

/// The strong and the weak blocks of a buffer, by their numbers.
#[derive(Drop)]
pub struct OwnBlocks {
    pub strong: BTreeSet<usize>,
    pub weak: BTreeSet<usize>,
}

/// The strong and the weak blocks of a buffer with these references.
pub fn own_blocks(alloc: Global, references: &[Reference]) -> Result<OwnBlocks, AllocError>
    ensures { IfOk result (λ r. own_of r ≡ own_blocks references.now) }
{
    let mut strong = BTreeSet::new(alloc);
    let mut weak = BTreeSet::new(alloc);
    for reference in references {
        if is_strong(reference.kind) {
            mark(&mut strong, reference.block as usize)?;
        }
        if is_weak(reference.kind) {
            mark(&mut weak, reference.block as usize)?;
        }
    }
    Ok(OwnBlocks { strong, weak })
}

/// Adds a number to a set.
pub fn mark(set: &mut BTreeSet<usize>, n: usize) -> Result<(), AllocError>
    ensures { OnOk result ((q : ℕ) → contains nat_cmp set.new q ≡ (n == q) || contains nat_cmp set.old q) }
{
    set.insert(n)?;
    Ok(())
}

/// Whether it is a reference in the list of a DO FOR or REPEAT FOR.
pub fn is_strong(kind: ReferenceKind) -> bool
    ensures { result ≡ is_strong kind }
{
    matches!(kind, ReferenceKind::Strong)
}

/// Whether it is a reference in the header of a FOR.
pub fn is_weak(kind: ReferenceKind) -> bool
    ensures { result ≡ is_weak kind }
{
    matches!(kind, ReferenceKind::Weak)
}

/// Whether the block is strong.
pub fn is_strong_block(own: &OwnBlocks, n: usize) -> bool
    ensures { result ≡ (own_of own.now).strong n }
{
    own.strong.contains(&n)
}

/// Whether the block is weak.
pub fn is_weak_block(own: &OwnBlocks, n: usize) -> bool
    ensures { result ≡ (own_of own.now).weak n }
{
    own.weak.contains(&n)
}

/// Whether the block is strong or weak.
pub fn is_own(own: &OwnBlocks, n: usize) -> bool
    ensures { result ≡ is_own (own_of own.now) n }
{
    is_strong_block(own, n) || is_weak_block(own, n)
}
