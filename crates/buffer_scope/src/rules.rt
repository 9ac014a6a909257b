//! Rules S, for the references to one buffer.

ghost use Rattle.std.specs.Prelude.{◌≡◌, ◌&&◌, ◌||◌, ◌==◌, ◌++◌, ℕ, [], OnOk};
ghost use Rattle.std.specs.Ordering.{nat_cmp};
ghost use Rattle.std.specs.BTreeSet.{contains};
ghost use Rattle.std.specs.List.{list_any};
ghost use Rattle.abl_base.specs.declared.rule.Rule.TheVariants.{S4};
ghost use Rattle.buffer_scope.specs.First.{first_of};
ghost use Rattle.buffer_scope.specs.Blocks.{holding};
ghost use Rattle.buffer_scope.specs.Rules.{beyond, keyword, kind_breaks, lies_in, nestings_break, repeats, strong_breaks, weak_breaks, where_true};
ghost use Rattle.buffer_scope.specs.Scopes.{is_own, is_strong};
ghost use Rattle.buffer_scope.specs.Views.{all_of, found_of, own_of};

use crate::blocks::Block;
use crate::buffer::{BufferScopes, holding, takes_in};
use crate::own::{OwnBlocks, is_own, is_strong, is_strong_block, is_weak_block, mark};
use crate::violations::where_true;
use abl_base::{Place, Rule};
use bind_names::Violation;
use bound_tree::{Reference, ReferenceKind};
use std::alloc::{AllocError, Global};
use std::collections::BTreeSet;

/// Rules S1 to S4 for a buffer with these references and scopes.
#[tactic(auto, using(crate::proofs::Joined::first_of_append))]
pub fn buffer_breaks(
    alloc: Global,
    blocks: &[Block],
    scopes: &BufferScopes,
    references: &[Reference],
    first: &mut Option<Violation>,
) -> Result<(), AllocError>
    ensures { OnOk result (first.new ≡ first_of first.old (nestings_break (all_of blocks.now) (found_of scopes.now) references.now ++ repeats [] references.now)) }
{
    nestings_break(blocks, scopes, references, first);
    repeats(alloc, references, first)
}

/// Rules S1 to S3 for the references to one buffer.
fn nestings_break(
    blocks: &[Block],
    scopes: &BufferScopes,
    references: &[Reference],
    first: &mut Option<Violation>,
)
    ensures { first.new ≡ first_of first.old (nestings_break (all_of blocks.now) (found_of scopes.now) references.now) }
{
    for reference in references {
        kind_breaks(blocks, scopes, reference, first);
    }
}

/// Rules S1 to S3 for the block whose header has the reference.
fn kind_breaks(
    blocks: &[Block],
    scopes: &BufferScopes,
    reference: &Reference,
    first: &mut Option<Violation>,
)
    ensures { first.new ≡ first_of first.old (kind_breaks (all_of blocks.now) (found_of scopes.now) reference.now reference.now.kind) }
{
    match reference.kind {
        ReferenceKind::Strong => strong_breaks(blocks, scopes, reference, first),
        ReferenceKind::Weak => weak_breaks(blocks, scopes, reference, first),
        ReferenceKind::Free => {}
    }
}

/// A strong block in the free scope, or in a strong or weak block.
#[tactic(auto, using(crate::proofs::Joined::first_of_append))]
fn strong_breaks(
    blocks: &[Block],
    scopes: &BufferScopes,
    reference: &Reference,
    first: &mut Option<Violation>,
)
    ensures { first.new ≡ first_of first.old (strong_breaks (all_of blocks.now) (found_of scopes.now) reference.now) }
{
    let n = reference.block as usize;
    let place = keyword(blocks, reference);
    where_true(first, takes_in(blocks, scopes.free, n), Rule::S2, place);
    where_true(first, lies_in_own(blocks, &scopes.own, n), Rule::S3, place);
}

/// A weak block in a weak one, or in a strong one.
#[tactic(auto, using(crate::proofs::Joined::first_of_append))]
fn weak_breaks(
    blocks: &[Block],
    scopes: &BufferScopes,
    reference: &Reference,
    first: &mut Option<Violation>,
)
    ensures { first.new ≡ first_of first.old (weak_breaks (all_of blocks.now) (found_of scopes.now) reference.now) }
{
    let n = reference.block as usize;
    let place = keyword(blocks, reference);
    where_true(first, lies_in_weak(blocks, &scopes.own, n), Rule::S1, place);
    where_true(
        first,
        lies_in_strong(blocks, &scopes.own, n),
        Rule::S3,
        place,
    );
}

/// The first keyword of the block whose header has the reference.
fn keyword(blocks: &[Block], reference: &Reference) -> Place
    ensures { result ≡ keyword (all_of blocks.now) reference.now }
{
    let n = reference.block as usize;
    if n < blocks.len() {
        blocks[n].keyword
    } else {
        reference.place
    }
}

/// The blocks around a block, without itself.
fn beyond(blocks: &[Block], n: usize) -> &[usize]
    ensures { result.now ≡ beyond (holding (all_of blocks.now) n) }
{
    match holding(blocks, n).split_first() {
        None => &[],
        Some((_, outer)) => outer,
    }
}

/// Whether the block is inside a strong or weak one.
fn lies_in_own(blocks: &[Block], own: &OwnBlocks, n: usize) -> bool
    ensures { result ≡ lies_in (all_of blocks.now) (is_own (own_of own.now)) n }
{
    for m in beyond(blocks, n) {
        if is_own(own, *m) {
            return true;
        }
    }
    false
}

/// Whether the block is inside a strong one.
fn lies_in_strong(blocks: &[Block], own: &OwnBlocks, n: usize) -> bool
    ensures { result ≡ lies_in (all_of blocks.now) (own_of own.now).strong n }
{
    for m in beyond(blocks, n) {
        if is_strong_block(own, *m) {
            return true;
        }
    }
    false
}

/// Whether the block is inside a weak one.
fn lies_in_weak(blocks: &[Block], own: &OwnBlocks, n: usize) -> bool
    ensures { result ≡ lies_in (all_of blocks.now) (own_of own.now).weak n }
{
    for m in beyond(blocks, n) {
        if is_weak_block(own, *m) {
            return true;
        }
    }
    false
}

/// A buffer twice in one list.
fn repeats(
    alloc: Global,
    references: &[Reference],
    first: &mut Option<Violation>,
) -> Result<(), AllocError>
    ensures { OnOk result (first.new ≡ first_of first.old (repeats [] references.now)) }
{
    let mut seen = BTreeSet::new(alloc);
    for reference in references {
        see(&mut seen, reference, first)?;
    }
    Ok(())
}

/// Checks rule S4 for a reference, and adds its block to `seen` if it is strong. `seen` contains
/// the blocks whose headers have the strong references before it.
fn see(
    seen: &mut BTreeSet<usize>,
    reference: &Reference,
    first: &mut Option<Violation>,
) -> Result<(), AllocError>
    ensures first { OnOk result (first.new ≡ first_of first.old (where_true (is_strong reference.now.kind && contains nat_cmp seen.old reference.now.block) S4 reference.now.place)) }
    ensures seen { OnOk result ((q : ℕ) → contains nat_cmp seen.new q ≡ (is_strong reference.now.kind && (reference.now.block == q)) || contains nat_cmp seen.old q) }
{
    if is_strong(reference.kind) {
        let n = reference.block as usize;
        where_true(first, seen.contains(&n), Rule::S4, reference.place);
        mark(seen, n)?;
    }
    Ok(())
}
