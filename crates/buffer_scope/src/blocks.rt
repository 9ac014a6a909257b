//! The blocks of a source in text order, by its syntax.

ghost use Rattle.std.specs.Prelude.{◌≡◌, ◌∷◌, IfOk, OnOk, length, map};
ghost use Rattle.abl_base.specs.declared.place.Place.{Place as ThePlace};
ghost use Rattle.syntax_tree.specs.Typed.{item_of, opening_of, program_of, statement_of, statements_of};
ghost use Rattle.buffer_scope.specs.Blocks.{blocks_of, may_scope, one_more, through, through_all, through_item, through_items};
ghost use Rattle.buffer_scope.specs.Views.{all_of};

use abl_base::Place;
use std::alloc::{AllocError, Global};
use syntax_tree::{BlockWord, Item, Opening, Program, Statement};

/// A block of a source.
#[derive(Drop)]
pub struct Block {
    /// The place of its first keyword.
    pub keyword: Place,
    /// The free scope of a buffer may be it: FOR, REPEAT, DO FOR, REPEAT FOR or procedure.
    pub may_scope: bool,
    /// The numbers of the blocks that hold what is in it: itself the first, its procedure's the last.
    pub around: Vec<usize>,
}

/// The blocks of a source in text order. Out of memory is the only refusal.
pub fn blocks_of(alloc: Global, program: &Program) -> Result<Vec<Block>, AllocError>
    ensures { IfOk result (λ r. all_of r.items ≡ blocks_of (program_of program.now)) }
{
    let mut blocks = Vec::new(alloc);
    let start = Place { line: 1, column: 1 };
    open(alloc, &mut blocks, start, true, &[])?;
    through_items(alloc, &mut blocks, &program.items)?;
    Ok(blocks)
}

/// The procedures and statements of a source, in text order.
fn through_items(alloc: Global, blocks: &mut Vec<Block>, items: &[Item]) -> Result<(), AllocError>
    ensures { OnOk result (all_of blocks.new.items ≡ through_items (all_of blocks.old.items) (map item_of items.now)) }
{
    for item in items {
        through_item(alloc, blocks, item)?;
    }
    Ok(())
}

/// A procedure, or a statement of the external one.
fn through_item(alloc: Global, blocks: &mut Vec<Block>, item: &Item) -> Result<(), AllocError>
    ensures { OnOk result (all_of blocks.new.items ≡ through_item (all_of blocks.old.items) (item_of item.now)) }
{
    match item {
        Item::Procedure { at, body, .. } => {
            let around = open(alloc, blocks, *at, true, &[])?;
            through_all(alloc, blocks, &around, body)
        }
        Item::Alone(alone) => through(alloc, blocks, &[0], alone),
    }
}

/// Adds the next block, which is in the blocks `outer`, and returns the numbers of those that hold
/// what is in it.
fn open(
    alloc: Global,
    blocks: &mut Vec<Block>,
    keyword: Place,
    may_scope: bool,
    outer: &[usize],
) -> Result<Vec<usize>, AllocError>
    ensures block { OnOk result (all_of blocks.new.items ≡ one_more (all_of blocks.old.items) keyword may_scope outer.now) }
    ensures around { IfOk result (λ r. r.items ≡ length (all_of blocks.old.items) ∷ outer.now) }
{
    let number = blocks.len();
    let held = inside(alloc, number, outer)?;
    let around = inside(alloc, number, outer)?;
    blocks.push(Block {
        keyword,
        may_scope,
        around,
    })?;
    Ok(held)
}

/// The numbers of the blocks that hold what is in the block of this number, which is in the blocks
/// `outer`.
fn inside(alloc: Global, number: usize, outer: &[usize]) -> Result<Vec<usize>, AllocError>
    ensures { IfOk result (λ r. r.items ≡ number ∷ outer.now) }
{
    let mut around = Vec::new(alloc);
    around.push(number)?;
    around.extend_from_slice(outer)?;
    Ok(around)
}

/// Statements in the blocks `outer`.
#[cycle(walk)]
fn through_all(
    alloc: Global,
    blocks: &mut Vec<Block>,
    outer: &[usize],
    body: &[Statement],
) -> Result<(), AllocError>
    ensures { OnOk result (all_of blocks.new.items ≡ through_all outer.now (all_of blocks.old.items) (statements_of body.now)) }
{
    for statement in body {
        through(alloc, blocks, outer, statement)?;
    }
    Ok(())
}

/// A statement in the blocks `outer`.
#[cycle(walk)]
#[tactic(auto, using(syntax_tree::proofs::Bodies::block_is, syntax_tree::proofs::Bodies::if_is))]
fn through(
    alloc: Global,
    blocks: &mut Vec<Block>,
    outer: &[usize],
    statement: &Statement,
) -> Result<(), AllocError>
    ensures { OnOk result (all_of blocks.new.items ≡ through outer.now (all_of blocks.old.items) (statement_of statement.now)) }
{
    match statement {
        Statement::Block { head, body } => {
            let capable = may_scope(&head.opening);
            let around = open(alloc, blocks, head.at, capable, outer)?;
            through_all(alloc, blocks, &around, body)?;
            Ok(())
        }
        Statement::If {
            then_it,
            else_it,
            ..
        } => {
            through(alloc, blocks, outer, then_it)?;
            match else_it {
                Some(else_it) => through(alloc, blocks, outer, else_it),
                None => Ok(()),
            }
        }
        _ => Ok(()),
    }
}

/// Whether the free scope of a buffer may be a block that begins so.
fn may_scope(opening: &Opening) -> bool
    ensures { result ≡ may_scope (opening_of opening.now) }
{
    match opening {
        Opening::Plainly { word, buffers } => *word != BlockWord::Do || !buffers.is_empty(),
        Opening::ForRecords { .. } => true,
    }
}
