//! The text of PUT.

ghost use Rattle.std.specs.Prelude.{◌≡◌, ◌∷◌, ◌++◌, Bool, ℕ, List, IfOk, OnOk, map, replicate};
ghost use Rattle.bound_tree.specs.Tree.{Item};
ghost use Rattle.bound_tree.specs.Bound.{item_of};
ghost use Rattle.block_meaning.specs.Program.{Program};
ghost use Rattle.block_meaning.specs.State.{State};
ghost use Rattle.block_meaning.specs.Values.{put_text, before_text};
ghost use Rattle.client_streams.specs.lines.Reads.{IsReadIn};
ghost use Rattle.client_streams.specs.lines.Writes.{WritesText, WritesItem};

use crate::lines::read::read_value;
use crate::lines::values::push_item;
use abl_base::Bytes;
use bound_tree::PutItem;
use evaluator::{EvalFault, Surroundings};
use std::alloc::{AllocError, Global};

/// The text of PUT: its items in order, each value under its mask or plain. Returns the fault of
/// the first item that has one; out of memory is the only other error. (OpenEdge ABL Reference,
/// PUT.)
pub fn put_items<S: Surroundings>(
    alloc: Global,
    surroundings: &S,
    items: &[PutItem],
) -> Result<Bytes, EvalFault>
    ensures { (p : Program) (retry : Bool) (s : State) → IsReadIn p retry s (S.env surroundings.now) → WritesText result (put_text p (map item_of items.now) retry s) }
{
    let mut text = Vec::new(alloc);
    for item in items {
        put_item(alloc, surroundings, &mut text, item)?;
    }
    Ok(Bytes::from_vec(text))
}

/// Appends the text of one item.
fn put_item<S: Surroundings>(
    alloc: Global,
    surroundings: &S,
    text: &mut Vec<u8>,
    item: &PutItem,
) -> Result<(), EvalFault>
    ensures { (p : Program) (retry : Bool) (s : State) → IsReadIn p retry s (S.env surroundings.now) → (items : List Item) → WritesItem result text.old.items text.new.items (put_text p (item_of item.now ∷ items) retry s) (put_text p items retry s) }
{
    match item {
        PutItem::Shows { value, mask } => {
            let value = read_value(alloc, surroundings, value)?;
            Ok(push_item(alloc, text, mask.as_ref(), value.value())?)
        }
        PutItem::Skip(count) => Ok(push_many(text, b'\n', *count)?),
        PutItem::Space(count) => Ok(push_many(text, b' ', *count)?),
    }
}

/// Appends a byte `count` times.
fn push_many(text: &mut Vec<u8>, byte: u8, count: u32) -> Result<(), AllocError>
    ensures { OnOk result (text.new.items ≡ text.old.items ++ replicate count byte) }
{
    for _ in 0..count {
        text.push(byte)?;
    }
    Ok(())
}
