//! The items of a schema file, each with the attribute lines under it.

ghost use Rattle.std.specs.Prelude.{◌≡◌, ◌∷◌, [], IfOk, OnOk};
ghost use Rattle.schema_lines.specs.Files.{Lot, items_of, line_before};
ghost use Rattle.schema_lines.specs.Walk.{followed_by, under_last};

use crate::forms::said;
use crate::item::{Attribute, Attributed, Item, Line};
use crate::lines::{first_piece, trimmed};
use abl_base::Items;
use abl_values::same_bytes;
use std::alloc::{AllocError, Global};

/// The items of the file in order: its lines up to one that is a single period. Attributes before
/// the first item are skipped. Out of memory is the only error; it also comes where the file has
/// 2^32 lines or more, since the number of a line has 32 bits.
#[tactic(auto, unfolding(crate::specs::Files::items_of))]
pub fn items_of(alloc: Global, text: &[u8]) -> Result<Vec<Item>, AllocError>
    ensures { IfOk result (λ items. items.items ≡ items_of text.now) }
{
    let mut items = Vec::new(alloc);
    let mut number: u32 = 0;
    let mut rest = Some(text);
    while let Some(bytes) = rest {
        let piece = first_piece(bytes);
        let line = trimmed(piece.line);
        if same_bytes(line, b".") {
            return Ok(items);
        }
        let Some(next) = number.checked_add(1) else {
            return Err(AllocError);
        };
        number = next;
        add_line(&mut items, number, said(alloc, line)?)?;
        rest = piece.rest;
    }
    Ok(items)
}

/// Adds what a line says: an item at the end, or an attribute of the last item.
fn add_line(items: &mut Vec<Item>, number: u32, line: Line) -> Result<(), AllocError>
    ensures { OnOk result ((lot : Lot) → followed_by items.new.items lot ≡ followed_by items.old.items (line_before number line lot)) }
{
    match line {
        Line::Skipped => Ok(()),
        Line::Begins(head) => {
            let attributes = Items::empty(*items.allocator());
            items.push(Item {
                line: number,
                head,
                attributes,
            })?;
            Ok(())
        }
        Line::Says(attribute) => add_attribute(items, number, attribute),
    }
}

/// Adds an attribute to the last item, where there is one.
fn add_attribute(items: &mut Vec<Item>, number: u32, attribute: Attribute) -> Result<(), AllocError>
    ensures { OnOk result (items.new.items ≡ under_last (record { line = number; attribute = attribute } ∷ []) items.old.items) }
{
    if let Some(item) = items.last_mut() {
        item.attributes.push(Attributed {
            line: number,
            attribute,
        })?;
    }
    Ok(())
}
