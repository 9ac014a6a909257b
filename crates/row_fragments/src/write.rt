//! Writing a row.

ghost use Rattle.std.specs.Prelude.{◌≡◌, ◌≤◌, ◌<◌, ◌+◌, ◌++◌, ◌∷◌, [], length, drop, take, OnOk};
ghost use Rattle.storage.specs.Slots.{IsReadable, OnlyDisk};
ghost use Rattle.abl_values.specs.Rows.{number_bytes};
ghost use Rattle.row_fragments.specs.Calls.{CanTouch, Touched, Wrote};
ghost use Rattle.row_fragments.specs.Fragments.{HasRoomFor, Holds, BeginsAs, first_or_zero, fragment_bytes, head_bytes, row_bytes};
ghost use Rattle.row_fragments.specs.Chains.{HaveFragments};
ghost use Rattle.row_fragments.specs.Kinds.{HaveKinds};

use byteorder::{BigEndian, ByteOrder};
use storage::{SlotFault, Slots};

/// Writes the part of the head before a row's length and table.
#[tactic(auto, unfolding(abl_values::specs::Rows::number_bytes))]
fn put_head(out: &mut [u8], kind: u8, used: u16, next: u32)
    requires { 8 ≤ length out.old }
    ensures { out.new ≡ head_bytes kind used next ++ drop 8 out.old }
{
    out[0] = kind;
    out[1] = 0;
    BigEndian::write_u16(&mut out[2..], used);
    BigEndian::write_u32(&mut out[4..], next);
}

/// Writes the row's length and table.
#[tactic(auto, unfolding(abl_values::specs::Rows::number_bytes))]
fn put_row(out: &mut [u8], total: u32, table: u16)
    requires { 6 ≤ length out.old }
    ensures { out.new ≡ row_bytes total table ++ drop 6 out.old }
{
    BigEndian::write_u32(out, total);
    BigEndian::write_u16(&mut out[4..], table);
}

/// Writes the content.
fn put_content(out: &mut [u8], content: &[u8])
    requires { length content.now ≤ length out.old }
    ensures { out.new ≡ content.now ++ drop (length content.now) out.old }
{
    out[..content.len()].copy_from_slice(content);
}

/// The bytes of a fragment, for a slot. It takes no memory.
pub(crate) fn fragment(kind: u8, next: u32, total: u32, table: u16, content: &[u8]) -> [u8; 256]
    requires { length content.now ≤ 240 }
    ensures { result ≡ fragment_bytes kind next total table content.now }
{
    let mut slot = [0u8; 256];
    put_head(&mut slot, kind, content.len() as u16, next);
    put_row(&mut slot[8..], total, table);
    put_content(&mut slot[16..], content);
    slot
}

/// Writes one slot for rows, where there is room for the write.
pub(crate) fn write_one<S: Slots>(
    slots: &mut S,
    client: u16,
    at: u32,
    bytes: &[u8; 256],
) -> Result<(), SlotFault>
    requires client { client < 16 }
    requires ready { CanTouch (S.Slots.state slots.old) client (at ∷ []) }
    ensures touched { Touched (S.Slots.state slots.old) (S.Slots.state slots.new) (S.Slots.stop slots.old) (S.Slots.stop slots.new) client result }
    ensures wrote { OnOk result (Wrote (S.Slots.state slots.old) (S.Slots.state slots.new) client (at ∷ [])) }
    ensures room { OnOk result (((S.Slots.state slots.old).transaction client).room ≤ ((S.Slots.state slots.new).transaction client).room + 1) }
    ensures bytes { OnOk result (IsReadable (S.Slots.state slots.old) → (S.Slots.state slots.new).reads at ≡ bytes.now) }
    ensures only { OnlyDisk result }
{
    slots.write(client, at, bytes)
}

/// The first of the slots, or 0.
fn first_or_zero(slots: &[u32]) -> u32
    ensures { result ≡ first_or_zero slots.now }
{
    match slots.split_first() {
        None => 0,
        Some((first, _)) => *first,
    }
}

/// The content of a first fragment.
fn front(bytes: &[u8]) -> &[u8]
    ensures { result.now ≡ take 240 bytes.now }
{
    if bytes.len() < 240 {
        bytes
    } else {
        &bytes[..240]
    }
}

/// What is left for the fragments after it.
fn back(bytes: &[u8]) -> &[u8]
    ensures { result.now ≡ drop 240 bytes.now }
{
    if bytes.len() < 240 {
        &[]
    } else {
        &bytes[240..]
    }
}

/// Writes bytes as a chain into these slots, from the last to the first: so the chain from each slot
/// on is whole as soon as that slot is written. It takes no memory, and Disk is its only refusal.
pub fn write_chain<S: Slots>(
    slots: &mut S,
    client: u16,
    kind: u8,
    drawn: &[u32],
    total: u32,
    table: u16,
    bytes: &[u8],
) -> Result<(), SlotFault>
    requires client { client < 16 }
    requires kind { 0 < kind }
    requires ready { CanTouch (S.Slots.state slots.old) client drawn.now }
    requires room { HasRoomFor drawn.now bytes.now }
    ensures touched { Touched (S.Slots.state slots.old) (S.Slots.state slots.new) (S.Slots.stop slots.old) (S.Slots.stop slots.new) client result }
    ensures wrote { OnOk result (Wrote (S.Slots.state slots.old) (S.Slots.state slots.new) client drawn.now) }
    ensures room { OnOk result (((S.Slots.state slots.old).transaction client).room ≤ ((S.Slots.state slots.new).transaction client).room + length drawn.now) }
    ensures holds { OnOk result (IsReadable (S.Slots.state slots.old) → Holds (S.Slots.state slots.new).reads drawn.now bytes.now) }
    ensures first { OnOk result (IsReadable (S.Slots.state slots.old) → BeginsAs (S.Slots.state slots.new).reads drawn.now kind table) }
    ensures kinds { OnOk result (IsReadable (S.Slots.state slots.old) → HaveKinds (S.Slots.state slots.new).reads drawn.now kind) }
    ensures bytes { OnOk result (IsReadable (S.Slots.state slots.old) → HaveFragments (S.Slots.state slots.new).reads drawn.now kind total table bytes.now) }
    ensures only { OnlyDisk result }
{
    match drawn.split_first() {
        None => Ok(()),
        Some((at, rest)) => {
            write_chain(slots, client, 2, rest, 0, 0, back(bytes))?;
            let next = first_or_zero(rest);
            let slot = fragment(kind, next, total, table, front(bytes));
            write_one(slots, client, *at, &slot)?;
            Ok(())
        }
    }
}
