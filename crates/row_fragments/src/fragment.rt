//! One fragment in a slot.

ghost use Rattle.std.specs.Prelude.{◌≡◌, ◌≤◌, ◌<◌, ◌^◌, ◌+◌, length, drop, min};
ghost use Rattle.abl_values.specs.Rows.{number_at_head, number_bytes};
ghost use Rattle.row_fragments.specs.Fragments.{content_in, kind_in, next_in, table_in, total_in, used_in};

use byteorder::{BigEndian, ByteOrder};

/// How many of its content bytes are used.
#[tactic(auto, unfolding(abl_values::specs::Rows::number_at_head))]
pub fn used(slot: &[u8; 256]) -> usize
    ensures value { result ≡ min (used_in slot.now) 240 }
{
    let used = BigEndian::read_u16(&slot[2..]) as usize;
    if used < 240 { used } else { 240 }
}

/// The slot of the next fragment, or 0. A free slot has none.
#[tactic(auto, unfolding(abl_values::specs::Rows::number_at_head))]
pub fn next(slot: &[u8; 256]) -> u32
    ensures { result ≡ next_in slot.now }
{
    if slot[0] == 0 {
        return 0;
    }
    BigEndian::read_u32(&slot[4..])
}

/// The table of a first fragment.
#[tactic(auto, unfolding(abl_values::specs::Rows::number_at_head))]
pub fn table(slot: &[u8; 256]) -> u16
    ensures { result ≡ table_in slot.now }
{
    BigEndian::read_u16(&slot[12..])
}

/// The row's length, in a first fragment.
#[tactic(auto, unfolding(abl_values::specs::Rows::number_at_head))]
pub fn total(slot: &[u8; 256]) -> u32
    ensures { result ≡ total_in slot.now }
{
    BigEndian::read_u32(&slot[8..])
}

/// The kind of the slot: 0 where it is free, 1 a first fragment, 2 a further one.
pub fn kind(slot: &[u8; 256]) -> u8
    ensures { result ≡ kind_in slot.now }
{
    slot[0]
}
