//! The bytes of a slot of sequence values.

ghost use Rattle.std.specs.Prelude.{◌≡◌, ◌≤◌, ◌*◌, ◌++◌, length, drop};
ghost use Rattle.row_fragments.specs.Fragments.{head_bytes};
ghost use Rattle.sequence_slots.specs.Values.{Have64Bits, bytes_of, slot_bytes};

use byteorder::{BigEndian, ByteOrder};

/// The kind of a slot that holds sequence values. (This project's choice.)
const KIND: u8 = 4;

/// Writes the head of a slot with this many bytes of values, up to the length of a row.
#[tactic(auto, unfolding(abl_values::specs::Rows::number_bytes))]
fn put_head(out: &mut [u8], used: u16)
    requires { 8 ≤ length out.old }
    ensures { out.new ≡ head_bytes 4 used 0 ++ drop 8 out.old }
{
    out[0] = KIND;
    out[1] = 0;
    BigEndian::write_u16(&mut out[2..], used);
    BigEndian::write_u32(&mut out[4..], 0);
}

/// Writes the values, each in eight bytes.
#[tactic(auto, unfolding(abl_values::specs::Rows::number_bytes))]
fn put_values(out: &mut [u8], values: &[i64])
    requires { 8 * length values.now ≤ length out.old }
    ensures { out.new ≡ bytes_of values.now ++ drop (8 * length values.now) out.old }
{
    BigEndian::write_i64_into(values, &mut out[..8 * values.len()]);
}

/// The slot that holds these values, 30 at most; zeros where there is none. It takes no memory.
pub fn slot_of(values: &[i64]) -> [u8; 256]
    requires { length values.now ≤ 30 }
    ensures { result ≡ slot_bytes values.now }
{
    let mut slot = [0u8; 256];
    if values.is_empty() {
        return slot;
    }
    put_head(&mut slot, (8 * values.len()) as u16);
    put_values(&mut slot[16..], values);
    slot
}

/// Each of the values has 64 bits, as their type says; for a caller that needs it of a whole list.
pub fn have_64_bits(values: &[i64])
    ensures { Have64Bits values.now }
{
    if let Some((first, rest)) = values.split_first() {
        let _value = *first;
        have_64_bits(rest);
    }
}
