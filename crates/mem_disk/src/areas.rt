//! Bytes of an area: a write into it, and a read out of it.

ghost use Rattle.std.specs.Prelude.{◌≡◌, ◌<◌, ◌≤◌, ◌+◌, ◌^◌, ◌++◌, length, take, drop, OnOk, IsOk};
ghost use Rattle.std.specs.Vec.{vec_capacity};
ghost use Rattle.storage.specs.Disk.{Reads, overlaid};

use std::alloc::AllocError;

/// Puts the bytes into the area, which reaches past them.
fn copy_in(area: &mut [u8], at: usize, bytes: &[u8])
    requires { at + length bytes.now ≤ length area.old }
    ensures { area.new ≡ take at area.old ++ bytes.now ++ drop (at + length bytes.now) area.old }
{
    area[at..at + bytes.len()].copy_from_slice(bytes);
}

/// Puts the bytes there, with zeros between the old end and them.
pub fn overlay(area: &mut Vec<u8>, at: usize, bytes: &[u8]) -> Result<(), AllocError>
    requires { at + length bytes.now < 2 ^ 41 }
    ensures ok { OnOk result (area.new.items ≡ overlaid at bytes.now area.old.items) }
    ensures capacity { vec_capacity area.old ≤ vec_capacity area.new }
    ensures succeeds { at + length bytes.now ≤ vec_capacity area.old → IsOk result }
{
    if at + bytes.len() >= area.len() {
        area.resize(at, 0)?;
        area.extend_from_slice(bytes)?;
    } else {
        copy_in(area, at, bytes);
    }
    Ok(())
}

/// Copies bytes out, with zeros past the end of the area.
pub fn copy_out(area: &[u8], at: usize, into: &mut [u8])
    requires { at + length into.old < 2 ^ 41 }
    ensures { Reads area.now at into.new }
{
    for i in 0..into.len() {
        into[i] = if at + i < area.len() { area[at + i] } else { 0 };
    }
}
