//! A whole read and a whole write, made of parts.

ghost use Rattle.std.specs.Prelude.{◌≡◌, ◌+◌, ◌<◌, ◌^◌, length, IsTrue, OnOk};
ghost use Rattle.storage.specs.Disk.{Reads, Torn, overlaid};

use crate::area_file::AreaFile;
use std::io;
use std::io::ErrorKind;

/// Fills the buffer with the file's bytes from there on, and with zeros past its end.
pub fn read_from<F: AreaFile>(file: &F, at: u64, into: &mut [u8]) -> io::Result<()>
    requires end { at + length into.old < 2 ^ 41 }
    ensures bytes { OnOk result (IsTrue (F.observable file.now) → Reads (F.bytes file.now) at into.new) }
{
    let mut done = 0;
    while done < into.len() {
        let count = file.read_some(at + done as u64, &mut into[done..])?;
        if count == 0 {
            into[done..].fill(0);
            return Ok(());
        }
        done += count;
    }
    Ok(())
}

/// Puts the bytes there, with zeros between the file's old end and them. After an error the range
/// of the write, and what lies past the old end, may hold any bytes; all others are as they were.
pub fn write_to<F: AreaFile>(file: &mut F, at: u64, from: &[u8]) -> io::Result<()>
    requires end { at + length from.now < 2 ^ 40 }
    ensures same_observable { F.observable file.new ≡ F.observable file.old }
    ensures written { OnOk result (IsTrue (F.observable file.old) → F.bytes file.new ≡ overlaid at from.now (F.bytes file.old)) }
    ensures others { IsTrue (F.observable file.old) → Torn at (length from.now) (F.bytes file.old) (F.bytes file.new) }
{
    if from.is_empty() {
        return file.lengthen(at);
    }
    let mut done = 0;
    while done < from.len() {
        let count = file.write_some(at + done as u64, &from[done..])?;
        if count == 0 {
            return Err(ErrorKind::WriteZero.into());
        }
        done += count;
    }
    Ok(())
}
