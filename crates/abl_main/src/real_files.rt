//! The files of the machine. What they hold is not observable in proofs.

ghost use Rattle.std.specs.Prelude.{◌≡◌, ◌≤◌, ◌<◌, length, IfOk};

use abl_base::Bytes;
use host_io::{FileFault, Files};
use std::alloc::Global;
use std::fs;
use std::io::Read;
use std::rt::Files as Machine;

/// How many bytes are read at once.
const CHUNK_BYTES: usize = 4096;

/// Files by their path, which is UTF-8.
#[derive(Drop)]
pub struct RealFiles<'a, R> {
    machine: &'a R,
    alloc: Global,
    faults: u64,
}

impl<'a, R: Machine> RealFiles<'a, R> {
    /// The files of the machine; none was read yet.
    pub fn new(machine: &'a R, alloc: Global) -> RealFiles<'a, R> {
        RealFiles {
            machine,
            alloc,
            faults: 0,
        }
    }
}

impl<R: Machine> Files for RealFiles<'_, R> {
    ghost use Rattle.std.specs.Prelude.{false, None};

    ghost state = { λ files. record { observable = false; sound = false; file = λ _. None; faults = files.faults } };

    ghost sound_observable = { λ _ sound. sound };

    fn faults(&self) -> u64 {
        self.faults
    }

    fn read(&mut self, name: &Bytes, most: u64) -> Result<Bytes, FileFault> {
        match read_file(self.machine, self.alloc, name.as_slice(), most) {
            Ok(bytes) => Ok(bytes),
            Err(FileFault::Failed) => {
                self.faults = self.faults.saturating_add(1);
                Err(FileFault::Failed)
            }
            Err(FileFault::TooLong) => Err(FileFault::TooLong),
            Err(FileFault::NoMemory) => Err(FileFault::NoMemory),
        }
    }
}

/// The bytes of the file at the path, if they are no more than `most`.
fn read_file<R: Machine>(
    machine: &R,
    alloc: Global,
    path: &[u8],
    most: u64,
) -> Result<Bytes, FileFault>
    ensures { IfOk result (λ bytes. length bytes ≤ most) }
{
    let Ok(path) = str::from_utf8(path) else {
        return Err(FileFault::Failed);
    };
    let Ok(mut file) = fs::open(machine, path) else {
        return Err(FileFault::Failed);
    };
    let mut bytes: Vec<u8> = Vec::new(alloc);
    let mut chunk = [0u8; CHUNK_BYTES];
    for _ in 0..u64::MAX {
        let Ok(count) = file.read(&mut chunk) else {
            return Err(FileFault::Failed);
        };
        if count == 0 {
            return Ok(Bytes::from_vec(bytes));
        }
        let left = most.saturating_sub(bytes.len() as u64);
        if count as u64 > left {
            return Err(FileFault::TooLong);
        }
        if bytes.extend_from_slice(&chunk[..count]).is_err() {
            return Err(FileFault::NoMemory);
        }
    }
    Err(FileFault::Failed)
}
