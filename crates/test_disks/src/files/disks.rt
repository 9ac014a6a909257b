//! One row: a call on one of two disks, or a change of a file.

use crate::files::calls;
use disk_files::DiskFiles;
use std::alloc::Global;
use std::fs::{File, OpenOptions, Permissions};
use std::os::unix::fs::{PermissionsExt, symlink};
use std::{fs, io};

/// Two disks, each opened or not, as two processes have them.
#[derive(Drop)]
pub struct Disks<'a> {
    machine: &'a HostRuntime,
    first: Option<DiskFiles<'a, HostRuntime>>,
    second: Option<DiskFiles<'a, HostRuntime>>,
}

impl<'a> Disks<'a> {
    /// No disk is opened.
    pub fn new(machine: &'a HostRuntime) -> Disks<'a> {
        Disks {
            machine,
            first: None,
            second: None,
        }
    }

    /// The answer to a row.
    pub fn answer(&mut self, row: &str) -> io::Result<String> {
        let (word, rest) = row.split_once(' ').unwrap_or((row, ""));
        match word {
            "0" => answer_of(self.machine, &mut self.first, rest),
            "1" => answer_of(self.machine, &mut self.second, rest),
            _ => file_answer(self.machine, word, rest),
        }
    }
}

/// The answer to a call on a disk: `open NAME` and `close`, or a call on one that is opened.
fn answer_of<'a>(
    machine: &'a HostRuntime,
    disk: &mut Option<DiskFiles<'a, HostRuntime>>,
    row: &str,
) -> io::Result<String> {
    let alloc = machine.alloc();
    let (call, rest) = row.split_once(' ').unwrap_or((row, ""));
    match call {
        "open" => {
            *disk = Some(DiskFiles::new(machine, alloc, rest)?);
            Ok(String::from_str(alloc, "done")?)
        }
        "close" => {
            *disk = None;
            Ok(String::from_str(alloc, "done")?)
        }
        _ => match disk {
            Some(disk) => called(alloc, disk, call, rest),
            None => Ok(String::from_str(alloc, "no disk")?),
        },
    }
}

/// The answer to a call on an opened disk: `held` and `fault`, which are of files, or one of every disk.
fn called(
    alloc: Global,
    disk: &mut DiskFiles<'_, HostRuntime>,
    call: &str,
    rest: &str,
) -> io::Result<String> {
    match call {
        "held" => match disk.held() {
            Some((name, bytes)) => Ok(format!(in alloc; "{name} {bytes}")?),
            None => Ok(String::from_str(alloc, "none")?),
        },
        "fault" => match disk.first_fault() {
            Some((name, error)) => Ok(format!(in alloc; "{name}: {error}")?),
            None => Ok(String::from_str(alloc, "none")?),
        },
        _ => Ok(calls::answer(alloc, disk, call, rest)?),
    }
}

/// The answer to a change of a file, or to a question about one.
fn file_answer(machine: &HostRuntime, verb: &str, rest: &str) -> io::Result<String> {
    let (name, argument) = rest.split_once(' ').unwrap_or((rest, ""));
    let outcome = match verb {
        "size" => return size(machine, name),
        "mkdir" => fs::create_dir(machine, name),
        "link" => symlink(machine, argument, name),
        "remove" => fs::remove_file(machine, name),
        "mode" => mode(machine, name, argument),
        "lengthen" => lengthen(machine, name, argument.parse::<u64>().unwrap_or(0)),
        _ => return Ok(String::from_str(machine.alloc(), "no row")?),
    };
    let answer = if outcome.is_ok() { "done" } else { "failed" };
    Ok(String::from_str(machine.alloc(), answer)?)
}

/// How many bytes a file has.
fn size(machine: &HostRuntime, name: &str) -> io::Result<String> {
    match fs::metadata(machine, name) {
        Ok(metadata) => Ok(format!(in machine.alloc(); "{}", metadata.len())?),
        Err(_) => Ok(String::from_str(machine.alloc(), "none")?),
    }
}

/// Gives a file these permissions: `none`, or else reading and writing by its owner.
fn mode(machine: &HostRuntime, name: &str, argument: &str) -> io::Result<()> {
    let bits = if argument == "none" { 0 } else { 0o600 };
    fs::set_permissions(machine, name, Permissions::from_mode(bits))
}

/// Makes a file of that length, all of it zeros.
fn lengthen(machine: &HostRuntime, name: &str, length: u64) -> io::Result<()> {
    let mut options = OpenOptions::new();
    let file: File = options.write(true).create(true).open(machine, name)?;
    file.set_len(length)
}
