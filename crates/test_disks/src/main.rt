//! Runs rows of images and databases on them, of slots over a disk, of a disk over real files, and of one
//! in memory. It reads a row a line, as `head 1 1`, and writes the row with its answer, as `head 1 1 = done`. A line
//! `## NAME` begins a section of rows, and in it a line that begins with `==` is a heading. The rows of
//! `stdin` have their answers in `stdout`, worked by hand.
#![tactic(auto)]

mod disk_rows;
mod files;
mod images;
mod memory;
mod slots;

use crate::disk_rows::Areas;
use files::Disks;
use mem_disk::MemDisk;
use std::io;

/// What the rows of a section are of.
#[derive(Drop)]
enum Section<'a> {
    Images(Areas),
    Slots(Areas),
    Files(Disks<'a>),
    Memory(Option<MemDisk>),
    /// No section has the name.
    Unknown,
}

impl<'a> Section<'a> {
    /// The section of that name, at its beginning.
    fn named(machine: &'a HostRuntime, name: &str) -> Section<'a> {
        match name {
            "images" => Section::Images(Areas::empty(machine.alloc())),
            "slots" => Section::Slots(Areas::empty(machine.alloc())),
            "files" => Section::Files(Disks::new(machine)),
            "memory" => Section::Memory(None),
            _ => Section::Unknown,
        }
    }

    /// Takes a heading: areas are empty again.
    fn heading(&mut self, machine: &HostRuntime) {
        match self {
            Section::Images(areas) | Section::Slots(areas) => {
                *areas = Areas::empty(machine.alloc());
            }
            Section::Files(_) | Section::Memory(_) | Section::Unknown => {}
        }
    }

    /// The answer of a row.
    fn answer(&mut self, machine: &HostRuntime, row: &str) -> io::Result<String> {
        let alloc = machine.alloc();
        match self {
            Section::Images(areas) => Ok(images::answer(alloc, areas, row)?),
            Section::Slots(areas) => slots::answer(machine, alloc, areas, row),
            Section::Files(disks) => disks.answer(row),
            Section::Memory(disk) => Ok(memory::answer(alloc, disk, row)?),
            Section::Unknown => Ok(String::from_str(alloc, "no section")?),
        }
    }
}

fn main(rt: HostRuntime) -> io::Result<()> {
    let mut section = Section::Unknown;
    for line in rt.lines(rt.alloc()) {
        let row = line?;
        if let Some(name) = row.as_str().strip_prefix("## ") {
            section = Section::named(&rt, name);
            println!(rt; "{row}")?;
        } else if row.as_str().starts_with("==") {
            section.heading(&rt);
            println!(rt; "{row}")?;
        } else {
            let answer = section.answer(&rt, row.as_str())?;
            println!(rt; "{row} = {answer}")?;
        }
    }
    Ok(())
}
