//! The files of a database as the machine has them: opened at first use, under locks.

ghost use Rattle.std.specs.Prelude.{◌+◌, ◌<◌, ◌^◌, length};

use crate::fault::{Fault, Place};
use crate::names::Names;
use crate::transfers::{read_from, write_to};
use std::fs::{File, OpenOptions};
use std::io;
use std::io::ErrorKind;
use std::os::fd::AsRawFd;
use std::rt::Files as Machine;

/// How many bytes an area has at most: 2^40.
const MOST_BYTES: u64 = 1 << 40;

/// What is wrong with a file that is missing where another one has bytes.
const LOST: &str = "missing, but another file of the database is not empty";

/// The file of each area, where there is one. Each is held under an exclusive lock until it is
/// closed, so no other process has it open here.
#[derive(Drop)]
struct AreaFiles {
    files: [Option<File>; 3],
    /// How many bytes each file had when the files were opened. A missing one had none.
    lengths: [u64; 3],
}

/// The files of a database. They are opened at the first call, all three, and those that are missing
/// are made at the first write.
#[derive(Drop)]
pub struct OpenFiles<'a, R> {
    machine: &'a R,
    names: Names,
    areas: Option<AreaFiles>,
    /// Whether the entries of the files in their directory were synced since the last one was made.
    has_synced_names: bool,
    /// Whether a sync has failed. Then the machine may have dropped what it did not write, and a
    /// later sync may succeed without it.
    has_failed_sync: bool,
}

impl<'a, R: Machine<File = File>> OpenFiles<'a, R> {
    /// The files of these names; none is opened yet.
    pub fn new(machine: &'a R, names: Names) -> OpenFiles<'a, R> {
        OpenFiles {
            machine,
            names,
            areas: None,
            has_synced_names: false,
            has_failed_sync: false,
        }
    }

    /// The name of the file.
    pub fn name_of(&self, place: Place) -> &str {
        match place {
            Place::Area(area) => self.names.of_area(area),
            Place::Directory => self.names.directory(),
        }
    }

    /// The first file that was not empty when the files were opened, and how many bytes it had.
    pub fn held(&self) -> Option<(&str, u64)> {
        let areas = self.areas.as_ref()?;
        for (area, length) in areas.lengths.iter().enumerate() {
            if *length > 0 {
                return Some((self.names.of_area(area), *length));
            }
        }
        None
    }

    /// The area's bytes from there on, with zeros past its end. A missing file has no byte.
    pub fn read(&mut self, area: usize, at: u64, into: &mut [u8]) -> Result<(), Fault>
        requires area { area < 3 }
        requires end { at + length into.old < 2 ^ 41 }
    {
        match &self.opened()?.files[area] {
            Some(file) => Fault::at(Place::Area(area), read_from(file, at, into)),
            None => {
                into.fill(0);
                Ok(())
            }
        }
    }

    /// How many bytes the area has.
    pub fn length(&mut self, area: usize) -> Result<u64, Fault>
        requires area { area < 3 }
    {
        Fault::at(Place::Area(area), length_of(&self.opened()?.files[area]))
    }

    /// Puts the bytes there, with zeros between the area's old end and them.
    pub fn write(&mut self, area: usize, at: u64, bytes: &[u8]) -> Result<(), Fault>
        requires area { area < 3 }
        requires end { at + length bytes.now < 2 ^ 40 }
    {
        self.make_files()?;
        match &mut self.opened()?.files[area] {
            Some(file) => Fault::at(Place::Area(area), write_to(file, at, bytes)),
            None => Err(Fault::new(Place::Area(area), ErrorKind::NotFound.into())),
        }
    }

    /// Makes what reads of the area give durable, and the entry of its file in the directory.
    pub fn sync(&mut self, area: usize) -> Result<(), Fault>
        requires area { area < 3 }
    {
        self.opened()?;
        if self.has_failed_sync {
            return Err(Fault::new(Place::Area(area), ErrorKind::Other.into()));
        }
        let outcome = self.sync_names().and_then(|()| self.sync_area(area));
        self.has_failed_sync = outcome.is_err();
        outcome
    }

    fn sync_area(&mut self, area: usize) -> Result<(), Fault>
        requires area { area < 3 }
    {
        match &self.opened()?.files[area] {
            Some(file) => Fault::at(Place::Area(area), file.sync_data()),
            None => Ok(()),
        }
    }

    /// Syncs the directory, if there is a file and no sync of the directory since the last was made.
    fn sync_names(&mut self) -> Result<(), Fault> {
        let has_file = self.opened()?.files.iter().any(|file| file.is_some());
        if !has_file || self.has_synced_names {
            return Ok(());
        }
        if self.has_failed_sync {
            return Err(Fault::new(Place::Directory, ErrorKind::Other.into()));
        }
        let outcome = Fault::at(Place::Directory, self.sync_directory());
        self.has_synced_names = outcome.is_ok();
        self.has_failed_sync = outcome.is_err();
        outcome
    }

    fn sync_directory(&self) -> io::Result<()> {
        File::open(self.machine, self.names.directory())?.sync_all()
    }

    /// The files, opened if they are not open yet.
    fn opened(&mut self) -> Result<&mut AreaFiles, Fault> {
        let areas = match self.areas.take() {
            Some(areas) => areas,
            None => open_all(self.machine, &self.names)?,
        };
        Ok(self.areas.insert(areas))
    }

    /// Makes the files that are missing, that of area 0 first, so that whoever finds a file finds its
    /// lock. Their entries are durable before a file gets a byte, so no stop leaves one of them
    /// missing beside one that is not empty.
    fn make_files(&mut self) -> Result<(), Fault> {
        self.make_if_missing(0)?;
        self.make_if_missing(1)?;
        self.make_if_missing(2)?;
        self.sync_names()
    }

    /// Makes the area's file, if there is none.
    fn make_if_missing(&mut self, area: usize) -> Result<(), Fault>
        requires area { area < 3 }
    {
        if self.opened()?.files[area].is_some() {
            return Ok(());
        }
        let place = Place::Area(area);
        let file = File::create_new(self.machine, self.names.of_area(area));
        let file = Fault::at(place, under_lock(Fault::at(place, file)?))?;
        self.has_synced_names = false;
        self.opened()?.files[area] = Some(file);
        Ok(())
    }
}

/// The files of a database that are there, each under its lock. It fails where one is missing and
/// another is not empty. A database without a name has none, and none can be made.
fn open_all<R: Machine<File = File>>(machine: &R, names: &Names) -> Result<AreaFiles, Fault> {
    if !names.has_database() {
        return Err(Fault::new(Place::Area(0), ErrorKind::InvalidInput.into()));
    }
    let d0 = Fault::at(Place::Area(0), open_file(machine, names.of_area(0)))?;
    let b1 = Fault::at(Place::Area(1), open_file(machine, names.of_area(1)))?;
    let b2 = Fault::at(Place::Area(2), open_file(machine, names.of_area(2)))?;
    let lengths = [
        Fault::at(Place::Area(0), length_of(&d0))?,
        Fault::at(Place::Area(1), length_of(&b1))?,
        Fault::at(Place::Area(2), length_of(&b2))?,
    ];
    let areas = AreaFiles {
        files: [d0, b1, b2],
        lengths,
    };
    match lost_area(&areas) {
        Some(area) => {
            let error = io::Error::new(ErrorKind::NotFound, LOST);
            Err(Fault::new(Place::Area(area), error))
        }
        None => Ok(areas),
    }
}

/// The first area whose file is missing, where another file is not empty. No stop of this program
/// leaves files so: all three are made before one gets a byte.
fn lost_area(areas: &AreaFiles) -> Option<usize> {
    if areas.lengths.iter().all(|length| *length == 0) {
        return None;
    }
    areas.files.iter().position(|file| file.is_none())
}

/// How many bytes the file has; a missing one has none.
fn length_of(file: &Option<File>) -> io::Result<u64> {
    match file {
        Some(file) => Ok(file.metadata()?.len()),
        None => Ok(0),
    }
}

/// The file of that name under its lock, if there is one, synced once.
fn open_file<R: Machine<File = File>>(machine: &R, name: &str) -> io::Result<Option<File>> {
    match OpenOptions::new()
        .read(true)
        .write(true)
        .open(machine, name)
    {
        Ok(file) => {
            let file = under_lock(file)?;
            file.sync_all()?;
            Ok(Some(file))
        }
        Err(error) if error.kind() == ErrorKind::NotFound => Ok(None),
        Err(error) => Err(error),
    }
}

/// The file under an exclusive lock, if no other open of it has one and it is a regular file of at
/// most 2^40 bytes.
fn under_lock(file: File) -> io::Result<File> {
    let file = past_the_streams(file)?;
    file.try_lock()?;
    let metadata = file.metadata()?;
    if !metadata.is_file() || metadata.len() > MOST_BYTES {
        return Err(ErrorKind::Unsupported.into());
    }
    Ok(file)
}

/// The file with a descriptor other than those of the standard streams, of which one may be closed:
/// a report that is written to it must not go into an area.
fn past_the_streams(file: File) -> io::Result<File> {
    if file.as_raw_fd() <= 2 {
        return file.try_clone();
    }
    Ok(file)
}
