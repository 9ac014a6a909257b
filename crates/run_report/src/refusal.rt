//! Why a command did not do its work.

use abl_base::{Bytes, Place, Rule};

/// A refusal, in the order in which the causes are looked for (this project's choice).
#[derive(Drop)]
pub enum Refusal {
    /// The arguments have no form of the program; the number of the wrong argument, from 0, or the count
    /// of arguments where more are missing.
    Usage {
        argument: u32,
    },
    /// The file cannot be read, also where there is none of that name.
    File {
        name: Bytes,
    },
    /// The file is longer than `most` bytes.
    TooLong {
        name: Bytes,
        most: u64,
    },
    /// The schema file breaks the rule, F1 to F12, first at this line, from 1.
    Schema {
        rule: Rule,
        line: u32,
    },
    /// The schema has no table of this name.
    NoTable {
        name: Bytes,
    },
    /// The client's source breaks the rule, first at this place: of the file of this name, which the
    /// source needs, or without one of the source's own file.
    Source {
        client: u16,
        file: Option<Bytes>,
        rule: Rule,
        place: Place,
    },
    /// The disk holds no database.
    NotCreated,
    /// The disk holds a database, and one was to be made.
    AlreadyCreated,
    /// The canonical text of the stored schema is not that of the given one.
    SchemaDiffers {
        stored: Bytes,
        given: Bytes,
    },
    /// The disk failed, before a run or during it.
    Disk,
    /// Some client ended in Error or Stop; the first one in order.
    Client {
        first: u16,
    },
    /// Standard output did not take the whole report.
    Output,
    /// Out of memory.
    NoMemory,
}

impl Refusal {
    ghost use Rattle.std.specs.Prelude.{◌≡◌};
    ghost use Rattle.run_report.specs.Report.{status_of};

    /// The status that the program ends with.
    pub fn status(&self) -> u8
        ensures { result ≡ status_of self.now }
    {
        match self {
            Refusal::Usage { .. } => 1,
            Refusal::File { .. } => 2,
            Refusal::Schema { .. } => 3,
            Refusal::NoTable { .. } => 3,
            Refusal::Source { .. } => 4,
            Refusal::Disk => 5,
            Refusal::Output => 6,
            Refusal::NoMemory => 7,
            Refusal::Client { .. } => 8,
            Refusal::NotCreated => 9,
            Refusal::AlreadyCreated => 9,
            Refusal::SchemaDiffers { .. } => 9,
            Refusal::TooLong { .. } => 10,
        }
    }
}
