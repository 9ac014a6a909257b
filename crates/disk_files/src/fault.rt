//! What a failed call was on, and why it failed.

use std::io;

/// A file of a database: that of an area, or the directory that the files are in.
#[derive(Clone, Copy, Debug, PartialEq, Eq)]
pub enum Place {
    Area(usize),
    Directory,
}

/// A call of the machine that failed: the file that it was on, and the machine's error.
#[derive(Clone, Copy)]
pub struct Fault {
    pub place: Place,
    pub error: io::Error,
}

impl Fault {
    /// The fault of a call on that file.
    pub fn new(place: Place, error: io::Error) -> Fault {
        Fault { place, error }
    }

    /// The outcome of a call on that file.
    pub fn at<T>(place: Place, outcome: io::Result<T>) -> Result<T, Fault> {
        match outcome {
            Ok(value) => Ok(value),
            Err(error) => Err(Fault { place, error }),
        }
    }
}
