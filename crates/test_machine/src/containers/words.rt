//! The words of a step.

use abl_base::Bytes;
use database_protocol::Cursor;
use std::alloc::{AllocError, Global};
use test_words::{bytes_of, push_bytes};

/// The words of a step, with `:` between: the name of a call and its arguments. An argument that is
/// missing is empty, and a number that is none is 0.
#[derive(Drop)]
pub struct Words<'a> {
    words: Vec<&'a str>,
}

impl<'a> Words<'a> {
    /// The words of a step.
    pub fn of(alloc: Global, step: &'a str) -> Result<Words<'a>, AllocError> {
        let mut words = Vec::new(alloc);
        for word in step.split(':') {
            words.push(word)?;
        }
        Ok(Words { words })
    }

    /// The word with this number, from 0.
    pub fn word(&self, number: usize) -> &'a str {
        match self.words.get(number) {
            Some(word) => word,
            None => "",
        }
    }

    /// The bytes that a word shows.
    pub fn bytes(&self, alloc: Global, number: usize) -> Result<Bytes, AllocError> {
        Ok(Bytes::from_vec(bytes_of(alloc, self.word(number).as_bytes())?))
    }

    /// The number that a word spells.
    pub fn number(&self, number: usize) -> u32 {
        match self.word(number).parse::<u32>() {
            Ok(n) => n,
            Err(_) => 0,
        }
    }

    /// The client that a word names.
    pub fn client(&self, number: usize) -> u16 {
        match self.word(number).parse::<u16>() {
            Ok(client) => client,
            Err(_) => 0,
        }
    }

    /// The client that a word names, or none.
    pub fn keeper(&self, number: usize) -> Option<u16> {
        match self.word(number).parse::<u16>() {
            Ok(client) => Some(client),
            Err(_) => None,
        }
    }

    /// Whether a word says that the key is a unique one.
    pub fn is_unique(&self, number: usize) -> bool {
        self.word(number) == "u"
    }
}

/// `yes` or `no`.
pub fn yes_or_no(alloc: Global, holds: bool) -> Result<String, AllocError> {
    String::from_str(alloc, if holds { "yes" } else { "no" })
}

/// `ok`, or `refused` where a call's condition did not hold.
pub fn done(alloc: Global, done: bool) -> Result<String, AllocError> {
    String::from_str(alloc, if done { "ok" } else { "refused" })
}

/// A place that was found: its key and its row, or `none`.
pub fn place(alloc: Global, found: Option<&Cursor>) -> Result<String, AllocError> {
    let Some(cursor) = found else {
        return String::from_str(alloc, "none");
    };
    let mut line = String::new(alloc);
    push_bytes(&mut line, cursor.key.as_slice())?;
    let row = cursor.row.0;
    line.push_str(format!(in alloc; ":{row}")?.as_str())?;
    Ok(line)
}
