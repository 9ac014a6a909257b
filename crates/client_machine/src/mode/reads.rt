//! FIND, FIND CURRENT and FOR. The reading is that of the statement or header at the place.

use crate::mode::TurnData;
use abl_base::{Row, RowId};
use client_memory::buffer::Held;
use database_protocol::Cursor;

/// The search of the reading at the place, with the values that bracket it.
#[derive(Drop)]
pub struct SearchData {
    pub place: usize,
    pub forward: bool,
    /// Whether a second match is a fault.
    pub only: bool,
    pub wait: bool,
    pub retry: bool,
    pub prefix: Row,
}

/// A task of a reading.
#[derive(Drop)]
pub enum ReadTask {
    TakesAs {
        place: usize,
        wait: bool,
        retry: bool,
        row: RowId,
    },
    /// Looks for the next match after `from`.
    Looks {
        fuel: u64,
        search: SearchData,
        from: Option<Cursor>,
    },
    Searches {
        place: usize,
        forward: bool,
        only: bool,
        wait: bool,
        retry: bool,
        from: Option<Cursor>,
    },
    FetchesFrom {
        place: usize,
        again: bool,
        retry: bool,
        own: Option<Cursor>,
    },
    /// The reading of a FOR: `again` says whether its iteration is a retry, whose record is `own`.
    Fetches {
        place: usize,
        again: bool,
        retry: bool,
        own: Option<Cursor>,
    },
    FindsAs {
        place: usize,
        retry: bool,
    },
    Finds {
        place: usize,
        retry: bool,
    },
    FindsCurrent(usize),
}

/// An entry of a reading.
#[derive(Drop)]
pub enum ReadEntry {
    /// The task follows where the record was lost.
    OrDo(ReadTask),
    /// The end of the FIND at the place.
    FoundAs(usize),
    /// The record of the FOR at the place. The place in `turn` is not read.
    FetchedAs {
        place: usize,
        depth: Option<u32>,
        turn: TurnData,
        retry: bool,
        left: u32,
    },
    /// Under NO-ERROR a FIND that finds no further record fails without a line.
    Quiet(bool),
}

/// What follows an answer in a reading.
#[derive(Drop)]
pub enum ReadAnswer {
    WasNext {
        fuel: u64,
        search: SearchData,
    },
    WasSecond {
        fuel: u64,
        search: SearchData,
        cursor: Cursor,
        values: Row,
    },
    WasGranted {
        place: usize,
        retry: bool,
        row: RowId,
    },
    WasRead {
        place: usize,
        retry: bool,
        row: RowId,
        held: Held,
    },
    CurrentGranted {
        place: usize,
        row: RowId,
        made: Option<u64>,
    },
    WasCurrent {
        place: usize,
        row: RowId,
        made: Option<u64>,
    },
}
