//! Where a client waits before it requests a step.

use std::hint::spin_loop;
use std::sync::atomic::{AtomicU64, Ordering};
use std::thread::yield_now;

/// Called outside the turn before each step. What it does has no meaning for the answers.
pub trait Gate {
    /// The client, numbered below 16, is about to ask for the operation of that number, counted
    /// from 1. An operation that is asked again after it was blocked keeps its number. It returns,
    /// and takes no memory.
    fn at(&self, client: u16, number: u64);
}

/// A gate that lets every client through at once.
#[derive(Clone, Copy)]
pub struct OpenGate;

impl Gate for OpenGate {
    fn at(&self, _client: u16, _number: u64) {}
}

/// The clients that came: one bit for each.
const CAME: u64 = 0xffff;

/// The clients that have spent their turns: one bit for each.
const SPENT: u64 = 0xffff_0000;

/// All came before any had spent its turns.
const MET: u64 = 0x1_0000_0000;

/// A gate at which clients meet: it holds each one at the operation of that number until `clients`
/// different clients have come there, or until it has waited `turns` turns. A client that has
/// spent its turns is held no more. So each call ends by itself.
#[derive(Drop)]
pub struct MeetGate {
    clients: u16,
    number: u64,
    turns: u64,
    seen: AtomicU64,
}

impl MeetGate {
    /// A gate for `clients` clients at the operation `number`, with `turns` turns for each.
    pub fn new(clients: u16, number: u64, turns: u64) -> MeetGate {
        MeetGate {
            clients,
            number,
            turns,
            seen: AtomicU64::new(if clients == 0 { MET } else { 0 }),
        }
    }

    /// Whether all clients came before any of them had spent its turns.
    pub fn met(&self) -> bool {
        self.seen.load(Ordering::SeqCst) & MET != 0
    }

    /// Whether all clients have come, by the bits of `seen`.
    fn are_there(&self, seen: u64) -> bool {
        (seen & CAME).count_ones() >= u32::from(self.clients)
    }

    /// Waits until the clients are there or the turns are spent; whether they are there.
    fn wait(&self) -> bool {
        for turn in 0..self.turns {
            if self.are_there(self.seen.load(Ordering::SeqCst)) {
                return true;
            }
            if turn % 256 == 0 {
                yield_now();
            }
            spin_loop();
        }
        self.are_there(self.seen.load(Ordering::SeqCst))
    }
}

impl Gate for MeetGate {
    fn at(&self, client: u16, number: u64) {
        if number != self.number || client >= 16 {
            return;
        }
        let came = 1u64 << client;
        let spent = came << 16;
        let before = self.seen.fetch_or(came, Ordering::SeqCst);
        if !self.are_there(before) && self.are_there(before | came) && before & SPENT == 0 {
            self.seen.fetch_or(MET, Ordering::SeqCst);
        }
        if before & spent == 0 && !self.wait() {
            self.seen.fetch_or(spent, Ordering::SeqCst);
        }
    }
}
