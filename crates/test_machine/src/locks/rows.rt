//! One row: a request of a client, or another call.

use crate::locks::written::{freed_text, lock_text, numbered};
use abl_base::{Items, RowId};
use database_protocol::RowIds;
use record_locks::{BlockedLock, KeyWait, KeyWaits, Locks};
use std::alloc::{AllocError, Global};

/// The locks, and what one client waits for by a key.
#[derive(Drop)]
pub struct Table {
    locks: Locks,
    key_waits: KeyWaits,
}

impl Table {
    /// No client holds or waits for anything.
    pub fn new(alloc: Global) -> Table {
        Table {
            locks: Locks::new(alloc),
            key_waits: Items::empty(alloc),
        }
    }

    /// The answer to a row, as `0 share 8192`.
    pub fn answer(&mut self, alloc: Global, row: &str) -> Result<String, AllocError> {
        let (client, rest) = row.split_once(' ').unwrap_or((row, ""));
        let (verb, argument) = rest.split_once(' ').unwrap_or((rest, ""));
        let number = argument.parse::<u32>().unwrap_or(0);
        match client.parse::<u16>() {
            Ok(client) => self.answer_to(alloc, client, verb, number),
            Err(_) => String::from_str(alloc, "no row"),
        }
    }

    /// The answer to a client.
    fn answer_to(
        &mut self,
        alloc: Global,
        client: u16,
        verb: &str,
        number: u32,
    ) -> Result<String, AllocError> {
        match verb {
            "share" => self.request(alloc, client, number, false, true),
            "exclusive" => self.request(alloc, client, number, true, true),
            "try-share" => self.request(alloc, client, number, false, false),
            "try-exclusive" => self.request(alloc, client, number, true, false),
            "key" => self.wait_for_key(alloc, client, number),
            "cycle" => self.cycle(alloc, client, number),
            _ => {
                let text = self.call(alloc, client, verb, RowId(number))?;
                String::from_str(alloc, text)
            }
        }
    }

    /// A request for a lock, decided and applied by the calls that the database makes for it.
    fn request(
        &mut self,
        alloc: Global,
        client: u16,
        row: u32,
        exclusive: bool,
        wait: bool,
    ) -> Result<String, AllocError> {
        let row = RowId(row);
        let against = self.locks.against(alloc, client, row, exclusive)?;
        if against.len() == 0 {
            self.locks.grant(alloc, client, row, exclusive)?;
            return String::from_str(alloc, "Granted");
        }
        if !wait {
            self.locks.end_wait(client);
            return numbered(alloc, "Busy", against.as_slice());
        }
        match self.locks.would_cycle(client, &against, &self.key_waits)? {
            Some(cycle) => {
                self.locks.end_wait(client);
                numbered(alloc, "Deadlock", cycle.as_slice())
            }
            None => {
                self.locks
                    .block(alloc, client, BlockedLock { row, exclusive })?;
                numbered(alloc, "Blocked", against.as_slice())
            }
        }
    }

    /// The client waits for another one by a key.
    fn wait_for_key(
        &mut self,
        alloc: Global,
        client: u16,
        holder: u32,
    ) -> Result<String, AllocError> {
        let holders = Items::of(alloc, &[u16::try_from(holder).unwrap_or(0)])?;
        self.key_waits = Items::from_vec(vec![in alloc; KeyWait { client, holders }]?);
        String::from_str(alloc, "waits")
    }

    /// The cycle that would close if the client waited for another one.
    fn cycle(&self, alloc: Global, client: u16, holder: u32) -> Result<String, AllocError> {
        let holders = Items::of(alloc, &[u16::try_from(holder).unwrap_or(0)])?;
        match self.locks.would_cycle(client, &holders, &self.key_waits)? {
            Some(cycle) => numbered(alloc, "Deadlock", cycle.as_slice()),
            None => String::from_str(alloc, "none"),
        }
    }

    /// A call that takes no memory.
    fn call(
        &mut self,
        alloc: Global,
        client: u16,
        verb: &str,
        row: RowId,
    ) -> Result<&'static str, AllocError> {
        let text = match verb {
            "held" => lock_text(self.locks.held(client, row)),
            "release" => freed_text(self.locks.release(client, row)),
            "commit" => {
                let keep = RowIds::of(alloc, &[row])?;
                freed_text(self.locks.end_transaction(client, &keep))
            }
            "end" => freed_text(self.locks.end(client)),
            "end-wait" => {
                self.locks.end_wait(client);
                "done"
            }
            _ => "no row",
        };
        Ok(text)
    }
}
