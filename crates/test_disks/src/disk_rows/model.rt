//! A plain model of the first slots, one byte each: a list of old bytes for each client.

use crate::disk_rows::steps::Step;
use std::alloc::{AllocError, Global};

/// How many slots the model has.
pub const SLOTS: usize = 24;

/// A write that can be undone.
#[derive(Clone, Copy)]
struct Old {
    slot: usize,
    byte: u8,
}

/// A client of the model.
#[derive(Drop)]
pub struct Client {
    begun: bool,
    undo: Vec<Old>,
    written: Vec<usize>,
    mark: usize,
}

/// What the slots read, what is committed, and the clients.
#[derive(Drop)]
pub struct Model {
    now: Vec<u8>,
    committed: Vec<u8>,
    clients: Vec<Client>,
}

/// The byte of a slot, 0 past the last one.
fn byte_at(slots: &[u8], slot: usize) -> u8 {
    if slot < slots.len() { slots[slot] } else { 0 }
}

/// Sets the byte of a slot that the model has.
fn set(slots: &mut [u8], slot: usize, byte: u8) {
    if slot < slots.len() {
        slots[slot] = byte;
    }
}

impl Model {
    /// Slots with these bytes, and sixteen clients without a transaction.
    pub fn new(alloc: Global, bytes: &[u8]) -> Result<Model, AllocError> {
        let mut clients = Vec::new(alloc);
        for _ in 0..16u32 {
            clients.push(Client {
                begun: false,
                undo: Vec::new(alloc),
                written: Vec::new(alloc),
                mark: 0,
            })?;
        }
        Ok(Model {
            now: bytes.to_vec(alloc)?,
            committed: bytes.to_vec(alloc)?,
            clients,
        })
    }

    /// What the slot reads.
    pub fn byte(&self, slot: usize) -> u8 {
        byte_at(&self.now, slot)
    }

    /// What is committed.
    pub fn committed(&self) -> &[u8] {
        &self.committed
    }

    /// Where a step back of the client goes to.
    pub fn mark(&self, client: u16) -> usize {
        match self.clients.get(usize::from(client)) {
            Some(client) => client.mark,
            None => 0,
        }
    }

    /// How many writes of the client are not undone.
    pub fn standing(&self, client: u16) -> usize {
        match self.clients.get(usize::from(client)) {
            Some(client) => client.undo.len(),
            None => 0,
        }
    }

    /// Whether the client has begun a transaction.
    fn is_begun(&self, client: u16) -> bool {
        match self.clients.get(usize::from(client)) {
            Some(client) => client.begun,
            None => false,
        }
    }

    /// Whether the client may write the slot.
    fn may_write(&self, client: u16, slot: usize) -> bool {
        let mut alone = true;
        for (number, other) in self.clients.iter().enumerate() {
            if number != usize::from(client) && other.begun && other.written.contains(&slot) {
                alone = false;
            }
        }
        alone && slot < self.now.len() && self.is_begun(client)
    }

    /// Whether the step has a meaning now.
    pub fn allows(&self, step: &Step) -> bool {
        match *step {
            Step::Begin(client) => client < 16 && !self.is_begun(client),
            Step::Write { client, slot, .. } => self.may_write(client, slot as usize),
            Step::Mark(client) | Step::Back(client) => self.is_begun(client),
            Step::Commit(client) | Step::Abandon(client) => self.is_begun(client),
        }
    }

    /// What is committed once the client's transaction is.
    pub fn after_commit(&self, alloc: Global, client: u16) -> Result<Vec<u8>, AllocError> {
        let mut next = self.committed.to_vec(alloc)?;
        if let Some(client) = self.clients.get(usize::from(client)) {
            for old in &client.undo {
                set(&mut next, old.slot, byte_at(&self.now, old.slot));
            }
        }
        Ok(next)
    }

    /// Does the step, which is allowed.
    pub fn take(&mut self, alloc: Global, step: &Step) -> Result<(), AllocError> {
        match *step {
            Step::Begin(client) => self.end(client, true),
            Step::Write { client, slot, byte } => self.write(client, slot as usize, byte)?,
            Step::Mark(client) => self.set_mark(client),
            Step::Back(client) => {
                let stand = self.mark(client);
                self.undo(client, stand);
            }
            Step::Commit(client) => {
                self.committed = self.after_commit(alloc, client)?;
                self.end(client, false);
            }
            Step::Abandon(client) => {
                self.undo(client, 0);
                self.end(client, false);
            }
        }
        Ok(())
    }

    /// Writes the slot.
    fn write(&mut self, client: u16, slot: usize, byte: u8) -> Result<(), AllocError> {
        let old = Old {
            slot,
            byte: self.byte(slot),
        };
        if let Some(client) = self.clients.get_mut(usize::from(client)) {
            client.undo.push(old)?;
            client.written.push(slot)?;
        }
        set(&mut self.now, slot, byte);
        Ok(())
    }

    /// Notes where the client is.
    fn set_mark(&mut self, client: u16) {
        if let Some(client) = self.clients.get_mut(usize::from(client)) {
            client.mark = client.undo.len();
        }
    }

    /// Takes the client's last write.
    fn pop(&mut self, client: u16) -> Option<Old> {
        self.clients.get_mut(usize::from(client))?.undo.pop()
    }

    /// Undoes the client's writes but the first `stand`.
    fn undo(&mut self, client: u16, stand: usize) {
        let count = self.standing(client);
        for _ in stand..count {
            if let Some(old) = self.pop(client) {
                set(&mut self.now, old.slot, old.byte);
            }
        }
    }

    /// The client is without writes, with a transaction or without.
    fn end(&mut self, client: u16, begun: bool) {
        if let Some(client) = self.clients.get_mut(usize::from(client)) {
            client.begun = begun;
            client.undo.clear();
            client.written.clear();
            client.mark = 0;
        }
    }
}
