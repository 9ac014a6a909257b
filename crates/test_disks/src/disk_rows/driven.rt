//! Slots over a disk and the model, driven by the same steps.

use crate::disk_rows::calling::{Answer, perform};
use crate::disk_rows::histories::History;
use crate::disk_rows::model::Model;
use crate::disk_rows::reopened::mark;
use crate::disk_rows::steps::Step;
use mem_disk::MemDisk;
use slot_txn::SlotTxn;
use std::alloc::{AllocError, Global};
use storage::{Disk, SlotFault, Slots};

/// Slots, and what the model says of them.
#[derive(Drop)]
pub struct Driven {
    slots: SlotTxn<MemDisk>,
    model: Model,
    history: History,
    /// A step answered Disk.
    failed: bool,
    /// How many steps were performed, commits among them, and those that answered otherwise than the
    /// model says.
    pub steps: u64,
    pub commits: u64,
    pub wrong: u64,
}

impl Driven {
    /// Slots that were just opened and read these bytes.
    pub fn new(alloc: Global, slots: SlotTxn<MemDisk>, bytes: &[u8]) -> Result<Driven, AllocError> {
        Ok(Driven {
            slots,
            model: Model::new(alloc, bytes)?,
            history: History::new(alloc, bytes)?,
            failed: false,
            steps: 0,
            commits: 0,
            wrong: 0,
        })
    }

    /// Performs a step that the model allows.
    pub fn take(&mut self, alloc: Global, step: &Step) -> Result<(), AllocError> {
        if !self.allows(step) {
            return Ok(());
        }
        self.steps = self.steps.saturating_add(1);
        match *step {
            Step::Commit(client) => self.commit(alloc, client),
            Step::Mark(client) => self.set_mark(alloc, client),
            Step::Back(client) => {
                let mark = self.mark(client);
                self.plain(alloc, step, mark)
            }
            Step::Begin(_) | Step::Write { .. } | Step::Abandon(_) => self.plain(alloc, step, 0),
        }
    }

    /// Whether the model allows the step.
    fn allows(&self, step: &Step) -> bool {
        self.model.allows(step)
    }

    /// Where a step back of the client goes to.
    fn mark(&self, client: u16) -> usize {
        self.model.mark(client)
    }

    /// How many writes of the client are not undone.
    fn standing(&self, client: u16) -> usize {
        self.model.standing(client)
    }

    /// What is committed once the client's transaction is.
    fn after_commit(&self, alloc: Global, client: u16) -> Result<Vec<u8>, AllocError> {
        self.model.after_commit(alloc, client)
    }

    /// What the model says that a slot reads.
    fn byte(&self, slot: u32) -> u64 {
        u64::from(self.model.byte(slot as usize))
    }

    /// Performs a step that answers no value. Where it is refused, nothing changes.
    fn plain(&mut self, alloc: Global, step: &Step, mark: usize) -> Result<(), AllocError> {
        match perform(&mut self.slots, step, mark) {
            Answer::Done => {
                if self.failed && !matches!(step, Step::Abandon(_)) {
                    self.wrong = self.wrong.saturating_add(1);
                }
                self.model.take(alloc, step)
            }
            answer => {
                self.refused(answer);
                Ok(())
            }
        }
    }

    /// Notes a refusal: that the disk failed, or a wrong one.
    fn refused(&mut self, answer: Answer) {
        if answer == Answer::Refused(SlotFault::Disk) {
            self.failed = true;
        } else {
            self.wrong = self.wrong.saturating_add(1);
        }
    }

    /// Makes a mark.
    fn set_mark(&mut self, alloc: Global, client: u16) -> Result<(), AllocError> {
        let step = Step::Mark(client);
        let at = Answer::At(self.standing(client) as u64);
        if perform(&mut self.slots, &step, 0) != at {
            self.wrong = self.wrong.saturating_add(1);
        }
        self.model.take(alloc, &step)
    }

    /// Commits the client's transaction.
    fn commit(&mut self, alloc: Global, client: u16) -> Result<(), AllocError> {
        let step = Step::Commit(client);
        let next = self.after_commit(alloc, client)?;
        let before = self.moment();
        match perform(&mut self.slots, &step, 0) {
            Answer::At(from) => {
                if self.failed || from > self.moment() {
                    self.wrong = self.wrong.saturating_add(1);
                }
                self.commits = self.commits.saturating_add(1);
                self.history.add(alloc, before, from, &next)?;
                self.model.take(alloc, &step)
            }
            answer => {
                if !self.failed {
                    self.history.add(alloc, before, u64::MAX, &next)?;
                }
                self.refused(answer);
                Ok(())
            }
        }
    }

    /// Compares what a slot reads with the model.
    pub fn compare(&mut self, slot: u32) {
        if slot >= 1 << 20 {
            return;
        }
        let want = self.byte(slot);
        let mut bytes = [0u8; 256];
        match self.slots.read(slot, &mut bytes) {
            Ok(()) => {
                if self.failed || mark(&bytes) != want {
                    self.wrong = self.wrong.saturating_add(1);
                }
            }
            Err(fault) => self.refused(Answer::Refused(fault)),
        }
    }

    /// The disk's moment.
    pub fn moment(&self) -> u64 {
        self.slots.slots.disk.moment()
    }

    /// The disk, and what a stop at each moment may leave.
    pub fn close(self) -> (MemDisk, History) {
        let history = self.history;
        (self.slots.close(), history)
    }
}
