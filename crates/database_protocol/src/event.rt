//! The events of a run.

use crate::answer::Answer;
use crate::operation::Op;
use abl_base::Items;

/// One step of the database: which client asked what, and what it was answered.
#[derive(Drop)]
pub struct Event {
    pub client: u16,
    pub op: Op,
    pub answer: Answer,
}

/// The events of a run, in order.
pub type Trace = Items<Event>;
