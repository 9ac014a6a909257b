//! A client that enters and leaves a level, a number of times.

ghost use Rattle.std.specs.Prelude.{◌≡◌};
ghost use Rattle.database_protocol.specs.declared.next_step.NextStep.{NextStep as Step};
ghost use Rattle.database_protocol.specs.declared.operation.Op.{Op as Operation};
ghost use Rattle.test_clients.specs.declared.script.Stage.{Stage as At};

use abl_base::{Items, Row, Value};
use client_runner::Session;
use database_protocol::{Answer, ClientEnd, NextStep, Op, RowIds};
use std::alloc::{AllocError, Global};

/// What a client does in each level that it enters.
#[derive(Clone, Copy, PartialEq, Eq)]
pub enum Work {
    /// Nothing, so no client waits for another.
    Nothing,
    /// It creates the record of code 1, and undoes that. The key is reserved until the client leaves
    /// the level, so the others wait for it.
    Creates,
}

impl Work {
    /// How many levels a client enters, one after the other.
    fn rounds(self) -> u32 {
        match self {
            Work::Nothing => 50,
            Work::Creates => 5,
        }
    }
}

/// What was requested last.
#[derive(Clone, Copy, PartialEq, Eq)]
pub enum Stage {
    Begins,
    Enters,
    Creates,
    Undoes,
    Leaves,
    Ends,
    Over,
}

/// A client with a number of rounds left, and how many records it created and how often it waited.
#[derive(Drop)]
pub struct Script {
    pub alloc: Global,
    pub work: Work,
    pub rounds: u32,
    pub stage: Stage,
    pub created: u64,
    pub waited: u64,
}

impl Script {
    /// A client that has not begun.
    pub fn new(alloc: Global, work: Work) -> Script {
        Script {
            alloc,
            work,
            rounds: work.rounds(),
            stage: Stage::Begins,
            created: 0,
            waited: 0,
        }
    }

    /// Counts a record that was created, or an answer after which the client waited.
    fn count(&mut self, answer: &Option<Answer>) {
        match answer {
            Some(Answer::Inserted { .. }) => self.created = self.created.saturating_add(1),
            Some(Answer::Blocked { .. }) => self.waited = self.waited.saturating_add(1),
            _ => {}
        }
    }

    /// What comes after the answer to the last request. After Blocked it is the same once more.
    fn next_stage(&self, answer: &Option<Answer>) -> Stage {
        match self.stage {
            Stage::Begins | Stage::Leaves if self.rounds > 0 => Stage::Enters,
            Stage::Enters if self.work == Work::Creates => Stage::Creates,
            Stage::Creates if matches!(answer, Some(Answer::Blocked { .. })) => Stage::Creates,
            Stage::Creates => Stage::Undoes,
            Stage::Enters | Stage::Undoes => Stage::Leaves,
            Stage::Begins | Stage::Leaves | Stage::Ends | Stage::Over => Stage::Ends,
        }
    }

    /// The next request, after the answer to the last one. Out of memory for a request, it is End.
    fn request(&mut self, answer: &Option<Answer>) -> Op
        ensures { result ≡ Operation.End → self.new.stage ≡ At.Ends }
    {
        self.stage = self.next_stage(answer);
        match self.stage {
            Stage::Enters => {
                self.rounds = self.rounds.saturating_sub(1);
                Op::Enter
            }
            Stage::Creates => match code(self.alloc) {
                Ok(values) => Op::Insert { table: 0, values },
                Err(_) => {
                    self.stage = Stage::Ends;
                    Op::End
                }
            },
            Stage::Undoes => Op::Back { depth: 1 },
            Stage::Leaves => Op::Leave {
                keep: RowIds::empty(self.alloc),
            },
            Stage::Begins | Stage::Ends | Stage::Over => {
                self.stage = Stage::Ends;
                Op::End
            }
        }
    }
}

/// The values of the record of code 1.
fn code(alloc: Global) -> Result<Row, AllocError> {
    let mut values = Vec::new(alloc);
    values.push(Value::Int(1))?;
    Ok(Items::from_vec(values))
}

impl Session for Script {
    ghost begins = { λ c m. ⊥ };

    ghost along = { λ c m own next. ⊥ };

    ghost shows = { λ c next. next ≡ Step.Ask Operation.End → c.stage ≡ At.Ends };

    ghost may_request = { λ op. Unit {0} };

    ghost suits = { λ c setting. Unit {0} };

    ghost careful = { λ m. Unit {0} };

    ghost certain = { λ op. ⊥ };

    fn resume(&mut self, answer: Option<Answer>) -> NextStep {
        match self.stage {
            Stage::Begins | Stage::Enters | Stage::Creates | Stage::Undoes | Stage::Leaves => {
                self.count(&answer);
                NextStep::Ask(self.request(&answer))
            }
            Stage::Ends | Stage::Over => {
                self.stage = Stage::Over;
                NextStep::Ended(ClientEnd::Normal)
            }
        }
    }

    ghost sure = { λ c setting m n own op suits careful along level fits unrefused. absurd along };
}
