//! What a client and a database say to each other: operations, answers, events, what a client does
//! next, and how it ends. Types, with the definitions on them alone. It depends on `abl_base`; the
//! database machine, the meaning of blocks and whatever runs them depend on it, and on nothing of
//! each other through it.
#![tactic(auto)]

pub mod answer;
pub mod ends;
pub mod event;
pub mod next_step;
pub mod operation;
pub mod row_order;

pub use answer::Answer;
pub use ends::{ClientEnd, StopWhy};
pub use event::{Event, Trace};
pub use next_step::NextStep;
pub use operation::Op;
pub use row_order::{ClientIds, Cursor, RowIds};
