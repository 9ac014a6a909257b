//! The statements that write to streams and redirect them. It depends on `lines` for their
//! texts, on `client_output` for the sections, and on `client_machine`. A layer above may rely on
//! the one contract of its arms: each keeps the rest of the run (`specs/Step.antt` of
//! `client_machine`). An arm looks its statement up at the place; where another one stands there,
//! it answers that there is no memory.
#![tactic(auto)]

pub mod closes;
mod given;
pub mod imports;
mod inputs;
pub mod lines;
pub mod outputs;
pub mod records;
mod redirect;
mod statement;
mod texts;
pub mod writes;

pub use closes::{close_input, close_output, open_input};
pub use imports::import;
pub use outputs::open_output;
pub use records::export_record;
pub use writes::{export, message, put};
