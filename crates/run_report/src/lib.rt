//! What a command says: the text of a run, the lines of its trace, and the lines on how the command
//! ended. It depends on the types alone, and knows neither a database nor a client. The layer above
//! relies on exact texts (specs/Report.antt, specs/Trace.antt) and on the refusal that follows from how
//! clients ended (specs/Ending.antt).
#![tactic(auto)]

pub mod ending;
pub mod refusal;
pub mod report;
pub mod trace;

pub use ending::{
    Ends, Report, has_closed, output_refusal, refusal_after, refused, status_of, write_refusal,
};
pub use refusal::Refusal;
pub use report::{ReportForm, line_end, write_part, write_report, write_status};
pub use trace::write_trace;
