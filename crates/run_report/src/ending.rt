//! How a command ended: its report, its refusal and its status.

ghost use Rattle.std.specs.Prelude.{◌≡◌, ◌+◌, ◌≤◌, length};
ghost use Rattle.run_report.specs.Ending.{IsRefused, WritesStatus, failure_refusal, first_failure, has_closed, is_failure, is_no_memory, one_lacks_memory, output_refusal, refusal_after, refusal_of_ends, status_after};

use crate::refusal::Refusal;
use crate::report::write_status;
use abl_base::{Bytes, Items};
use database_protocol::{Answer, ClientEnd, Event, Trace};
use host_io::Out;
use std::alloc::Global;

/// How clients ended, in client order.
pub type Ends = Items<ClientEnd>;

/// What a command did.
#[derive(Drop)]
pub struct Report {
    /// The status that the program ends with: 0, or that of the refusal.
    pub status: u8,
    /// What the clients requested and were answered; empty where no run began.
    pub trace: Trace,
    /// One end a client; empty where no run began.
    pub ends: Ends,
    pub refusal: Option<Refusal>,
}

/// The report of a command that was refused before a run began.
pub fn refused<O: Out>(alloc: Global, out: &mut O, names: &[Bytes], refusal: Refusal) -> Report
    ensures { IsRefused names.now refusal (O.state out.old) (O.state out.new) result }
{
    let _ = write_status(out, names, &[], &refusal);
    Report {
        status: refusal.status(),
        trace: Trace::empty(alloc),
        ends: Ends::empty(alloc),
        refusal: Some(refusal),
    }
}

/// Writes the lines of the status of a refusal, if there is one.
pub fn write_refusal<O: Out>(
    out: &mut O,
    names: &[Bytes],
    ends: &[ClientEnd],
    refusal: &Option<Refusal>,
)
    ensures { WritesStatus names.now ends.now refusal.now (O.state out.old) (O.state out.new) }
{
    if let Some(refusal) = refusal {
        let _ = write_status(out, names, ends, refusal);
    }
}

/// The status of the refusal, and 0 without one.
pub fn status_of(refusal: &Option<Refusal>) -> u8
    ensures { result ≡ status_after refusal.now }
{
    match refusal {
        Some(refusal) => refusal.status(),
        None => 0,
    }
}

/// Whether an event is answered Closed: the disk failed during the run.
pub fn has_closed(trace: &[Event]) -> bool
    ensures { result ≡ has_closed trace.now }
{
    trace
        .iter()
        .any(|event| matches!(event.answer, Answer::Closed))
}

/// The refusal of a run in which an event was answered Closed or none, whose clients ended so, and whose
/// report was written whole or not: the disk, out of memory, an end in Error or Stop, or a fault of the
/// output, the first that applies.
pub fn refusal_after(closed: bool, ends: &[ClientEnd], whole: bool) -> Option<Refusal>
    requires { length ends.now ≤ 65535 }
    ensures { result ≡ refusal_after closed ends.now whole }
{
    if closed {
        return Some(Refusal::Disk);
    }
    refusal_of_ends(ends, whole)
}

/// The refusal that follows from the ends of clients, where the disk did not fail.
fn refusal_of_ends(ends: &[ClientEnd], whole: bool) -> Option<Refusal>
    requires { length ends.now ≤ 65535 }
    ensures { result ≡ refusal_of_ends ends.now whole }
{
    if one_lacks_memory(ends) {
        return Some(Refusal::NoMemory);
    }
    match first_failure(ends, 0) {
        Some(first) => Some(Refusal::Client { first }),
        None => output_refusal(whole),
    }
}

/// Whether one of the clients was out of memory.
fn one_lacks_memory(ends: &[ClientEnd]) -> bool
    ensures { result ≡ one_lacks_memory ends.now }
{
    let Some((end, rest)) = ends.split_first() else {
        return false;
    };
    matches!(end, ClientEnd::NoMemory) || one_lacks_memory(rest)
}

/// The number of the first client that ended in Error or Stop; they have the numbers from this one
/// on.
fn first_failure(ends: &[ClientEnd], number: u16) -> Option<u16>
    requires { number + length ends.now ≤ 65535 }
    ensures { result ≡ first_failure number ends.now }
{
    let (end, rest) = ends.split_first()?;
    match end {
        ClientEnd::Error(_) | ClientEnd::Stop(_) => Some(number),
        _ => first_failure(rest, number + 1),
    }
}

/// Output, where the report was not written whole.
pub fn output_refusal(whole: bool) -> Option<Refusal>
    ensures { result ≡ output_refusal whole }
{
    if whole { None } else { Some(Refusal::Output) }
}
