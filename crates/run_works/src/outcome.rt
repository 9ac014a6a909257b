//! What a command did, with the disk.

use run_report::Report;

/// What a command did: its report, and the disk, which is handed back in every case.
#[derive(Drop)]
pub struct Outcome<D> {
    pub report: Report,
    pub disk: D,
}
