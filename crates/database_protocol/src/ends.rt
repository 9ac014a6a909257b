//! How a client ends.

ghost use Rattle.std.specs.Prelude.{◌≡◌};
ghost use Rattle.database_protocol.specs.Ends.{stop_name};

use abl_base::Bytes;

/// Why a client stops before its program ends.
#[derive(Clone, Copy, Debug, PartialEq, Eq)]
pub enum StopWhy {
    /// Waiting for a record would have closed a cycle of waiting clients.
    Deadlock,
    /// No unit is left (units are this project's choice).
    Budget,
    /// The STOP statement.
    Statement,
    /// The database was closed by a fault of the disk.
    Closed,
    /// The slot writes of one transaction are used up.
    TxFull,
    /// The trace would pass its limit.
    TraceFull,
    /// The output would pass 16 MiB.
    OutputFull,
    /// A 33rd RUN would be open.
    Depth,
}

impl StopWhy {
    /// The name that the line about the client prints, as `Budget`.
    pub fn name(&self) -> &'static [u8]
        ensures { result.now ≡ stop_name self.now }
    {
        match self {
            StopWhy::Deadlock => b"Deadlock",
            StopWhy::Budget => b"Budget",
            StopWhy::Statement => b"Statement",
            StopWhy::Closed => b"Closed",
            StopWhy::TxFull => b"TxFull",
            StopWhy::TraceFull => b"TraceFull",
            StopWhy::OutputFull => b"OutputFull",
            StopWhy::Depth => b"Depth",
        }
    }
}

/// How a client ends. Before each end it asks the operation End.
#[derive(Drop)]
pub enum ClientEnd {
    /// The external procedure's block was left.
    Normal,
    /// The RETURN statement ended the external procedure.
    Returned,
    /// RETURN ERROR ended the external procedure, with this text.
    Error(Bytes),
    /// It stopped.
    Stop(StopWhy),
    /// Out of memory.
    NoMemory,
}
