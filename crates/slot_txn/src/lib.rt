//! `SlotTxn`: slots with transactions over any disk, as `Slots`. It depends on `logged`, which
//! has the parts of each call, and on `bi_recovery` to open them.
#![tactic(auto)]

mod log_area;
pub mod logged;
mod opening;
mod recovering;
mod slot_txn;
mod slots;
mod torn_slot;

pub use crate::slot_txn::SlotTxn;
pub use bi_recovery::OpenFault;
