//! The disk of a database over three files of the machine: `DiskFiles`, the implementation of `Disk`
//! that the program runs over. It depends on `storage`. What real files hold is not observable
//! in proofs; that a read or a write in parts is one whole read or write is proved over any file
//! that does each part (`area_file`, `transfers`).
#![tactic(auto)]

mod area_file;
mod disk_files;
mod fault;
mod names;
mod open_files;
mod transfers;

pub use area_file::AreaFile;
pub use disk_files::DiskFiles;
pub use transfers::{read_from, write_to};
