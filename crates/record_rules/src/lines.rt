//! The lines about faults of statements: what each reports, with the names of buffers, tables,
//! fields and indexes as the source and the schema spell them. It depends on `block_meaning`, whose
//! `Lines.antt` defines each line. A layer above may rely on `complaint_line`: it returns exactly
//! that line.

pub mod complaint;
pub mod lines;
pub mod names;

pub use complaint::{Complaint, complaint_about};
pub use lines::complaint_line;
