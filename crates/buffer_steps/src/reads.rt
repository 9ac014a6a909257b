//! How a record is read, step by step: the search of FIND and FOR, the second match, the lock, the
//! second reading, and FIND CURRENT. It depends on `record_rules::readings` and `record_rules`, and on
//! buffers through the trait `RecordBuffers`. A layer above may rely on `specs/Steps.antt`: each
//! call changes the buffers as the step of `flat_machine` does, and returns how the step continues.

pub mod buffers;
pub mod current;
pub mod laws;
pub mod locks;
pub mod search;
pub mod starts;
pub mod tests;

pub use buffers::{Current, RecordBuffers};
pub use current::{begin_current, read_current};
pub use locks::{read_again, settle_grant};
pub use search::{NextTest, show_next, show_second};
pub use starts::{FetchStart, FindStart, fetch_start, find_start};
