//! Rows of calls on a disk over real files, as `0 write 0 3 abc`.

mod calls;
mod disks;
mod many;

pub use calls::answer as call_answer;
pub use disks::Disks;
