//! Rows of images and of calls on slots over a disk in memory: a row, as `head 1 1`, and its answer. A row
//! makes the three areas, or opens them as slots and compares these with a plain model: step by step, and
//! after stops. What each row does is in the README.

mod areas;
mod calling;
mod driven;
mod histories;
mod images;
mod long;
mod model;
mod reopened;
mod rows;
mod schedules;
mod steps;
mod sweeps;
mod words;

pub use areas::Areas;
pub use long::commit_one;
pub use reopened::{Reopened, disk_of, disk_over, images_recovered, reads};
pub use rows::answer;
pub use sweeps::{WAYS, stopped, torn};
pub use words::{is_multiple, number, numbers};
