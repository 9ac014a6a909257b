//! The moves of one change over the indexes of all tables: those that enter are made with a way back,
//! those that leave are checked first and then made without memory, and a client's end. It depends on
//! `row_indexes`, whose definitions say what moves do to places and keepers. A row store makes the
//! enters before it writes the row, forgets them where that fails, and makes the leaves after it.

pub mod ending;
pub mod entering;
pub mod forgetting;
pub mod laws;
pub mod leaving;

pub use ending::end_all;
pub use entering::{Before, enter_all};
pub use forgetting::forget_all;
pub use leaving::{can_leave, leave_all};
