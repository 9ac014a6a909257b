//! The disk of a run, with what is known of it since the run began: a type parameter for the beginning
//! (`Start`), and the disk (`Watched`). Whoever runs clients over a database says of the one that it
//! hands back only that it was opened with the same contents; the type of the disk below it says that
//! the images of the beginning are still those.

pub mod start;
pub mod watched;

pub use start::Start;
pub use watched::Watched;
