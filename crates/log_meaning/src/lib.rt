//! What the three areas of a database's disk mean: the notes of the before-image log, and the
//! recovered slots. `specs/Recovered.antt` has the slots that a list of notes recovers to,
//! `specs/Bytes.antt` the bytes of notes, batches and headers, `specs/Images.antt` what an image
//! recovers to. It depends on `storage`. The layers above rely on these definitions and on the
//! lemmas in `proofs/`.
#![tactic(auto)]

pub mod note;
pub mod steps;

pub use note::{Change, Note};
