//! What the slots of a database hold: the text of its schema, the values of its sequences, and rows
//! (`specs/Contents.antt`), and which images are those of a database (`specs/Born.antt`). It has
//! definitions and laws, and no code. It depends on `slot_rows` and `sequence_slots` for what
//! slots decode to, and on `log_meaning` for what an image recovers to.
