//! What of the table of answers depends on neither rows nor locks: the table from some row on
//! (`specs/Stages.antt`), whether values fit a table, and the sizes of rows and events. Both machines,
//! the database and its model, answer by it. It depends on `database_meaning` for the definitions.

pub mod events;
pub mod rows;
