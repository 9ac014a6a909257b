//! How a record is changed, step by step: the lock before the change, assigning to a field, storing a
//! changed record, CREATE and DELETE. It depends on `buffers` for the buffers of the
//! running procedure and on `record_rules` for what may be stored. A layer above may rely on
//! `specs/Steps.antt`: each call changes the buffers as the step of `flat_machine` does, and returns
//! how the step continues.

pub mod creates;
pub mod deletes;
pub mod fields;
pub mod locks;
pub mod stores;

pub use creates::new_record;
pub use deletes::{DeleteStep, begin_delete};
pub use fields::set_field;
pub use locks::{ChangeLock, lock_for_change};
pub use stores::{StoreStep, settle};
