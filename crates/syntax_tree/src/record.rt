//! How records are selected and locked.

use crate::expression::Expression;
use crate::name::Word;
use abl_base::Place;
use bound_tree::LockWanted;

/// An option of FIND or of a FOR; NO-WAIT and NO-ERROR follow FIND alone. The place is that of its
/// first token.
#[derive(Drop)]
pub enum RecordOption {
    Where { at: Place, test: Expression },
    UseIndex { at: Place, index: Word },
    Lock { at: Place, lock: LockWanted },
    NoWait { at: Place },
    NoError { at: Place },
}
