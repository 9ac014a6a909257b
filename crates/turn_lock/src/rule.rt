// The rule of the table, which every step keeps.
ghost use Rattle.turn_lock.specs.Rule.{IsKept};
ghost use Rattle.turn_lock.specs.View.{first_view};

use crate::journal::Journal;
use crate::view::{Key, View};
use atomic_table::TableRule;
use std::marker::PhantomData;

/// The rule of a lock over values of `T`.
pub struct TurnRule<T> {
    of: PhantomData<T>,
}

impl<T: Journal> TableRule<Option<T>, View<T, T::Entry>, Key<T>> for TurnRule<T> {
    ghost holds = { λ key. IsKept T.entries T.client T.origin key };

    ghost first = { λ key. first_view key };
}
