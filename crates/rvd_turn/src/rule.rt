//! The rule that the table of a turn keeps.
ghost use Rattle.rvd_turn.specs.Views.{opener};
ghost use Rattle.rvd_turn.specs.Rule.{Kept};

use crate::storied::Storied;
use crate::view::View;
use atomic_table::TableRule;
use std::marker::PhantomData;
use std::snapshot::Snapshot;

/// The rule of the turn. The table's key remembers the value that it was made with, for its head.
pub(crate) struct TurnRule<T> {
    of: PhantomData<T>,
}

impl<T: Storied> TableRule<Option<T>, View<T::Head, T::Entry>, Snapshot<T>> for TurnRule<T> {
    ghost holds = { λ _. Kept T.head T.entries T.owner };

    ghost first = { λ k. opener (T.head k.value) };
}
