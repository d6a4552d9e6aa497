//! Passes, which let a thread take turns.
use crate::storied::Storied;
use crate::view::View;
use atomic_table::Seat;
use std::marker::Model;

/// A pass of a turn: with it a thread takes the value and gives it back. It has no bytes.
///
/// A contract sees which turn it is of, its number, the entries that it has seen and its own ones, the
/// numbers and own entries of the passes that it met, how many numbers were *made*, and whether it has the
/// turn (`Known` in `specs/Known.antt`). *made* is above 0 at the pass that holds number 0, its own or by a
/// meeting, and 0 at every other pass: the first pass has number 0 and *made* 1, a pass that is split off has
/// another number and *made* 0, and a meeting puts numbers together and adds *made*.
#[derive(Drop)]
pub struct Pass<T: Storied> {
    pub(crate) seat: Seat<Option<T>, View<T::Head, T::Entry>>,
}

impl<T: Storied> Model for Pass<T> {
    ghost use Rattle.rvd_turn.specs.Known.{Known, known, Rests};

    ghost Value = { Known T.Head T.Entry };

    ghost view = { λ p. known p.seat.table_id p.seat.me.0 };

    ghost invariant = { λ p. Rests p.seat.me };
}
