//! The kinds of step: what each tells the pass that takes it, and how views are cut and joined.
//! `out` and `home`, which move the value, change no view: they are `exchange` of the table.
ghost use Rattle.rvd_turn.specs.Views.{fresh, giver, joined, spent};
ghost use Rattle.rvd_turn.specs.Steps.{Numbers, Draws, Compares, Looks, Serves};

use crate::storied::Storied;
use crate::view::View;
use atomic_table::{Join, Play, Split};
use std::marker::PhantomData;

/// *number*: one more number is drawn.
pub(crate) struct Number<T> {
    of: PhantomData<T>,
}

impl<T: Storied> Play<Option<T>, View<T::Head, T::Entry>> for Number<T> {
    ghost then = { Numbers T.head T.entries T.owner };
}

/// *split*: a new pass gets the number that was drawn.
pub(crate) struct Cut;

impl<H, E> Split<View<H, E>> for Cut {
    ghost left = { giver };

    ghost right = { fresh };
}

/// *join*: one pass takes in another, which is then spent.
pub(crate) struct Meet;

impl<H, E> Join<View<H, E>> for Meet {
    ghost both = { joined };

    ghost spent = { spent };
}

/// The look after a join, which tells that what both passes had seen are prefixes.
pub(crate) struct Compare<T> {
    of: PhantomData<T>,
}

impl<T: Storied> Play<Option<T>, View<T::Head, T::Entry>> for Compare<T> {
    ghost then = { Compares T.head T.entries T.owner };
}

/// *ticket*: a ticket is drawn.
pub(crate) struct Draw<T> {
    of: PhantomData<T>,
}

impl<T: Storied> Play<Option<T>, View<T::Head, T::Entry>> for Draw<T> {
    ghost then = { Draws T.head T.entries T.owner };
}

/// *look*: a load of `serving`, which gives the turn where it finds the ticket.
pub(crate) struct Look<T> {
    of: PhantomData<T>,
}

impl<T: Storied> Play<Option<T>, View<T::Head, T::Entry>> for Look<T> {
    ghost then = { Looks T.head T.entries T.owner };
}

/// *on*: the next ticket is served, and the new entries are part of the story.
pub(crate) struct On<T> {
    of: PhantomData<T>,
}

impl<T: Storied> Play<Option<T>, View<T::Head, T::Entry>> for On<T> {
    ghost then = { Serves T.head T.entries T.owner };
}
