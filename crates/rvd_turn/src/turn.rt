//! The turn lock.
ghost use Rattle.std.specs.Prelude.{◌≡◌, ◌+◌, ◌^◌, ◌<◌, ◌≤◌, ℕ, [], length, All, Some, true, false, IfOk, MatchResult, None};
ghost use Rattle.rvd_turn.specs.Story.{owned, Continues, IsPrefix};
ghost use Rattle.rvd_turn.specs.Known.{first_pass, split_off, met_by, taken_by, given_by, HoldsAll};
ghost use Rattle.rvd_turn.specs.Steps.{IsServed};

use crate::OutOfMemory;
use crate::pass::Pass;
use crate::rule::TurnRule;
use crate::steps::{Compare, Cut, Draw, Look, Meet, Number, On};
use crate::storied::Storied;
use crate::view::View;
use atomic_table::{Seat, Table};
use std::alloc::{AllocError, Global};
use std::marker::Model;
use std::snapshot::Snapshot;
use std::sync::Wait;

/// The word that has the ticket that is served.
const SERVING: usize = 0;

/// The word that has the next ticket.
const TICKET: usize = 1;

/// The word that has how many numbers were drawn.
const PASSES: usize = 2;

/// The slot of the value. It is empty while a pass has the turn.
const VALUE: usize = 0;

/// A lock whose value tells its story. It may be shared by threads, each with a pass of its own.
///
/// A contract sees which turn it is, so that a pass fits a turn where `pass.turn_id` equals it.
#[derive(Drop)]
pub struct Turn<T: Storied> {
    table: Table<Option<T>, View<T::Head, T::Entry>, Snapshot<T>, TurnRule<T>, Global>,
}

impl<T: Storied> Model for Turn<T> {
    ghost use Rattle.std.specs.Prelude.{◌≡◌};
    ghost use Rattle.atomic_table.specs.Seated.{TableId, table_id_coded};

    ghost Value = { TableId };

    ghost coded = { table_id_coded };

    ghost view = { λ t. t.table.shared.table_id };

    ghost invariant = { λ t. (t.table.shared.table_id.words ≡ 3) × (t.table.shared.table_id.slots ≡ 1) };
}

impl<T: Storied> Turn<T> {
    /// A turn round `value`, whose story has no entries yet, and its first pass, which has number 0.
    /// Where memory runs out, it answers `OutOfMemory` and the value is dropped.
    pub fn new(alloc: Global, value: T) -> Result<(Turn<T>, Pass<T>), OutOfMemory>
    where
        T: Drop,
        requires { T.entries value ≡ [] }
        ensures { IfOk result (λ r. r.1 ≡ first_pass r.0 (T.head value)) }
    {
        let about = Snapshot::of(&value);
        let mut slots = Vec::new(alloc);
        slots.push(Some(value))?;
        let Ok((table, seat)) = Table::new(alloc, &[0, 0, 1], slots, &about) else {
            return Err(AllocError);
        };
        Ok((Turn { table }, Pass { seat }))
    }

    /// Splits a new pass off the pass that holds number 0. Its number is *made*, which then rises by 1; it has
    /// seen what `pass` has seen, and has no entries of its own yet.
    ///
    /// *made* is above 0 exactly at the pass that holds number 0. After `OutOfMemory`, the one error, `pass` is
    /// as before. Today's split takes no memory; a caller may not rely on that.
    pub fn split(&self, _alloc: Global, pass: &mut Pass<T>) -> Result<Pass<T>, OutOfMemory>
        requires this_turn { pass.old.turn_id ≡ self.now }
        requires holds_zero { 0 < pass.old.made }
        requires few { pass.old.made < 2 ^ 63 }
        ensures given { IfOk result (λ p. p ≡ split_off pass.old) }
        ensures kept { MatchResult result (λ _. pass.new ≡ record pass.old { made = pass.old.made + 1 }) (λ _. pass.new ≡ pass.old) }
    {
        let shared = &self.table.shared;
        shared.fetch_add::<Number<T>>(&mut pass.seat, PASSES, 1);
        let seat = shared.split_seat::<Cut>(&mut pass.seat);
        Ok(Pass { seat })
    }

    /// Waits for the turn and takes the value. The value's story begins with all that the pass has seen, and
    /// has of the pass's number, and of each number that it met, just that pass's own entries, in order.
    ///
    /// It takes no memory, and may wait. That the turn ever comes is not claimed: a pass that is dropped while it
    /// has the turn keeps it.
    pub fn take<R: Wait>(&self, rt: &R, pass: &mut Pass<T>) -> T
        requires this_turn { pass.old.turn_id ≡ self.now }
        requires no_turn { pass.old.turn ≡ false }
        ensures pass { pass.new ≡ taken_by pass.old (T.entries result) }
        ensures head { pass.old.head ≡ Some (T.head result) }
        ensures seen { IsPrefix pass.old.seen (T.entries result) }
        ensures own { owned T.owner pass.old.number (T.entries result) ≡ pass.old.own }
        ensures met { All (λ m. owned T.owner m.0 (T.entries result) ≡ m.1) pass.old.met }
    {
        self.wait_turn(rt, &mut pass.seat);
        let found = self.table.shared.exchange(&mut pass.seat, VALUE, None);
        let Some(value) = found else { unreachable!() };
        value
    }

    /// Gives the value back: its story is the one that was taken, followed by entries of the pass's number
    /// alone, none or more. The pass's own entries gain these. It takes no memory and doesn't wait.
    pub fn give(&self, pass: &mut Pass<T>, value: T)
        requires this_turn { pass.old.turn_id ≡ self.now }
        requires turn { pass.old.turn ≡ true }
        requires head { pass.old.head ≡ Some (T.head value) }
        requires entries { Continues T.owner pass.old.number pass.old.seen (T.entries value) }
        ensures { pass.new ≡ given_by pass.old (T.entries value) }
    {
        let shared = &self.table.shared;
        let found = shared.exchange(&mut pass.seat, VALUE, Some(value));
        let None = found else { unreachable!() };
        shared.fetch_add::<On<T>>(&mut pass.seat, SERVING, 1);
        self.wake_waiting();
    }

    /// Takes in another pass. `pass` then holds its numbers too, with the own entries of each, and has seen the
    /// longer of both stories, of which what either had seen is a prefix.
    pub fn meet(&self, pass: &mut Pass<T>, other: Pass<T>)
        requires this_turn { (pass.old.turn_id ≡ self.now) × (other.turn_id ≡ self.now) }
        requires no_turn { (pass.old.turn ≡ false) × (other.turn ≡ false) }
        ensures both { pass.new ≡ met_by pass.old other }
        ensures this { IsPrefix pass.old.seen pass.new.seen }
        ensures that { IsPrefix other.seen pass.new.seen }
    {
        let shared = &self.table.shared;
        let Pass { seat } = other;
        shared.join_seat::<Meet>(&mut pass.seat, seat);
        shared.load::<Compare<T>>(&mut pass.seat, SERVING);
    }

    /// Ends the turn and gives its value. The pass holds every number below *made*, so each pass that was split
    /// off has met it. The value's story begins with all that any of them saw, has of each number just that
    /// pass's own entries, in order, and has no entries of other numbers.
    pub fn close(self, pass: Pass<T>) -> T
        requires this_turn { pass.turn_id ≡ self }
        requires no_turn { pass.turn ≡ false }
        requires all { HoldsAll pass }
        ensures head { pass.head ≡ Some (T.head result) }
        ensures seen { IsPrefix pass.seen (T.entries result) }
        ensures own { owned T.owner pass.number (T.entries result) ≡ pass.own }
        ensures met { All (λ m. owned T.owner m.0 (T.entries result) ≡ m.1) pass.met }
        ensures others { (n : ℕ) → pass.made ≤ n → owned T.owner n (T.entries result) ≡ [] }
    {
        let Turn { table } = self;
        let Pass { seat } = pass;
        let mut closed = table.close_with(seat);
        let value = closed.take(VALUE);
        closed.free();
        let Some(value) = value else { unreachable!() };
        value
    }
}

impl<T: Storied> Turn<T> {
    // Draws a ticket and looks until it is served, asleep between two looks. The slot is then with the seat.
    fn wait_turn<R: Wait>(&self, rt: &R, seat: &mut Seat<Option<T>, View<T::Head, T::Entry>>)
        requires this_turn { seat.old.table_id ≡ self.now }
        requires idle { (seat.old.me.0.live ≡ true) × (seat.old.me.0.turn ≡ false) × (seat.old.me.0.ticket ≡ None) }
        ensures same { (seat.new.table_id ≡ seat.old.table_id) × (seat.new.id ≡ seat.old.id) }
        ensures got { IsServed T.head T.entries T.owner seat.old.me seat.new.me }
    {
        let shared = &self.table.shared;
        let ticket = shared.fetch_add::<Draw<T>>(seat, TICKET, 1);
        for _ in rt.forever() {
            let now = shared.load::<Look<T>>(seat, SERVING);
            if now == ticket {
                return;
            }
            // A sleeper compares the low 32 bits of the word.
            shared.park(rt, SERVING, (now % (1 << 32)) as u32);
        }
        unreachable!()
    }

    // Wakes once for each ticket that is out: one wake may reach another sleeper than the next in order.
    fn wake_waiting(&self) {
        let shared = &self.table.shared;
        let serving = shared.peek(SERVING);
        let ticket = shared.peek(TICKET);
        for _ in 0..ticket.wrapping_sub(serving) {
            shared.wake_one(SERVING);
        }
    }
}
