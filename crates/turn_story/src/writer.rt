//! A writer: a pass of the turn, and what can be done with it.
ghost use Rattle.std.specs.Prelude.{◌≡◌, ℕ, List, [], ◌∷◌, ◌++◌, length, true, false, MatchResult, IfOk, OnErr};
ghost use Rattle.rvd_turn.specs.Story.{IsPrefix, owned};
ghost use Rattle.rvd_turn.specs.Known.{met_by};
ghost use Rattle.turn_story.specs.Written.{note};

use crate::story::{Note, Story};
use rvd_turn::{OutOfMemory, Pass, Turn};
use std::alloc::Global;
use std::marker::Model;
use std::sync::Wait;

/// A pass whose owner writes notes. To a contract it is its pass, which has the owner's number and not the turn.
#[derive(Drop)]
pub struct Writer {
    owner: u32,
    pass: Pass<Story>,
}

impl Model for Writer {
    ghost use Rattle.std.specs.Prelude.{◌≡◌, ℕ, false};
    ghost use Rattle.rvd_turn.specs.Known.{Known};
    ghost use Rattle.turn_story.specs.declared.story.Note.{Note};

    ghost Value = { Known ℕ Note };

    ghost view = { λ w. w.pass };

    ghost invariant = { λ w. (w.pass.number ≡ w.owner) × (w.pass.turn ≡ false) };
}

impl Writer {
    /// The writer of a pass, whose number is `owner`.
    pub fn new(owner: u32, pass: Pass<Story>) -> Writer
        requires { (pass.number ≡ owner) × (pass.turn ≡ false) }
        ensures { result ≡ pass }
    {
        Writer { owner, pass }
    }

    /// Gives the pass back.
    pub fn finish(self) -> Pass<Story>
        ensures same { result ≡ self }
        ensures no_turn { result.turn ≡ false }
    {
        self.pass
    }

    /// Adds one note of the writer's own, with this number. After `OutOfMemory` it added none.
    pub fn write<R: Wait>(
        &mut self,
        rt: &R,
        turn: &Turn<Story>,
        number: u64,
    ) -> Result<(), OutOfMemory>
        requires { self.old.turn_id ≡ turn.now }
        ensures seen { IsPrefix self.old.seen self.new.seen }
        ensures told { MatchResult result (λ _. self.new ≡ record self.old { own = self.old.own ++ note self.old.number number ∷ []; seen = self.new.seen }) (λ _. self.new ≡ record self.old { seen = self.new.seen }) }
    {
        let mut story = turn.take(rt, &mut self.pass);
        let answer = story.push(Note {
            owner: self.owner,
            number,
        });
        turn.give(&mut self.pass, story);
        answer
    }

    /// Copies the story as it is at one turn. It begins with all that the writer has seen, and has of its
    /// number just the writer's own notes. `OutOfMemory` comes where there is no memory for the copy.
    pub fn read<R: Wait>(
        &mut self,
        rt: &R,
        alloc: Global,
        turn: &Turn<Story>,
    ) -> Result<Story, OutOfMemory>
        requires { self.old.turn_id ≡ turn.now }
        ensures seen { IfOk result (λ s. IsPrefix self.old.seen s.notes) }
        ensures own { IfOk result (λ s. owned (λ e. e.owner) self.old.number s.notes ≡ self.old.own) }
        ensures told { MatchResult result (λ s. self.new ≡ record self.old { seen = s.notes }) (λ _. self.new ≡ record self.old { seen = self.new.seen }) }
    {
        let story = turn.take(rt, &mut self.pass);
        let answer = story.copy(alloc);
        turn.give(&mut self.pass, story);
        answer
    }

    /// Takes in another writer's pass, and has then seen the longer of both stories.
    pub fn meet(&mut self, turn: &Turn<Story>, other: Writer)
        requires { (self.old.turn_id ≡ turn.now) × (other.turn_id ≡ turn.now) }
        ensures both { self.new ≡ met_by self.old other }
        ensures this { IsPrefix self.old.seen self.new.seen }
        ensures that { IsPrefix other.seen self.new.seen }
    {
        turn.meet(&mut self.pass, other.finish());
    }
}
