//! The story: a title and notes.
ghost use Rattle.std.specs.Prelude.{◌≡◌, ℕ, List, [], ◌∷◌, ◌++◌, length, MatchResult, IfOk};

use rvd_turn::{OutOfMemory, Storied};
use std::alloc::Global;
use std::marker::Model;

/// One entry of the story: a number that its owner wrote.
#[derive(Clone, Copy)]
pub struct Note {
    /// The number of the pass that wrote it.
    pub owner: u32,
    /// What was written.
    pub number: u64,
}

/// A title, which stays, and the notes so far. The title is the story's head, and the notes are its entries.
#[derive(Drop)]
pub struct Story {
    title: u32,
    notes: Vec<Note>,
}

impl Model for Story {
    ghost use Rattle.turn_story.specs.Written.{Written};

    ghost Value = { Written };

    ghost view = { λ s. record { title = s.title; notes = s.notes.items } };
}

impl Storied for Story {
    type Head = u32;

    type Entry = Note;

    ghost head = { λ s. s.title };

    ghost entries = { λ s. s.notes };

    ghost owner = { λ e. e.owner };

    fn count(&self) -> u64 {
        self.notes.len() as u64
    }
}

impl Story {
    /// A story with a title and no notes.
    pub fn new(alloc: Global, title: u32) -> Story
        ensures { (result.title ≡ title) × (result.notes ≡ []) }
    {
        Story {
            title,
            notes: Vec::new(alloc),
        }
    }

    /// The title.
    pub fn title(&self) -> u32
        ensures { result ≡ self.now.title }
    {
        self.title
    }

    /// The notes, the oldest first.
    pub fn notes(&self) -> &[Note]
        ensures { result.now ≡ self.now.notes }
    {
        self.notes.as_slice()
    }

    /// Adds a note at the end. After `OutOfMemory` the story is as before.
    pub fn push(&mut self, note: Note) -> Result<(), OutOfMemory>
        ensures { MatchResult result (λ _. self.new ≡ record self.old { notes = self.old.notes ++ note ∷ [] }) (λ _. self.new ≡ self.old) }
    {
        let notes = &mut self.notes;
        notes.push(note)?;
        Ok(())
    }

    /// A copy, or `OutOfMemory`.
    pub fn copy(&self, alloc: Global) -> Result<Story, OutOfMemory>
        ensures { IfOk result (λ s. s ≡ self.now) }
    {
        let notes = Vec::from_slice(alloc, self.notes.as_slice())?;
        Ok(Story {
            title: self.title,
            notes,
        })
    }
}
