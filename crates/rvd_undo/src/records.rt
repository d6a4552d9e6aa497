ghost use Rattle.std.specs.Prelude.{◌≡◌, ◌+◌, ◌<◌, ◌≤◌, ◌↔◌, [], ◌++◌, length, take, drop, IsTrue, IsOk, IfOk, OnOk, OnErr};
ghost use Rattle.std.specs.VecDeque.{deque_len, deque_capacity};
ghost use Rattle.rvd_undo.specs.History.{after_undo, after_redo};
ghost use Rattle.rvd_undo.specs.Records.{Stands, IsCommit, history, after_push};

use crate::changes::Changes;
use crate::limit::UNDO_DEPTH;
use rvd_fact::Change;
use rvd_program::Program;
use std::alloc::{AllocError, Global};
use std::collections::VecDeque;
use std::marker::Model;

/// The records of transactions that can be undone and redone. Contracts see them as two lists with the latest first,
/// and with them how many records can be pushed without taking memory (`spare`).
#[derive(Drop)]
pub struct Undos {
    undos: VecDeque<Changes>,
    redos: VecDeque<Changes>,
}

impl Model for Undos {
    ghost use Rattle.std.specs.Prelude.{◌+◌, ◌-◌, ◌≤◌};
    ghost use Rattle.std.specs.VecDeque.{deque_len, deque_capacity};
    ghost use Rattle.rvd_undo.specs.Records.{Contents};
    ghost use Rattle.rvd_undo.specs.declared.limit.TheConstants.{UNDO_DEPTH};

    ghost Value = { Contents };

    ghost view = { λ u. record { records = record { undos = u.undos.items; redos = u.redos.items }; spare = deque_capacity u.undos - deque_len u.undos } };

    ghost invariant = { λ u. deque_len u.undos + deque_len u.redos ≤ UNDO_DEPTH };
}

impl Undos {
    /// No records. Only want of memory refuses it.
    pub fn new(alloc: Global) -> Result<Undos, AllocError>
        ensures { IfOk result (λ undos. undos.records ≡ record { undos = []; redos = [] }) }
    {
        let undos = VecDeque::new(alloc);
        let redos = VecDeque::new(alloc);
        Ok(Undos { undos, redos })
    }

    /// How many transactions can be undone. It takes no memory.
    pub fn depth(&self) -> u32
        ensures depth { result ≡ length self.now.records.undos }
        ensures limit { result ≤ UNDO_DEPTH }
    {
        self.undos.len() as u32
    }

    /// How many transactions can be redone. It takes no memory.
    pub fn height(&self) -> u32
        ensures height { result ≡ length self.now.records.redos }
        ensures limit { result ≤ UNDO_DEPTH }
    {
        self.redos.len() as u32
    }

    /// Makes room for a push. Only want of memory refuses it.
    pub fn reserve(&mut self) -> Result<(), AllocError>
        ensures records { self.new.records ≡ self.old.records }
        ensures spare { self.old.spare ≤ self.new.spare }
        ensures room { OnOk result (0 < self.new.spare) }
    {
        self.undos.reserve(1)
    }

    /// Adds the changes of a transaction that was committed, keeps the latest 50 records, and lets those of redo go. Only
    /// want of memory refuses it, and then the records are as before; where there is room it takes no memory.
    pub fn push(&mut self, changes: Vec<Change>) -> Result<(), AllocError>
        ensures records { OnOk result (self.new.records ≡ after_push self.old.records changes.items) }
        ensures commit { OnOk result (IsCommit self.old.records changes.items self.new.records) }
        ensures room { 0 < self.old.spare → IsOk result }
        ensures spare { self.old.spare ≤ self.new.spare + 1 }
        ensures err { OnErr result (self.new.records ≡ self.old.records) }
    {
        self.undos.reserve(1)?;
        self.undos.push_front_reserved(Changes::of(changes));
        self.undos.truncate(UNDO_DEPTH);
        self.redos.clear();
        Ok(())
    }

    /// Takes the latest transaction back: the program is again what it was before that one. False where there is none.
    /// Only want of memory refuses it, and then all is as before.
    #[tactic(auto, using(crate::proofs::Histories::came_back))]
    pub fn undo(&mut self, program: &mut Program) -> Result<bool, AllocError>
        requires { Stands program.old self.old.records }
        ensures moved { IfOk result (λ moved. IsTrue moved ↔ (0 < length self.old.records.undos)) }
        ensures step { OnOk result (history program.new self.new.records ≡ after_undo (history program.old self.old.records)) }
        ensures stands { Stands program.new self.new.records }
        ensures spare { self.old.spare ≤ self.new.spare }
        ensures err { OnErr result ((program.new ≡ program.old) × (self.new.records ≡ self.old.records)) }
    {
        match self.undos.front() {
            None => Ok(false),
            Some(changes) => {
                self.redos.reserve(1)?;
                changes.undo_on(program)?;
                move_front(&mut self.undos, &mut self.redos);
                Ok(true)
            }
        }
    }

    /// Brings the latest transaction back that was undone. False where there is none. Only want of memory refuses it, and
    /// then all is as before.
    #[tactic(auto, using(crate::proofs::Histories::came_back))]
    pub fn redo(&mut self, program: &mut Program) -> Result<bool, AllocError>
        requires { Stands program.old self.old.records }
        ensures moved { IfOk result (λ moved. IsTrue moved ↔ (0 < length self.old.records.redos)) }
        ensures step { OnOk result (history program.new self.new.records ≡ after_redo (history program.old self.old.records)) }
        ensures stands { Stands program.new self.new.records }
        ensures spare { self.old.spare ≤ self.new.spare + 1 }
        ensures err { OnErr result ((program.new ≡ program.old) × (self.new.records ≡ self.old.records)) }
    {
        match self.redos.front() {
            None => Ok(false),
            Some(changes) => {
                self.undos.reserve(1)?;
                changes.redo_on(program)?;
                move_front(&mut self.redos, &mut self.undos);
                Ok(true)
            }
        }
    }
}

// Moves the front of a list to the front of another, in the room that is there.
fn move_front(from: &mut VecDeque<Changes>, to: &mut VecDeque<Changes>)
    requires some { 0 < deque_len from.old }
    requires room { deque_len to.old < deque_capacity to.old }
    ensures from_items { from.new.items ≡ drop 1 from.old.items }
    ensures to_items { to.new.items ≡ take 1 from.old.items ++ to.old.items }
    ensures from_len { deque_len from.new + 1 ≡ deque_len from.old }
    ensures to_len { deque_len to.new ≡ deque_len to.old + 1 }
    ensures from_capacity { deque_capacity from.new ≡ deque_capacity from.old }
    ensures to_capacity { deque_capacity to.new ≡ deque_capacity to.old }
{
    if let Some(changes) = from.pop_front() {
        to.push_front_reserved(changes);
    }
}
