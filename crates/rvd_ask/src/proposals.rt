ghost use Rattle.std.specs.Prelude.{◌≡◌, IfOk};
ghost use Rattle.rvd_ask.specs.Answers.{Hold};
ghost use Rattle.rvd_ask.specs.Promise.{AreAsks, KeepsPromise};
ghost use Rattle.rvd_ask.specs.Rules.{asks};

use crate::answers::Answer;
use crate::asks::{Analyzer, Ask, Item};
use crate::views::View;
use rvd_fact::{Addr, Change};
use std::alloc::{AllocError, Global};
use std::marker::Model;

/// What an analyzer proposes for an item: its changes, and the reads that they were found by. Whatever valid program
/// the reads hold of, the changes of the item's rule there are these.
#[derive(Debug, Drop)]
pub struct Proposal {
    item: Item,
    reads: Vec<(Ask, Answer)>,
    changes: Vec<Change>,
}

impl Model for Proposal {
    ghost use Rattle.rvd_ask.specs.Promise.{Proposed, KeepsPromise};

    ghost Value = { Proposed };

    ghost view = { λ p. record { item = p.item; reads = p.reads.items; changes = p.changes.items } };

    ghost invariant = { λ p. KeepsPromise (record { item = p.item; reads = p.reads.items; changes = p.changes.items }) };
}

impl Proposal {
    /// The proposal of these changes, found by these reads. Each read has an answer of its ask's form, and whatever valid
    /// program the reads hold of, these are the changes of the item's rule.
    pub fn of(item: Item, reads: Vec<(Ask, Answer)>, changes: Vec<Change>) -> Proposal
        requires { KeepsPromise (record { item = item; reads = reads.items; changes = changes.items }) }
        ensures { result ≡ record { item = item; reads = reads.items; changes = changes.items } }
    {
        Proposal {
            item,
            reads,
            changes,
        }
    }

    /// The item that this is proposed for.
    pub fn item(&self) -> Item
        ensures { result ≡ self.now.item }
    {
        self.item
    }

    /// What was asked, with the answers, in order.
    pub fn reads(&self) -> &[(Ask, Answer)]
        ensures { result.now ≡ self.now.reads }
    {
        self.reads.as_slice()
    }

    /// The changes in order: those of the item's rule on whatever valid program the reads hold of.
    pub fn changes(&self) -> &[Change]
        ensures changes { result.now ≡ self.now.changes }
        ensures promise { KeepsPromise self.now }
    {
        self.changes.as_slice()
    }
}

/// What an analyzer does.
pub trait Rule {
    ghost use Rattle.rvd_ask.specs.declared.asks.Analyzer.{Analyzer};

    /// The analyzer whose rule this is.
    ghost analyzer: { Analyzer };

    /// What the analyzer proposes at an address of a view's program. Its reads hold of that program, and they ask just
    /// what the rule asks there, so that no fact that the rule doesn't ask can make it stale. Only want of memory
    /// refuses it.
    fn propose<V: View>(&self, alloc: Global, view: &V, at: Addr) -> Result<Proposal, AllocError>
        ensures item { IfOk result (λ p. p.item ≡ record { analyzer = analyzer; at = at }) }
        ensures hold { IfOk result (λ p. Hold (V.program view.now) p.reads) }
        ensures asked { IfOk result (λ p. AreAsks p.reads (asks (V.program view.now) p.item)) };
}
