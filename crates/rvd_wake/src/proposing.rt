ghost use Rattle.std.specs.Prelude.{◌≡◌, IfOk};
ghost use Rattle.rvd_ask.specs.Answers.{Hold};
ghost use Rattle.rvd_ask.specs.Promise.{AreAsks};
ghost use Rattle.rvd_ask.specs.Rules.{asks};
ghost use Rattle.rvd_wake.specs.Made.{AreMadeOn};

use rvd_an_flow::FlowRule;
use rvd_an_funcs::{BodyRule, FuncsRule};
use rvd_an_refs::RefsRule;
use rvd_an_strings::StringsRule;
use rvd_ask::{Analyzer, Item, Proposal, Rule, View};
use rvd_program::Program;
use std::alloc::{AllocError, Global};

/// What an item's analyzer proposes for it on a view's program. Its reads hold of that program, and they ask just what the
/// item's rule asks there. Only want of memory refuses it.
pub fn propose<V: View>(alloc: Global, view: &V, item: Item) -> Result<Proposal, AllocError>
    ensures item { IfOk result (λ p. p.item ≡ item) }
    ensures hold { IfOk result (λ p. Hold (V.program view.now) p.reads) }
    ensures asked { IfOk result (λ p. AreAsks p.reads (asks (V.program view.now) p.item)) }
{
    match item.analyzer {
        Analyzer::Flow => FlowRule.propose(alloc, view, item.at),
        Analyzer::Refs => RefsRule.propose(alloc, view, item.at),
        Analyzer::Funcs => FuncsRule.propose(alloc, view, item.at),
        Analyzer::Body => BodyRule.propose(alloc, view, item.at),
        Analyzer::Strings => StringsRule.propose(alloc, view, item.at),
    }
}

/// What is proposed for items on a program, one proposal for each item, in order. Only want of memory refuses it.
pub fn proposals_on(
    alloc: Global,
    items: &[Item],
    program: &Program,
) -> Result<Vec<Proposal>, AllocError>
    ensures { IfOk result (λ proposals. AreMadeOn program.now items.now proposals.items) }
{
    let mut proposals = Vec::new(alloc);
    for item in items {
        proposals.push(propose(alloc, program, *item)?)?;
    }
    Ok(proposals)
}
