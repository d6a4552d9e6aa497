ghost use Rattle.std.specs.Prelude.{◌≡◌, ◌++◌, map, IfOk, OnOk};
ghost use Rattle.rvd_ask.specs.Answers.{Hold, told};
ghost use Rattle.rvd_ask.specs.Funcs.{funcs_asks, funcs_rule};
ghost use Rattle.rvd_ask.specs.Promise.{AreAsks};
ghost use Rattle.rvd_ask.specs.Rules.{asks};

use rvd_ask::{
    Analyzer, Item, Proposal, Reads, Rule, View, addition, ask_cell, ask_to, is_instruction,
};
use rvd_fact::{Addr, Change, Key, Kind, RefClass, Value};
use std::alloc::{AllocError, Global};

// Asks the whole rule: what it reads and what it changes.
#[tactic(auto, unfolding(rvd_ask::specs::Funcs::funcs_rule, rvd_ask::specs::Funcs::funcs_asks))]
fn find_function<V: View>(
    view: &V,
    reads: &mut Reads,
    changes: &mut Vec<Change>,
    at: Addr,
) -> Result<(), AllocError>
    ensures changes { let P = V.program view.now in
        OnOk result (changes.new.items ≡ changes.old.items ++ funcs_rule P at) }
    ensures reads { let P = V.program view.now in
        OnOk result (reads.new.items ≡ reads.old.items ++ told P (funcs_asks P at)) }
{
    if !ask_to(view, reads, at, RefClass::Call)? {
        return Ok(());
    }
    let unit = Key {
        at,
        kind: Kind::Unit,
        sub: 0,
    };
    if !is_instruction(ask_cell(view, reads, unit)?) {
        return Ok(());
    }
    let func = Key {
        at,
        kind: Kind::Func,
        sub: 0,
    };
    if ask_cell(view, reads, func)?.is_none() {
        changes.push(addition(func, Value::Func))?;
    }
    Ok(())
}

/// The rule of functions.
pub struct FuncsRule;

impl Rule for FuncsRule {
    ghost use Rattle.rvd_ask.specs.declared.asks.Analyzer.TheVariants.{Funcs};

    ghost analyzer = { Funcs };

    /// A function at an address that a call goes to, where an instruction is there and no cell says what begins
    /// there. Its reads hold of the view's program, and they ask what the rule asks there, in order. Only want of
    /// memory refuses it.
    fn propose<V: View>(&self, alloc: Global, view: &V, at: Addr) -> Result<Proposal, AllocError>
        ensures item { IfOk result (λ p. p.item ≡ record { analyzer = Analyzer.Funcs; at = at }) }
        ensures hold { IfOk result (λ p. Hold (V.program view.now) p.reads) }
        ensures asked { IfOk result (λ p. AreAsks p.reads (asks (V.program view.now) p.item)) }
        ensures in_order { IfOk result (λ p. map (λ r. r.0) p.reads ≡ asks (V.program view.now) p.item) }
    {
        let item = Item {
            analyzer: Analyzer::Funcs,
            at,
        };
        let mut reads = Vec::new(alloc);
        let mut changes = Vec::new(alloc);
        find_function(view, &mut reads, &mut changes, at)?;
        Ok(Proposal::of(item, reads, changes))
    }
}
