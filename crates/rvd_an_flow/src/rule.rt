ghost use Rattle.std.specs.Prelude.{◌≡◌, map, IfOk};
ghost use Rattle.rvd_ask.specs.Answers.{Hold};
ghost use Rattle.rvd_ask.specs.Promise.{AreAsks};
ghost use Rattle.rvd_ask.specs.Rules.{asks};

use crate::first::add_first;
use crate::starts::starts;
use rvd_ask::{Analyzer, Item, Proposal, Rule, View};
use rvd_fact::Addr;
use std::alloc::{AllocError, Global};

/// Disassembles along the flow of control.
pub struct FlowRule;

impl Rule for FlowRule {
    ghost use Rattle.rvd_ask.specs.declared.asks.Analyzer.TheVariants.{Flow};

    ghost analyzer = { Flow };

    fn propose<V: View>(&self, alloc: Global, view: &V, at: Addr) -> Result<Proposal, AllocError>
        ensures item { IfOk result (λ p. p.item ≡ record { analyzer = Analyzer.Flow; at = at }) }
        ensures hold { IfOk result (λ p. Hold (V.program view.now) p.reads) }
        ensures asked { IfOk result (λ p. AreAsks p.reads (asks (V.program view.now) p.item)) }
        ensures order { IfOk result (λ p. map (λ r. r.0) p.reads ≡ asks (V.program view.now) p.item) }
    {
        let item = Item {
            analyzer: Analyzer::Flow,
            at,
        };
        let mut reads = Vec::new(alloc);
        let mut changes = Vec::new(alloc);
        let starts = starts(alloc, view, &mut reads, at)?;
        add_first(alloc, view, &mut reads, &mut changes, starts.as_slice())?;
        Ok(Proposal::of(item, reads, changes))
    }
}
