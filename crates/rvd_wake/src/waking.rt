ghost use Rattle.std.specs.Prelude.{◌≡◌, ◌++◌, IfOk, OnOk, OnErr};
ghost use Rattle.rvd_ask.specs.Unsettled.{woken as woken_by};

use crate::bodies::bodies_places;
use crate::flow::flow_places;
use crate::ordering::{add_items, ordered};
use crate::refs::refs_places;
use crate::targets::{funcs_places, strings_places};
use rvd_ask::{Analyzer, Item, listing_law};
use rvd_fact::Change;
use rvd_program::Program;
use std::alloc::{AllocError, Global};

/// Adds the items that a change wakes, where `after` is the program after it: what is unsettled then and wasn't before is
/// among them. Each is added once, by priority and address. Only want of memory refuses it, and then `out` is as before.
pub fn woken(
    alloc: Global,
    after: &Program,
    change: &Change,
    out: &mut Vec<Item>,
) -> Result<(), AllocError>
    ensures ok { OnOk result (out.new.items ≡ out.old.items ++ woken_by after.now change.now) }
    ensures err { OnErr result (out.new.items ≡ out.old.items) }
{
    let mut items = woken_items(alloc, after, change)?;
    out.append(&mut items)
}

fn woken_items(alloc: Global, after: &Program, change: &Change) -> Result<Vec<Item>, AllocError>
    ensures { IfOk result (λ items. items.items ≡ woken_by after.now change.now) }
{
    listing_law();
    let flow = flow_places(alloc, after, change)?;
    let refs = refs_places(alloc, after, change)?;
    let funcs = funcs_places(alloc, after, change)?;
    let bodies = bodies_places(alloc, after, change)?;
    let strings = strings_places(alloc, after, change)?;
    let mut items = Vec::new(alloc);
    add_items(&mut items, Analyzer::Flow, &flow)?;
    add_items(&mut items, Analyzer::Refs, &refs)?;
    add_items(&mut items, Analyzer::Funcs, &funcs)?;
    add_items(&mut items, Analyzer::Body, &bodies)?;
    add_items(&mut items, Analyzer::Strings, &strings)?;
    ordered(alloc, items)
}
