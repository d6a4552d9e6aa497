ghost use Rattle.std.specs.Prelude.{◌≡◌, ◌++◌, OnOk};
ghost use Rattle.rvd_fact.specs.Program.{applied_all};
ghost use Rattle.rvd_fact.specs.Valid.{Fits};
ghost use Rattle.rvd_ask.specs.Unsettled.{same_analyzer, woken as woken_by};
ghost use Rattle.rvd_machine.specs.Enabled.{is_on, only_on};
ghost use Rattle.rvd_judge.specs.Batches.{enabled_in};
ghost use Rattle.rvd_judge.specs.Effects.{returning_of, woken_in_turn};

use rvd_ask::{Analyzer, Item};
use rvd_fact::Change;
use rvd_program::Program;
use rvd_wake::woken;
use std::alloc::{AllocError, Global};
use std::slice::from_ref;

/// Whether an analyzer is among these.
pub fn is_enabled(enabled: &[Analyzer], analyzer: Analyzer) -> bool
    ensures { result ≡ is_on (enabled_in enabled.now) analyzer }
{
    for other in enabled {
        if is_same(analyzer, *other) {
            return true;
        }
    }
    false
}

fn is_same(a: Analyzer, b: Analyzer) -> bool
    ensures { result ≡ same_analyzer a b }
{
    a.priority() == b.priority()
}

/// Applies changes that fit, and adds the enabled analyzers' items that each wakes.
pub fn apply_in_turn(
    alloc: Global,
    work: &mut Program,
    enabled: &[Analyzer],
    changes: &[Change],
    again: &mut Vec<Item>,
) -> Result<(), AllocError>
    requires { Fits work.old changes.now }
    ensures work { OnOk result (work.new ≡ applied_all work.old changes.now) }
    ensures again { OnOk result (again.new.items ≡ again.old.items ++ woken_in_turn (enabled_in enabled.now) work.old changes.now) }
{
    for change in changes {
        work.apply(from_ref(change))?;
        wake(alloc, work, change, enabled, again)?;
    }
    Ok(())
}

// Adds the enabled analyzers' items that a change wakes, where `after` is the program after it.
fn wake(
    alloc: Global,
    after: &Program,
    change: &Change,
    enabled: &[Analyzer],
    again: &mut Vec<Item>,
) -> Result<(), AllocError>
    ensures { OnOk result (again.new.items ≡ again.old.items ++ only_on (enabled_in enabled.now) (woken_by after.now change.now)) }
{
    let mut items = Vec::new(alloc);
    woken(alloc, after, change, &mut items)?;
    add_enabled(&items, enabled, again)
}

// Adds the items of enabled analyzers.
fn add_enabled(
    items: &[Item],
    enabled: &[Analyzer],
    again: &mut Vec<Item>,
) -> Result<(), AllocError>
    ensures { OnOk result (again.new.items ≡ again.old.items ++ only_on (enabled_in enabled.now) items.now) }
{
    for item in items {
        if is_enabled(enabled, item.analyzer) {
            again.push(*item)?;
        }
    }
    Ok(())
}

/// Adds an item that joined to those that return, unless it is a body item.
pub fn send_back(item: Item, again: &mut Vec<Item>) -> Result<(), AllocError>
    ensures { OnOk result (again.new.items ≡ again.old.items ++ returning_of item.analyzer item) }
{
    match item.analyzer {
        Analyzer::Body => Ok(()),
        Analyzer::Flow | Analyzer::Refs | Analyzer::Funcs | Analyzer::Strings => {
            again.push(item)?;
            Ok(())
        }
    }
}

/// Adds equal changes to a list.
pub fn keep_changes(changes: &[Change], kept: &mut Vec<Change>) -> Result<(), AllocError>
    ensures { OnOk result (kept.new.items ≡ kept.old.items ++ changes.now) }
{
    for change in changes {
        kept.push(change.copy()?)?;
    }
    Ok(())
}
