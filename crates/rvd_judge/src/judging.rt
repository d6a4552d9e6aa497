ghost use Rattle.std.specs.Prelude.{◌≡◌, true, ◌++◌, List, length, map, not, IfOk};
ghost use Rattle.std.specs.List.{list_all};
ghost use Rattle.rvd_fact.specs.Program.{applied_all};
ghost use Rattle.rvd_fact.specs.Valid.{Fits};
ghost use Rattle.rvd_ask.specs.declared.asks.Item.{Item as AnItem};
ghost use Rattle.rvd_ask.specs.Rules.{rule};
ghost use Rattle.rvd_event.specs.Verdicts.{has_forms};
ghost use Rattle.rvd_queue.specs.Sets.{with_all};
ghost use Rattle.rvd_machine.specs.Enabled.{is_on};
ghost use Rattle.rvd_machine.specs.Exact.{AreExactVerdicts, IsVerdictIf, verdict_by};
ghost use Rattle.rvd_machine.specs.Verdicts.{AreVerdicts, judged_all};
ghost use Rattle.rvd_judge.specs.Batches.{batch_on, enabled_in, is_none_in};
ghost use Rattle.rvd_judge.specs.Effects.{changes_by, changes_of, items_of, program_after, queued_by};

use crate::joining::{apply_in_turn, is_enabled, keep_changes, send_back};
use crate::reads::at_first_differing;
use rvd_ask::{Analyzer, Item, Proposal};
use rvd_event::{Verdict, VerdictList};
use rvd_fact::Change;
use rvd_program::Program;
use rvd_wake::analysis_laws;
use std::alloc::{AllocError, Global};

/// Judges one proposal for each item of a job, in order, on the working program as the earlier ones left it: `job` is the
/// job's program. The changes of those that join are applied and added to `changes`; the items that they wake, of enabled
/// analyzers, and those that return are added to `again`. Only want of memory refuses it, and then nothing is promised of
/// what it was to change.
pub fn judge(
    alloc: Global,
    work: &mut Program,
    job: &Program,
    items: &[Item],
    enabled: &[Analyzer],
    proposals: &[Proposal],
    again: &mut Vec<Item>,
    changes: &mut Vec<Change>,
) -> Result<VerdictList, AllocError>
    requires { map (λ p. p.item) proposals.now ≡ items.now }
    ensures exact { let E = enabled_in enabled.now in
        IfOk result (λ verdicts. (queue : List AnItem) → AreExactVerdicts E job.now (batch_on work.old queue) proposals.now verdicts) }
    ensures legal { let E = enabled_in enabled.now in
        IfOk result (λ verdicts. (queue : List AnItem) → AreVerdicts E job.now (batch_on work.old queue) items.now verdicts) }
    ensures forms { IfOk result (λ verdicts. list_all has_forms verdicts ≡ true) }

    ensures again { let E = enabled_in enabled.now in
        IfOk result (λ verdicts. again.new.items ≡ again.old.items ++ queued_by E work.old items.now verdicts) }
    ensures changes { IfOk result (λ verdicts. changes.new.items ≡ changes.old.items ++ changes_by work.old items.now verdicts) }
    ensures work { IfOk result (λ verdicts. work.new ≡ applied_all work.old (changes_by work.old items.now verdicts)) }
    ensures fit { IfOk result (λ verdicts. Fits work.old (changes_by work.old items.now verdicts)) }

    // What the verdicts make of a batch, whatever its queue.
    ensures batch { let E = enabled_in enabled.now in
        IfOk result (λ verdicts. (queue : List AnItem) → judged_all E (batch_on work.old queue) items.now verdicts ≡ record {
          work = work.new;
          queue = with_all (queued_by E work.old items.now verdicts) queue;
          changes = length (changes_by work.old items.now verdicts);
          joined = not (is_none_in (changes_by work.old items.now verdicts));
        }) }
{
    // The entries tell that the program is valid, and the laws that the changes of rules fit it.
    let _ = work.entries();
    analysis_laws();
    let mut verdicts = Vec::with_capacity(alloc, items.len())?;
    for place in 0..items.len() {
        let verdict = judge_one(alloc, work, job, enabled, &proposals[place], again, changes)?;
        verdicts.push(verdict)?;
    }
    VerdictList::of(alloc, verdicts)
}

// Judges one proposal.
fn judge_one(
    alloc: Global,
    work: &mut Program,
    job: &Program,
    enabled: &[Analyzer],
    proposal: &Proposal,
    again: &mut Vec<Item>,
    kept: &mut Vec<Change>,
) -> Result<Verdict, AllocError>
    ensures exact { let p = proposal.now in
        IfOk result (λ v. IsVerdictIf (is_on (enabled_in enabled.now) p.item.analyzer) job.now work.old p v) }
    ensures forms { IfOk result (λ v. has_forms v ≡ true) }
    ensures work { IfOk result (λ v. work.new ≡ program_after work.old proposal.now.item v) }
    ensures again { let E = enabled_in enabled.now in
        IfOk result (λ v. again.new.items ≡ again.old.items ++ items_of E work.old proposal.now.item v) }
    ensures kept { IfOk result (λ v. kept.new.items ≡ kept.old.items ++ changes_of work.old proposal.now.item v) }
{
    let item = proposal.item();
    let changes = proposal.changes();
    if !is_enabled(enabled, item.analyzer) {
        return Ok(Verdict::Off);
    }
    match at_first_differing(alloc, work, job, proposal.reads())? {
        Some(verdict) => {
            again.push(item)?;
            Ok(verdict)
        }
        None => {
            let _ = work.entries();
            analysis_laws();
            join(alloc, work, enabled, item, changes, again, kept)
        }
    }
}

// Applies the changes of an item's rule, and tells how many they are.
fn join(
    alloc: Global,
    work: &mut Program,
    enabled: &[Analyzer],
    item: Item,
    changes: &[Change],
    again: &mut Vec<Item>,
    kept: &mut Vec<Change>,
) -> Result<Verdict, AllocError>
    requires rule { changes.now ≡ rule work.old item }
    requires fits { Fits work.old (rule work.old item) }
    ensures verdict { IfOk result (λ v. v ≡ verdict_by (rule work.old item)) }
    ensures work { IfOk result (λ v. work.new ≡ program_after work.old item v) }
    ensures again { let E = enabled_in enabled.now in
        IfOk result (λ v. again.new.items ≡ again.old.items ++ items_of E work.old item v) }
    ensures kept { IfOk result (λ v. kept.new.items ≡ kept.old.items ++ changes_of work.old item v) }
{
    if changes.is_empty() {
        return Ok(Verdict::Nothing);
    }
    keep_changes(changes, kept)?;
    apply_in_turn(alloc, work, enabled, changes, again)?;
    send_back(item, again)?;
    Ok(Verdict::Joined(changes.len() as u32))
}
