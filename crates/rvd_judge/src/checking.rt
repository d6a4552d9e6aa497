ghost use Rattle.std.specs.Prelude.{◌≡◌, ◌++◌, ◌↔◌, List, length, not, IfOk, IsTrue};
ghost use Rattle.rvd_fact.specs.Program.{applied_all};
ghost use Rattle.rvd_fact.specs.Valid.{Fits};
ghost use Rattle.rvd_ask.specs.declared.asks.Item.{Item as AnItem};
ghost use Rattle.rvd_ask.specs.Rules.{rule};
ghost use Rattle.rvd_event.specs.declared.verdicts.Verdict.TheVariants as verdict;
ghost use Rattle.rvd_queue.specs.Sets.{with_all};
ghost use Rattle.rvd_machine.specs.Verdicts.{AreVerdicts, judged_all};
ghost use Rattle.rvd_judge.specs.Batches.{batch_on, enabled_in, is_none_in};
ghost use Rattle.rvd_judge.specs.Checks.{MayBe, MayBeForeign, MayBeStale};
ghost use Rattle.rvd_judge.specs.Effects.{changes_by, changes_of, items_of, program_after, queued_by};

use crate::joining::{apply_in_turn, is_enabled, keep_changes, send_back};
use rvd_ask::{Analyzer, Answer, Ask, Item, Proposal, answer_to, same};
use rvd_event::Verdict;
use rvd_fact::Change;
use rvd_program::Program;
use rvd_wake::{analysis_laws, propose};
use std::alloc::{AllocError, Global};

/// Whether verdicts may be given on the items of a job, each on the working program as the earlier ones left it: `job` is the
/// job's program. Any legal verdict may, and not just the one that a desk's own offer gives. Where all may, the changes of
/// those that join are applied and added to `changes`, and the items that they wake, of enabled analyzers, and those that
/// return are added to `again`; else nothing is promised of what it was to change, nor where memory is refused.
pub fn check_verdicts(
    alloc: Global,
    work: &mut Program,
    job: &Program,
    items: &[Item],
    enabled: &[Analyzer],
    verdicts: &[Verdict],
    again: &mut Vec<Item>,
    changes: &mut Vec<Change>,
) -> Result<bool, AllocError>
    ensures legal { let E = enabled_in enabled.now in
        IfOk result (λ yes. (queue : List AnItem) → IsTrue yes ↔ AreVerdicts E job.now (batch_on work.old queue) items.now verdicts.now) }
    ensures again { let E = enabled_in enabled.now in
        IfOk result (λ yes. IsTrue yes → again.new.items ≡ again.old.items ++ queued_by E work.old items.now verdicts.now) }
    ensures changes { IfOk result (λ yes. IsTrue yes → changes.new.items ≡ changes.old.items ++ changes_by work.old items.now verdicts.now) }
    ensures work { IfOk result (λ yes. IsTrue yes → work.new ≡ applied_all work.old (changes_by work.old items.now verdicts.now)) }
    ensures fit { Fits work.old (changes_by work.old items.now verdicts.now) }

    // What the verdicts make of a batch, whatever its queue.
    ensures batch { let E = enabled_in enabled.now in
        IfOk result (λ yes. IsTrue yes → (queue : List AnItem) → judged_all E (batch_on work.old queue) items.now verdicts.now ≡ record {
          work = work.new;
          queue = with_all (queued_by E work.old items.now verdicts.now) queue;
          changes = length (changes_by work.old items.now verdicts.now);
          joined = not (is_none_in (changes_by work.old items.now verdicts.now));
        }) }
{
    // The entries tell that the program is valid, and the laws that the changes of rules fit it.
    let _ = work.entries();
    analysis_laws();
    if verdicts.len() != items.len() {
        return Ok(false);
    }
    for place in 0..items.len() {
        let item = items[place];
        let verdict = &verdicts[place];
        if !check_one(alloc, work, job, enabled, item, verdict, again, changes)? {
            return Ok(false);
        }
    }
    Ok(true)
}

// Whether a verdict may be given on an item; where it may, what follows from it is done.
fn check_one(
    alloc: Global,
    work: &mut Program,
    job: &Program,
    enabled: &[Analyzer],
    item: Item,
    verdict: &Verdict,
    again: &mut Vec<Item>,
    kept: &mut Vec<Change>,
) -> Result<bool, AllocError>
    ensures legal { IfOk result (λ yes. IsTrue yes ↔ MayBe (enabled_in enabled.now) job.now work.old item verdict.now) }
    ensures work { IfOk result (λ yes. IsTrue yes → work.new ≡ program_after work.old item verdict.now) }
    ensures again { let E = enabled_in enabled.now in
        IfOk result (λ yes. IsTrue yes → again.new.items ≡ again.old.items ++ items_of E work.old item verdict.now) }
    ensures kept { IfOk result (λ yes. IsTrue yes → kept.new.items ≡ kept.old.items ++ changes_of work.old item verdict.now) }
{
    match verdict {
        Verdict::Joined(count) => check_joined(alloc, work, enabled, item, *count, again, kept),
        Verdict::Nothing => check_nothing(alloc, work, enabled, item),
        Verdict::Off => Ok(!is_enabled(enabled, item.analyzer)),
        Verdict::Stale { ask, was, now } => {
            again.push(item)?;
            let stale = is_stale(alloc, work, job, ask, was, now)?;
            Ok(stale && is_enabled(enabled, item.analyzer))
        }
        Verdict::Foreign { ask, said, was } => {
            again.push(item)?;
            let foreign = is_foreign(alloc, work, job, ask, said, was)?;
            Ok(foreign && is_enabled(enabled, item.analyzer))
        }
    }
}

// What an item's rule proposes on a program.
fn proposal_on(alloc: Global, work: &Program, item: Item) -> Result<Proposal, AllocError>
    ensures changes { IfOk result (λ p. p.changes ≡ rule work.now item) }
    ensures fits { Fits work.now (rule work.now item) }
{
    // The entries tell that the program is valid, and the changes that the proposal keeps its promise there.
    let _ = work.entries();
    analysis_laws();
    let proposal = propose(alloc, work, item)?;
    let _changes = proposal.changes();
    Ok(proposal)
}

// Whether an item may have joined with so many changes; where it may, they are applied.
fn check_joined(
    alloc: Global,
    work: &mut Program,
    enabled: &[Analyzer],
    item: Item,
    count: u32,
    again: &mut Vec<Item>,
    kept: &mut Vec<Change>,
) -> Result<bool, AllocError>
    ensures legal { IfOk result (λ yes. IsTrue yes ↔ MayBe (enabled_in enabled.now) work.old work.old item (verdict.Joined count)) }
    ensures work { IfOk result (λ yes. IsTrue yes → work.new ≡ program_after work.old item (verdict.Joined count)) }
    ensures again { let E = enabled_in enabled.now in
        IfOk result (λ yes. IsTrue yes → again.new.items ≡ again.old.items ++ items_of E work.old item (verdict.Joined count)) }
    ensures kept { IfOk result (λ yes. IsTrue yes → kept.new.items ≡ kept.old.items ++ changes_of work.old item (verdict.Joined count)) }
{
    if count == 0 || !is_enabled(enabled, item.analyzer) {
        return Ok(false);
    }
    let proposal = proposal_on(alloc, work, item)?;
    let changes = proposal.changes();
    if changes.len() != count as usize {
        return Ok(false);
    }
    keep_changes(changes, kept)?;
    apply_in_turn(alloc, work, enabled, changes, again)?;
    send_back(item, again)?;
    Ok(true)
}

// Whether an item may have proposed no change.
fn check_nothing(
    alloc: Global,
    work: &Program,
    enabled: &[Analyzer],
    item: Item,
) -> Result<bool, AllocError>
    ensures { IfOk result (λ yes. IsTrue yes ↔ MayBe (enabled_in enabled.now) work.now work.now item verdict.Nothing) }
{
    if !is_enabled(enabled, item.analyzer) {
        return Ok(false);
    }
    let proposal = proposal_on(alloc, work, item)?;
    Ok(proposal.changes().is_empty())
}

// Whether an answer on the job's program and one on the working program are those, and differ.
fn is_stale(
    alloc: Global,
    work: &Program,
    job: &Program,
    ask: &Ask,
    was: &Answer,
    now: &Answer,
) -> Result<bool, AllocError>
    ensures { IfOk result (λ yes. IsTrue yes ↔ MayBeStale job.now work.now ask.now was.now now.now) }
{
    let before = answer_to(alloc, job, ask)?;
    if !same(was, &before) {
        return Ok(false);
    }
    let here = answer_to(alloc, work, ask)?;
    if !same(now, &here) {
        return Ok(false);
    }
    Ok(!same(was, now))
}

// Whether an answer of the ask's form is neither the job's program's, which is `was`, nor the working program's.
fn is_foreign(
    alloc: Global,
    work: &Program,
    job: &Program,
    ask: &Ask,
    said: &Answer,
    was: &Answer,
) -> Result<bool, AllocError>
    ensures { IfOk result (λ yes. IsTrue yes ↔ MayBeForeign job.now work.now ask.now said.now was.now) }
{
    if !said.has_form(ask) {
        return Ok(false);
    }
    let before = answer_to(alloc, job, ask)?;
    if !same(was, &before) {
        return Ok(false);
    }
    if same(said, &before) {
        return Ok(false);
    }
    let here = answer_to(alloc, work, ask)?;
    Ok(!same(said, &here))
}
