ghost use Rattle.std.specs.Prelude.{◌≡◌, ◌++◌, [], ◌∷◌, length, OnOk, OnErr, codes};
ghost use Rattle.std.specs.List.{enumerate_from};
ghost use Rattle.std.specs.Fmt.{decimal};
ghost use Rattle.rvd_text.specs.Quoted.{quoted};
ghost use Rattle.rvd_notation.specs.Actors.{actor_text, analyzer_word};
ghost use Rattle.rvd_notation.specs.Pieces.{Keeps};
ghost use Rattle.rvd_report.specs.History.{history, step_line, step_lines, step_text, switch_word};

use rvd_ask::Analyzer;
use rvd_event::{Names, Step};
use rvd_fact::Text;
use rvd_notation::{analyzer_word, push_actor};
use rvd_text::{push_dec, push_quoted};
use std::alloc::AllocError;

fn push_commit(
    out: &mut Vec<u8>,
    names: Names,
    actor: u32,
    text: &Text,
    changes: u64,
) -> Result<(), AllocError>
    ensures ok { OnOk result (out.new.items ≡ out.old.items ++ (codes "commit " ++ actor_text names actor ++ codes " " ++ quoted text.now ++ codes " " ++ decimal changes)) }
    ensures err { OnErr result (Keeps out.old.items out.new.items) }
{
    out.extend_from_slice(b"commit ")?;
    push_actor(out, names, actor)?;
    out.push(b' ')?;
    push_quoted(out, text.list())?;
    out.push(b' ')?;
    push_dec(out, changes)
}

fn switch_word(on: bool) -> &'static [u8]
    ensures { result.now ≡ switch_word on }
{
    if on { b"on" } else { b"off" }
}

fn push_enable(
    out: &mut Vec<u8>,
    names: Names,
    actor: u32,
    analyzer: Analyzer,
    on: bool,
) -> Result<(), AllocError>
    ensures ok { OnOk result (out.new.items ≡ out.old.items ++ (codes "enable " ++ actor_text names actor ++ codes " " ++ analyzer_word analyzer ++ codes " " ++ switch_word on)) }
    ensures err { OnErr result (Keeps out.old.items out.new.items) }
{
    out.extend_from_slice(b"enable ")?;
    push_actor(out, names, actor)?;
    out.push(b' ')?;
    out.extend_from_slice(analyzer_word(analyzer))?;
    out.push(b' ')?;
    out.extend_from_slice(switch_word(on))?;
    Ok(())
}

fn push_act(out: &mut Vec<u8>, word: &[u8], names: Names, actor: u32) -> Result<(), AllocError>
    ensures ok { OnOk result (out.new.items ≡ out.old.items ++ (word.now ++ actor_text names actor)) }
    ensures err { OnErr result (Keeps out.old.items out.new.items) }
{
    out.extend_from_slice(word)?;
    push_actor(out, names, actor)
}

#[tactic(auto, unfolding(crate::specs::History::step_text))]
fn push_step(out: &mut Vec<u8>, names: Names, step: &Step) -> Result<(), AllocError>
    ensures ok { OnOk result (out.new.items ≡ out.old.items ++ step_text names step.now) }
    ensures err { OnErr result (Keeps out.old.items out.new.items) }
{
    match step {
        Step::Commit {
            actor,
            text,
            changes,
        } => push_commit(out, names, *actor, text, *changes),
        Step::Undo(actor) => push_act(out, b"undo ", names, *actor),
        Step::Redo(actor) => push_act(out, b"redo ", names, *actor),
        Step::Full(actor) => push_act(out, b"full ", names, *actor),
        Step::Cancel(actor) => push_act(out, b"cancel ", names, *actor),
        Step::Enable(actor, analyzer, on) => push_enable(out, names, *actor, *analyzer, *on),
        Step::Settled => out.extend_from_slice(b"settled"),
    }
}

#[tactic(auto, unfolding(crate::specs::History::step_line))]
fn push_step_line(
    out: &mut Vec<u8>,
    names: Names,
    number: u64,
    step: &Step,
) -> Result<(), AllocError>
    ensures ok { OnOk result (out.new.items ≡ out.old.items ++ step_line names (number, step.now)) }
    ensures err { OnErr result (Keeps out.old.items out.new.items) }
{
    push_dec(out, number)?;
    out.push(b' ')?;
    push_step(out, names, step)?;
    out.push(b'\n')?;
    Ok(())
}

fn push_step_lines(out: &mut Vec<u8>, names: Names, steps: &[Step]) -> Result<(), AllocError>
    ensures ok { OnOk result (out.new.items ≡ out.old.items ++ step_lines names (enumerate_from 1 steps.now)) }
    ensures err { OnErr result (Keeps out.old.items out.new.items) }
{
    for (index, step) in steps.iter().enumerate() {
        push_step_line(out, names, index as u64 + 1, step)?;
    }
    Ok(())
}

fn push_head(out: &mut Vec<u8>, count: u64) -> Result<(), AllocError>
    ensures ok { OnOk result (out.new.items ≡ out.old.items ++ (codes "history " ++ decimal count ++ 10 ∷ [])) }
    ensures err { OnErr result (Keeps out.old.items out.new.items) }
{
    out.extend_from_slice(b"history ")?;
    push_dec(out, count)?;
    out.push(b'\n')?;
    Ok(())
}

#[tactic(auto, unfolding(crate::specs::History::history))]
fn push_history(steps: &[Step], names: Names, out: &mut Vec<u8>) -> Result<(), AllocError>
    ensures ok { OnOk result (out.new.items ≡ out.old.items ++ history steps.now names) }
    ensures err { OnErr result (Keeps out.old.items out.new.items) }
{
    push_head(out, steps.len() as u64)?;
    push_step_lines(out, names, steps)
}

/// Appends the history of a program: a line with the number of its steps, and a line for each step with its number,
/// counted from 1, what was done and by whom. An actor is written as [`push_actor`] writes it.
pub fn history(steps: &[Step], names: Names, out: &mut Vec<u8>) -> Result<(), AllocError>
    ensures ok { OnOk result (out.new.items ≡ out.old.items ++ history steps.now names) }
    ensures err { OnErr result (out.new.items ≡ out.old.items) }
{
    let len = out.len();
    let pushed = push_history(steps, names, out);
    if pushed.is_err() {
        out.truncate(len);
    }
    pushed
}

#[cfg(test)]
mod tests {
    use super::*;
    use std::str;
    use std::test::Fail;

    #[test]
    fn a_history_has_a_line_for_each_step(rt: HostRuntime) -> Result<(), Fail> {
        let names = Names {
            sessions: 1,
            workers: 1,
        };
        let named = Step::Commit {
            actor: 1,
            text: Text::of(rt.alloc(), Vec::from_array(rt.alloc(), *b"name")?)?,
            changes: 1,
        };
        let analyzed = Step::Commit {
            actor: 2,
            text: Text::of(rt.alloc(), Vec::from_array(rt.alloc(), *b"Analysis")?)?,
            changes: 3,
        };
        let steps = [
            named,
            Step::Undo(1),
            Step::Redo(1),
            Step::Full(1),
            analyzed,
            Step::Cancel(1),
            Step::Enable(1, Analyzer::Strings, false),
            Step::Settled,
        ];
        let mut out = Vec::new(rt.alloc());
        history(&steps, names, &mut out)?;
        assert_eq!(rt;
            str::from_utf8(&out),
            Ok(
                "history 8\n1 commit s1 \"name\" 1\n2 undo s1\n3 redo s1\n4 full s1\n5 commit w1 \"Analysis\" 3\n6 cancel s1\n7 enable s1 strings off\n8 settled\n"
            )
        );
        Ok(())
    }
}
