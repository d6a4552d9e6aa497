ghost use Rattle.std.specs.Prelude.{◌≡◌, ◌++◌, [], ◌∷◌, OnOk, OnErr, codes};
ghost use Rattle.std.specs.Fmt.{decimal};
ghost use Rattle.rvd_notation.specs.Pieces.{Keeps};
ghost use Rattle.rvd_report.specs.Answers.{answer_line, answer_lines, answers_text};

use rvd_fact::Bytes;
use rvd_text::push_dec;
use std::alloc::AllocError;

/// A query that is answered.
#[derive(Debug, Drop)]
pub struct Answered {
    /// The number of the session that asks, from 1 on.
    pub session: u32,
    /// The number of the query's line in its file, from 1 on.
    pub line: u32,
    /// The text of the answer.
    pub answer: Bytes,
}

#[tactic(auto, unfolding(crate::specs::Answers::answer_line))]
fn push_answer_line(out: &mut Vec<u8>, answered: &Answered) -> Result<(), AllocError>
    ensures ok { OnOk result (out.new.items ≡ out.old.items ++ answer_line answered.now) }
    ensures err { OnErr result (Keeps out.old.items out.new.items) }
{
    out.push(b's')?;
    push_dec(out, u64::from(answered.session))?;
    out.push(b' ')?;
    push_dec(out, u64::from(answered.line))?;
    out.push(b' ')?;
    out.extend_from_slice(answered.answer.list())?;
    out.push(b'\n')?;
    Ok(())
}

fn push_answer_lines(out: &mut Vec<u8>, answered: &[Answered]) -> Result<(), AllocError>
    ensures ok { OnOk result (out.new.items ≡ out.old.items ++ answer_lines answered.now) }
    ensures err { OnErr result (Keeps out.old.items out.new.items) }
{
    for one in answered {
        push_answer_line(out, one)?;
    }
    Ok(())
}

fn push_head(out: &mut Vec<u8>, count: u64) -> Result<(), AllocError>
    ensures ok { OnOk result (out.new.items ≡ out.old.items ++ (codes "answers " ++ decimal count ++ 10 ∷ [])) }
    ensures err { OnErr result (Keeps out.old.items out.new.items) }
{
    out.extend_from_slice(b"answers ")?;
    push_dec(out, count)?;
    out.push(b'\n')?;
    Ok(())
}

#[tactic(auto, unfolding(crate::specs::Answers::answers_text))]
fn push_answers(answered: &[Answered], out: &mut Vec<u8>) -> Result<(), AllocError>
    ensures ok { OnOk result (out.new.items ≡ out.old.items ++ answers_text answered.now) }
    ensures err { OnErr result (Keeps out.old.items out.new.items) }
{
    push_head(out, answered.len() as u64)?;
    push_answer_lines(out, answered)
}

/// Appends the answers to queries: a line with their number, and a line for each with its session, the number of its
/// line in the session's file, and the answer.
pub fn answers(answered: &[Answered], out: &mut Vec<u8>) -> Result<(), AllocError>
    ensures ok { OnOk result (out.new.items ≡ out.old.items ++ answers_text answered.now) }
    ensures err { OnErr result (out.new.items ≡ out.old.items) }
{
    let len = out.len();
    let pushed = push_answers(answered, out);
    if pushed.is_err() {
        out.truncate(len);
    }
    pushed
}

#[cfg(test)]
mod tests {
    use super::*;
    use std::alloc::Global;
    use std::str;
    use std::test::Fail;

    fn answered(alloc: Global, line: u32, answer: &str) -> Result<Answered, AllocError> {
        let bytes = Vec::from_slice(alloc, answer.as_bytes())?;
        Ok(Answered {
            session: 1,
            line,
            answer: Bytes::of(alloc, bytes)?,
        })
    }

    #[test]
    fn each_answer_has_a_line(rt: HostRuntime) -> Result<(), Fail> {
        let alloc = rt.alloc();
        let asked = [
            answered(alloc, 8, "none")?,
            answered(alloc, 11, "\"start\"")?,
        ];
        let mut out = Vec::new(alloc);
        answers(&asked, &mut out)?;
        assert_eq!(rt;
            str::from_utf8(&out),
            Ok("answers 2\ns1 8 none\ns1 11 \"start\"\n")
        );
        Ok(())
    }
}
