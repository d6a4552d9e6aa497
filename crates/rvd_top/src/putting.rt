ghost use Rattle.std.specs.Prelude.{◌≡◌, Ok};
ghost use Rattle.std.specs.Result.{ForErr};
ghost use Rattle.rvd_io.specs.Causes.{Rose};
ghost use Rattle.rvd_top.specs.Answers.{answer_of};
ghost use Rattle.rvd_top.specs.Runs.{EndsWith};
ghost use Rattle.rvd_top.specs.Endings.{IsBeforePut, KeepsSink};

use crate::endings::Ending;
use rvd_io::{PutError, Sink, put_all};

// Puts a text.
fn put_text<K: Sink>(out: &mut K, text: &[u8]) -> Ending
    ensures ends { EndsWith (K.contents out.old) (K.contents out.new) (Ok text.now) result }
    ensures sink { KeepsSink result out.old out.new }
    ensures write { result ≡ Ending.WriteFault → Rose (K.faults out.old) (K.faults out.new) }
{
    match put_all(out, text) {
        Ok(()) => Ending::Done,
        Err(PutError::Failed) => Ending::WriteFault,
    }
}

/// Puts the text that a command answers; an ending in its place stays.
pub(crate) fn put_answer<K: Sink>(out: &mut K, answer: Result<Vec<u8>, Ending>) -> Ending
    requires { ForErr answer IsBeforePut }
    ensures ends { EndsWith (K.contents out.old) (K.contents out.new) (answer_of answer) result }
    ensures sink { KeepsSink result out.old out.new }
    ensures write { result ≡ Ending.WriteFault → Rose (K.faults out.old) (K.faults out.new) }
{
    match answer {
        Ok(text) => put_text(out, &text),
        Err(ending) => ending,
    }
}
