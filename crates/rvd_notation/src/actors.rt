ghost use Rattle.std.specs.Prelude.{◌≡◌, ◌++◌, OnOk, OnErr};
ghost use Rattle.rvd_notation.specs.Actors.{actor_text, analyzer_word};
ghost use Rattle.rvd_notation.specs.Pieces.{Keeps};

use rvd_ask::Analyzer;
use rvd_event::Names;
use rvd_text::push_dec;
use std::alloc::AllocError;

/// The word of an analyzer.
pub fn analyzer_word(analyzer: Analyzer) -> &'static [u8]
    ensures { result.now ≡ analyzer_word analyzer }
{
    match analyzer {
        Analyzer::Flow => b"flow",
        Analyzer::Refs => b"refs",
        Analyzer::Funcs => b"funcs",
        Analyzer::Body => b"body",
        Analyzer::Strings => b"strings",
    }
}

fn push_actor_pieces(out: &mut Vec<u8>, names: Names, actor: u32) -> Result<(), AllocError>
    ensures ok { OnOk result (out.new.items ≡ out.old.items ++ actor_text names actor) }
    ensures err { OnErr result (Keeps out.old.items out.new.items) }
{
    if actor >= 1 && actor <= names.sessions {
        out.push(b's')?;
        push_dec(out, u64::from(actor))
    } else {
        out.push(b'w')?;
        push_dec(out, u64::from(actor.saturating_sub(names.sessions)))
    }
}

/// Appends an actor: `s` and the number of a session, or `w` and the number of a worker, both counted from 1. A number
/// that is neither a session's nor a worker's is written as a worker's, by its distance above the sessions.
pub fn push_actor(out: &mut Vec<u8>, names: Names, actor: u32) -> Result<(), AllocError>
    ensures ok { OnOk result (out.new.items ≡ out.old.items ++ actor_text names actor) }
    ensures err { OnErr result (out.new.items ≡ out.old.items) }
{
    let len = out.len();
    let pushed = push_actor_pieces(out, names, actor);
    if pushed.is_err() {
        out.truncate(len);
    }
    pushed
}
