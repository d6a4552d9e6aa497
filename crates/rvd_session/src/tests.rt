use crate::Session;
use rvd_desk::{Desk, Snapshot};
use rvd_event::{Event, Query, Refusal, Reply};
use rvd_fact::Text;
use rvd_program::Program;
use rvd_turn::{Pass, Turn};
use std::test::Fail;

fn is_send<T: Send>(_value: &T) -> bool {
    true
}

#[test]
fn a_session_commits_reads_and_closes(rt: HostRuntime) -> Result<(), Fail> {
    let alloc = rt.alloc();
    let program = Program::empty(alloc)?;
    let first = Snapshot::first(program.copy()?);
    let desk = Desk::new(alloc, program, 1, 0)?;
    let (turn, mut lead): (Turn<Desk>, Pass<Desk>) = Turn::new(alloc, desk)?;
    let pass = turn.split(alloc, &mut lead)?;
    let mut session = Session::new(1, pass, first);
    assert!(rt; is_send(&session));
    let text = Text::of(alloc, Vec::new(alloc))?;
    let begun = session.call(&rt, alloc, &turn, Event::Begin(text))?;
    assert!(rt; matches!(begun, Reply::Entry(1)));
    let held = session.wait(&rt, alloc, &turn)?;
    assert!(rt; matches!(held, Reply::Refused(Refusal::HasEntry(1))));
    let ended = session.call(&rt, alloc, &turn, Event::End(true))?;
    assert!(rt; matches!(ended, Reply::Committed(1)));
    let read = session.call(&rt, alloc, &turn, Event::Read)?;
    assert!(rt; matches!(read, Reply::At(1)));
    let mut name = Vec::new(alloc);
    session.ask(alloc, &Query::Name(0), &mut name)?;
    assert_eq!(rt; name.as_slice(), b"none".as_slice());
    let closed = session.call(&rt, alloc, &turn, Event::Close)?;
    assert!(rt; matches!(closed, Reply::Closed(0)));
    let _ = session.finish();
    Ok(())
}
