use crate::{Note, OutOfMemory, Story, Writer, split_and_meet, write_together};
use rvd_turn::{Storied, Turn};
use std::alloc::Global;
use std::test::Fail;

fn numbers_below(alloc: Global, end: u64) -> Result<Vec<u64>, OutOfMemory> {
    let mut all = Vec::new(alloc);
    for i in 0..end {
        all.push(i)?;
    }
    Ok(all)
}

// Whether the numbers of this owner are those below `end`, in order.
fn counts_up(notes: &[Note], owner: u32, end: u64) -> bool {
    let own = notes.iter().filter(|note| note.owner == owner);
    own.map(|note| note.number).eq(0..end)
}

#[test]
fn a_turn_split_once_and_met_closes_to_its_value(rt: HostRuntime) -> Result<(), Fail> {
    let story = split_and_meet(rt.alloc(), 7)?;
    assert_eq!(rt; story.title(), 7);
    assert_eq!(rt; story.count(), 0);
    Ok(())
}

#[test]
fn threads_write_each_its_numbers_in_order(rt: HostRuntime) -> Result<(), Fail> {
    for (name, threads, each, total) in [
        ("two threads, 1,000 notes each", 2u32, 1000, 2000),
        ("eight threads, 200 notes each", 8u32, 200, 1600),
    ] {
        let mut lists = Vec::new(rt.alloc());
        for _ in 0..threads {
            lists.push(numbers_below(rt.alloc(), each)?)?;
        }
        assert!(rt; lists.len() < 65536, "{name}");
        let story = write_together(&rt, rt.alloc(), 7, lists)?;
        assert_eq!(rt; story.title(), 7, "{name}");
        assert_eq!(rt; story.count(), total, "{name}");
        for owner in 1..=threads {
            assert!(rt;
                counts_up(story.notes(), owner, each),
                "{name}: writer {owner}"
            );
        }
    }
    Ok(())
}

#[test]
fn a_pass_that_met_another_has_seen_the_longer_story(rt: HostRuntime) -> Result<(), Fail> {
    let (turn, mut pass) = Turn::new(rt.alloc(), Story::new(rt.alloc(), 7))?;
    let mut second = Writer::new(1, turn.split(rt.alloc(), &mut pass)?);
    let mut first = Writer::new(0, pass);
    first.write(&rt, &turn, 5)?;
    second.write(&rt, &turn, 6)?;
    second.write(&rt, &turn, 7)?;
    second.write(&rt, &turn, 8)?;
    first.meet(&turn, second);
    let story = first.read(&rt, rt.alloc(), &turn)?;
    assert_eq!(rt; story.count(), 4);
    assert!(rt;
        story
            .notes()
            .iter()
            .map(|note| note.number)
            .eq([5, 6, 7, 8])
    );
    Ok(())
}
