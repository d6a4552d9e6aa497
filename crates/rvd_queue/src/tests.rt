use crate::{Queues, Taken};
use rvd_ask::{Analyzer, Item, Items};
use std::alloc::{AllocError, Global};
use std::test::Fail;

const FLOW_4: Item = Item {
    analyzer: Analyzer::Flow,
    at: 4,
};

const FLOW_8: Item = Item {
    analyzer: Analyzer::Flow,
    at: 8,
};

const REFS_0: Item = Item {
    analyzer: Analyzer::Refs,
    at: 0,
};

const BODY_0: Item = Item {
    analyzer: Analyzer::Body,
    at: 0,
};

// All queued items, in order.
fn queued(alloc: Global, queues: &Queues) -> Result<Items, AllocError> {
    queues.least(alloc, u32::MAX)
}

fn crosses_threads<T: Send + Sync>() {}

#[test]
fn queues_and_jobs_may_cross_threads() {
    crosses_threads::<Queues>();
    crosses_threads::<Taken<Items>>();
}

#[test]
fn a_rollback_queues_again_what_was_taken(rt: HostRuntime) -> Result<(), Fail> {
    let alloc = rt.alloc();
    let mut queues = Queues::new(alloc)?;
    queues.add_all(&[REFS_0, FLOW_8, FLOW_4, FLOW_8], &[])?;
    assert_eq!(rt; queues.len(), 3);
    queues.keep_queued();
    let taken = queues.least(alloc, 2)?;
    assert!(rt; taken.list() == [FLOW_4, FLOW_8].as_slice());
    queues.remove_all(&taken);
    queues.add_all(&[BODY_0], &[])?;
    assert!(rt; queued(alloc, &queues)?.list() == [REFS_0, BODY_0].as_slice());
    queues.restore();
    queues.forget();
    assert!(rt; queued(alloc, &queues)?.list() == [FLOW_4, FLOW_8, REFS_0, BODY_0].as_slice());
    assert_eq!(rt; queues.len(), 4);
    Ok(())
}

#[test]
fn what_is_forgotten_or_removed_does_not_come_back(rt: HostRuntime) -> Result<(), Fail> {
    let alloc = rt.alloc();
    let mut queues = Queues::new(alloc)?;
    queues.add_all(&[BODY_0, FLOW_4], &[REFS_0, FLOW_8])?;
    queues.remove_analyzer(Analyzer::Flow);
    queues.restore();
    assert!(rt; queued(alloc, &queues)?.list() == [REFS_0, BODY_0].as_slice());
    queues.add_all(&[], &[FLOW_4])?;
    queues.forget();
    queues.restore();
    assert_eq!(rt; queues.len(), 2);
    queues.clear();
    queues.restore();
    assert_eq!(rt; queues.len(), 0);
    assert!(rt; queued(alloc, &queues)?.list().is_empty());
    Ok(())
}

// The tickets and the programs, in order of taking.
fn jobs(alloc: Global, taken: &Taken<u8>) -> Result<Vec<(u64, u8)>, AllocError> {
    let mut list = Vec::new(alloc);
    for place in 0..taken.len() {
        if let Some((ticket, _, program)) = taken.at(place) {
            list.push((ticket, *program))?;
        }
    }
    Ok(list)
}

#[test]
fn jobs_stay_in_order_of_taking(rt: HostRuntime) -> Result<(), Fail> {
    let alloc = rt.alloc();
    let mut taken = Taken::new(alloc)?;
    taken.put(7, Items::of(alloc, vec![in alloc; FLOW_4]?)?, b'a')?;
    taken.put(3, Items::of(alloc, vec![in alloc; FLOW_4]?)?, b'b')?;
    taken.put(5, Items::of(alloc, vec![in alloc; FLOW_4]?)?, b'c')?;
    assert!(rt; jobs(alloc, &taken)?.as_slice() == [(7, b'a'), (3, b'b'), (5, b'c')].as_slice());
    taken.drop_ticket(3);
    taken.drop_ticket(4);
    assert!(rt; jobs(alloc, &taken)?.as_slice() == [(7, b'a'), (5, b'c')].as_slice());
    let found = match taken.find(5) {
        Some((items, program)) => items.list() == [FLOW_4].as_slice() && *program == b'c',
        None => false,
    };
    assert!(rt; found);
    taken.clear();
    assert_eq!(rt; taken.len(), 0);
    assert!(rt; taken.at(0).is_none());
    Ok(())
}
