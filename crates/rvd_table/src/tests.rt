use crate::{Copied, Table};
use std::test::Fail;

#[test]
fn a_key_set_twice_answers_with_what_was_there(rt: HostRuntime) -> Result<(), Fail> {
    let mut table = Table::new(rt.alloc())?;
    assert_eq!(rt; table.set(3u64, 1u64)?, None);
    assert_eq!(rt; table.set(3, 2)?, Some(1));
    let mut copy = table.copy()?;
    assert_eq!(rt; copy.unset(&3)?, Some(2));
    assert_eq!(rt; copy.unset(&3)?, None);
    assert!(rt; copy.is_empty());
    assert_eq!(rt; table.get(&3).copied(), Some(2));
    assert_eq!(rt; table.len(), 1);
    Ok(())
}

#[test]
fn a_copy_keeps_what_it_was(rt: HostRuntime) -> Result<(), Fail> {
    let mut table = Table::new(rt.alloc())?;
    table.set(3u64, 1u64)?;
    let copy = table.copy()?;
    table.set(3, 2)?;
    table.set(4, 5)?;
    assert_eq!(rt; copy.entries(), [(3, 1)].as_slice());
    assert_eq!(rt; table.entries(), [(3, 2), (4, 5)].as_slice());
    Ok(())
}

#[test]
fn neighbours_are_the_nearest_keys(rt: HostRuntime) -> Result<(), Fail> {
    let mut table = Table::new(rt.alloc())?;
    for key in [20u64, 10, 30, 25] {
        table.set(key, key + 1)?;
    }
    assert_eq!(rt;
        table.entries(),
        [(10, 11), (20, 21), (25, 26), (30, 31)].as_slice()
    );
    for (key, next, last, from) in [
        (9, Some(10), None, 4),
        (10, Some(10), Some(10), 4),
        (11, Some(20), Some(10), 3),
        (20, Some(20), Some(20), 3),
        (26, Some(30), Some(25), 1),
        (30, Some(30), Some(30), 1),
        (31, None, Some(30), 0),
    ] {
        assert_eq!(rt;
            table.next_at_or_after(&key).map(|e| *e.0),
            next,
            "at {key}"
        );
        assert_eq!(rt;
            table.last_at_or_before(&key).map(|e| *e.0),
            last,
            "at {key}"
        );
        assert_eq!(rt; table.entries_from(&key).len(), from, "at {key}");
    }
    Ok(())
}

// Threads move a map, and share it, where they do so with its keys and values.
fn is_shared<T: Send + Sync>(_shared: &T) {}

fn is_table_shared<K: Ord + Copy + Send + Sync, V: Copied + Send + Sync>(table: &Table<K, V>) {
    is_shared(table);
}

#[test]
fn threads_may_share_a_table(rt: HostRuntime) -> Result<(), Fail> {
    let table: Table<u64, u64> = Table::new(rt.alloc())?;
    is_table_shared(&table);
    Ok(())
}
