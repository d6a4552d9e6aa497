ghost use Rattle.std.specs.Prelude.{◌≡◌, ◌<◌, ◌≤◌, ◌-◌, length, drop, slice_get, None, IfOk, IfErr, T};
ghost use Rattle.std.specs.FinMap.{is_sorted};
ghost use Rattle.rvd_table.specs.Table.{next_entry, last_entry, entries_from};
ghost use Rattle.rvd_table.specs.Places.{IsKeyAt, IsKeyGap};

use std::cmp::Ordering;

// A binary search for the place of a key, or for the place where it would go.
fn search<K: Ord + Copy, V>(entries: &[(K, V)], key: &K) -> Result<usize, usize>
    requires { T (is_sorted K.cmp entries.now) }
    ensures found { IfOk result (IsKeyAt K.cmp key.now entries.now) }
    ensures absent { IfErr result (IsKeyGap K.cmp key.now entries.now) }
{
    let mut low = 0;
    let mut high = entries.len();
    while low < high {
        let middle = low + (high - low) / 2;
        match key.cmp(&entries[middle].0) {
            Ordering::Less => high = middle,
            Ordering::Equal => return Ok(middle),
            Ordering::Greater => low = middle + 1,
        }
    }
    Err(low)
}

/// The place of a key, or the place where it would go. A key above the last one takes one comparison.
pub fn place_of<K: Ord + Copy, V>(entries: &[(K, V)], key: &K) -> Result<usize, usize>
    requires { T (is_sorted K.cmp entries.now) }
    ensures found { IfOk result (IsKeyAt K.cmp key.now entries.now) }
    ensures absent { IfErr result (IsKeyGap K.cmp key.now entries.now) }
{
    let count = entries.len();
    if count > 0 {
        match key.cmp(&entries[count - 1].0) {
            Ordering::Greater => return Err(count),
            Ordering::Equal => return Ok(count - 1),
            Ordering::Less => {}
        }
    }
    search(entries, key)
}

/// The place of the least key that isn't below, or the number of keys where there is none.
pub fn next_place<K: Ord + Copy, V>(entries: &[(K, V)], key: &K) -> usize
    requires { T (is_sorted K.cmp entries.now) }
    ensures within { result ≤ length entries.now }
    ensures next { next_entry K.cmp key.now entries.now ≡ slice_get entries.now result }
    ensures rest { entries_from K.cmp key.now entries.now ≡ drop result entries.now }
{
    match place_of(entries, key) {
        Ok(at) => at,
        Err(at) => at,
    }
}

/// How many keys aren't above.
pub fn count_up_to<K: Ord + Copy, V>(entries: &[(K, V)], key: &K) -> usize
    requires { T (is_sorted K.cmp entries.now) }
    ensures within { result ≤ length entries.now }
    ensures none { result ≡ 0 → last_entry K.cmp key.now entries.now ≡ None }
    ensures last { 0 < result → last_entry K.cmp key.now entries.now ≡ slice_get entries.now (result - 1) }
{
    match place_of(entries, key) {
        Ok(at) => at + 1,
        Err(at) => at,
    }
}
