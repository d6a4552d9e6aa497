ghost use Rattle.std.specs.Prelude.{◌≡◌, T, IfOk, OnOk, OnErr};
ghost use Rattle.std.specs.FinMap.{find, put, is_sorted};
ghost use Rattle.rvd_table.specs.Table.{without};

use crate::place::place_of;
use crate::value::Copied;
use std::alloc::AllocError;
use std::mem;

/// An equal list of entries.
pub fn copy_entries<K: Ord + Copy, V: Copied>(
    entries: &Vec<(K, V)>,
) -> Result<Vec<(K, V)>, AllocError>
    ensures { IfOk result (λ copy. copy.items ≡ entries.now.items) }
{
    let all: &[(K, V)] = entries;
    let mut copy = Vec::with_capacity(*entries.allocator(), all.len())?;
    for entry in all {
        let value = entry.1.copied()?;
        copy.push((entry.0, value))?;
    }
    Ok(copy)
}

/// Sets the value at a key, and gives the value that was there. On want of memory the entries are as before.
pub fn set_entry<K: Ord + Copy, V: Copied>(
    entries: &mut Vec<(K, V)>,
    key: K,
    value: V,
) -> Result<Option<V>, AllocError>
    requires { T (is_sorted K.cmp entries.old.items) }
    ensures ok { OnOk result (entries.new.items ≡ put K.cmp key value entries.old.items) }
    ensures before { IfOk result (λ v. v ≡ find K.cmp key entries.old.items) }
    ensures err { OnErr result (entries.new.items ≡ entries.old.items) }
    ensures ordered { T (is_sorted K.cmp entries.new.items) }
{
    match place_of(entries, &key) {
        Ok(at) => {
            let entry = &mut entries[at];
            let before = mem::replace(&mut entry.1, value);
            Ok(Some(before))
        }
        Err(at) => {
            entries.insert(at, (key, value))?;
            Ok(None)
        }
    }
}

/// Takes a key away, and gives the value that was there.
pub fn unset_entry<K: Ord + Copy, V: Copied>(
    entries: &mut Vec<(K, V)>,
    key: &K,
) -> Result<Option<V>, AllocError>
    requires { T (is_sorted K.cmp entries.old.items) }
    ensures ok { OnOk result (entries.new.items ≡ without K.cmp key.now entries.old.items) }
    ensures before { IfOk result (λ v. v ≡ find K.cmp key.now entries.old.items) }
    ensures err { OnErr result (entries.new.items ≡ entries.old.items) }
    ensures ordered { T (is_sorted K.cmp entries.new.items) }
{
    match place_of(entries, key) {
        Ok(at) => {
            let (_, before) = entries.remove(at);
            Ok(Some(before))
        }
        Err(_) => Ok(None),
    }
}
