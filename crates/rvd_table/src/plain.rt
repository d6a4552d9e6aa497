ghost use Rattle.std.specs.Prelude.{◌≡◌, ◌↔◌, [], length, T, IsTrue, IfOk, OnOk, OnErr};
ghost use Rattle.std.specs.Option.{option_map, option_copied};
ghost use Rattle.std.specs.FinMap.{find, put, is_sorted};
ghost use Rattle.rvd_table.specs.Table.{next_entry, last_entry, entries_from, without};

use crate::entries::{copy_entries, set_entry, unset_entry};
use crate::place::{count_up_to, next_place, place_of};
use crate::value::Copied;
use std::alloc::{AllocError, Global};
use std::marker::Model;
use std::sync::Arc;

/// A finite map with its keys in order. Contracts see it as the list of its entries, key and value, in the order of the keys.
#[derive(Drop)]
pub struct Table<K: Ord + Copy, V: Copied> {
    // Copies share the entries until one of them changes.
    entries: Arc<Vec<(K, V)>, Global>,
}

impl<K: Ord + Copy, V: Copied> Model for Table<K, V> {
    ghost use Rattle.std.specs.Prelude.{List, T};
    ghost use Rattle.std.specs.Arc.{arc_value};
    ghost use Rattle.std.specs.FinMap.{is_sorted};

    ghost Value = { List (K × V) };

    ghost view = { λ t. (arc_value t.entries).items };

    ghost invariant = { λ t. T (is_sorted K.cmp (arc_value t.entries).items) };
}

impl<K: Ord + Copy, V: Copied> Table<K, V> {
    /// The empty map. Only want of memory refuses it.
    pub fn new(alloc: Global) -> Result<Table<K, V>, AllocError>
        ensures { IfOk result (λ t. t ≡ []) }
    {
        let entries = Arc::new(alloc, Vec::new(alloc))?;
        Ok(Table { entries })
    }

    /// The value at a key, or None where the map lacks it. It takes no memory.
    pub fn get(&self, key: &K) -> Option<&V>
        ensures { option_copied result ≡ find K.cmp key.now self.now }
    {
        match place_of(&self.entries, key) {
            Ok(at) => Some(&self.entries[at].1),
            Err(_) => None,
        }
    }

    /// The entry of the least key that isn't below `key`, or None where each is below. It takes no memory.
    pub fn next_at_or_after(&self, key: &K) -> Option<(&K, &V)>
        ensures { option_map (λ e. (e.0.now, e.1.now)) result ≡ next_entry K.cmp key.now self.now }
    {
        let at = next_place(&self.entries, key);
        if at < self.entries.len() {
            let entry = &self.entries[at];
            Some((&entry.0, &entry.1))
        } else {
            None
        }
    }

    /// The entry of the greatest key that isn't above `key`, or None where each is above. It takes no memory.
    pub fn last_at_or_before(&self, key: &K) -> Option<(&K, &V)>
        ensures { option_map (λ e. (e.0.now, e.1.now)) result ≡ last_entry K.cmp key.now self.now }
    {
        let count = count_up_to(&self.entries, key);
        if count > 0 {
            let entry = &self.entries[count - 1];
            Some((&entry.0, &entry.1))
        } else {
            None
        }
    }

    /// Sets the value at a key, and gives the value that was there. Only want of memory refuses it, and then the map is as before.
    pub fn set(&mut self, key: K, value: V) -> Result<Option<V>, AllocError>
        ensures ok { OnOk result (self.new ≡ put K.cmp key value self.old) }
        ensures before { IfOk result (λ v. v ≡ find K.cmp key self.old) }
        ensures err { OnErr result (self.new ≡ self.old) }
    {
        self.own()?;
        match Arc::get_mut(&mut self.entries) {
            Some(entries) => set_entry(entries, key, value),
            None => Err(AllocError),
        }
    }

    /// Takes a key away, and gives the value that was there. Only want of memory refuses it, and then the map is as before.
    pub fn unset(&mut self, key: &K) -> Result<Option<V>, AllocError>
        ensures ok { OnOk result (self.new ≡ without K.cmp key.now self.old) }
        ensures before { IfOk result (λ v. v ≡ find K.cmp key.now self.old) }
        ensures err { OnErr result (self.new ≡ self.old) }
    {
        self.own()?;
        match Arc::get_mut(&mut self.entries) {
            Some(entries) => unset_entry(entries, key),
            None => Err(AllocError),
        }
    }

    // Makes the entries this map's alone, by a copy where another map shares them.
    fn own(&mut self) -> Result<(), AllocError>
        ensures { self.new ≡ self.old }
    {
        if Arc::strong_count(&self.entries) > 1 {
            let entries = copy_entries(&self.entries)?;
            self.entries = Arc::new(*entries.allocator(), entries)?;
        }
        Ok(())
    }

    /// An equal map, at once: the two share their entries until one of them changes, which then copies them. Only want of
    /// memory refuses it.
    pub fn copy(&self) -> Result<Table<K, V>, AllocError>
        ensures { IfOk result (λ t. t ≡ self.now) }
    {
        let entries = Arc::try_clone(&self.entries)?;
        Ok(Table { entries })
    }

    /// The entries, key and value. Their keys strictly rise. It takes no memory.
    pub fn entries(&self) -> &[(K, V)]
        ensures value { result.now ≡ self.now }
        ensures ordered { T (is_sorted K.cmp self.now) }
    {
        &self.entries
    }

    /// The entries of the keys that aren't below `key`, in their order. The first is found by a look-up. It takes no memory.
    pub fn entries_from(&self, key: &K) -> &[(K, V)]
        ensures value { result.now ≡ entries_from K.cmp key.now self.now }
        ensures ordered { T (is_sorted K.cmp result.now) }
    {
        let at = next_place(&self.entries, key);
        &self.entries[at..]
    }

    /// The number of keys. It takes no memory.
    pub fn len(&self) -> u64
        ensures { result ≡ length self.now }
    {
        self.entries.len() as u64
    }

    /// Whether the map has no key. It takes no memory.
    pub fn is_empty(&self) -> bool
        ensures { IsTrue result ↔ (self.now ≡ []) }
    {
        self.entries.is_empty()
    }
}
