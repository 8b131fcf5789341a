ghost use Rattle.std.specs.Prelude.{◌≡◌, ◌++◌, ◌∷◌, [], cond, OnOk};
ghost use Rattle.std.specs.Ordering.{is_eq};

use rtps_ids::Memory;
use std::alloc::Global;
use std::collections::BTreeMap;

/// Lists of values, one for each key, in the order of the keys.
#[derive(Drop)]
pub(crate) struct Groups<K: Ord, V> {
    pub(crate) map: BTreeMap<K, Vec<V>>,
    pub(crate) alloc: Global,
}

impl<K: Ord + Copy + Drop, V: Copy + Drop> Groups<K, V> {
    ghost use Rattle.rtps_audit.specs.Placed as placed;

    /// No values.
    pub(crate) fn new(alloc: Global) -> Self
        ensures { (key : K) → placed.values_at K.cmp result.map key ≡ [] }
    {
        Groups {
            map: BTreeMap::new(alloc),
            alloc,
        }
    }

    /// Appends a value to those of its key. After `Memory` the lists are of no use.
    pub(crate) fn push(&mut self, key: K, value: V) -> Result<(), Memory>
        ensures { OnOk result ((other : K) → placed.values_at K.cmp self.new.map other
            ≡ placed.values_at K.cmp self.old.map other ++ cond (is_eq (K.cmp other key)) (value ∷ []) []) }
    {
        // Most lists are there, and an entry goes down the map twice.
        if let Some(found) = self.map.get_mut(&key) {
            append(found, value)?;
            return Ok(());
        }
        let mut list = Vec::new(self.alloc);
        append(&mut list, value)?;
        self.map.insert(key, list)?;
        Ok(())
    }

    /// The values of a key, in the order in which they came.
    pub(crate) fn of(&self, key: K) -> &[V]
        ensures { result.now ≡ placed.values_at K.cmp self.now.map key }
    {
        match self.map.get(&key) {
            Some(values) => values,
            None => &[],
        }
    }
}

/// Appends a value to a list. Many lists stay at their first value, so that one takes no room for others.
pub(crate) fn append<V: Drop>(list: &mut Vec<V>, value: V) -> Result<(), Memory>
    ensures { OnOk result (list.new.items ≡ list.old.items ++ value ∷ []) }
{
    if list.is_empty() {
        list.reserve_exact(1)?;
    }
    list.push(value)?;
    Ok(())
}
