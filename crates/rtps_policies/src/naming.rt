ghost use Rattle.std.specs.Prelude.{◌≡◌, ◌+◌, ◌<◌, ◌^◌, ◌&&◌, ◌||◌, ◌++◌, ◌∷◌, [], List, OnOk, false, if◌then◌else◌, map, not, unwrap_or};
ghost use Rattle.std.specs.BTreeMap.{get};
ghost use Rattle.std.specs.BTreeSet.{contains};
ghost use Rattle.std.specs.List.{list_any};
ghost use Rattle.rtps_receiver.specs.Values as values;
ghost use Rattle.rtps_policies.specs.Namings as namings;
ghost use Rattle.rtps_policies.specs.declared.naming.Naming.{Naming as NamingValue};

use rtps_ids::{GuidPrefix, Memory};
use rtps_receiver::Spoken;
use std::alloc::Global;
use std::collections::{BTreeMap, BTreeSet};

/// A participant that sends, and the one that it names as the destination (DDSI-RTPS 2.5, 8.3.8.8 "InfoDestination").
#[derive(Clone, Copy, PartialEq, Eq, PartialOrd, Ord)]
pub struct Naming {
    pub source: GuidPrefix,
    pub dest: GuidPrefix,
}

impl Naming {
    /// The other way round.
    pub(crate) fn reversed(self) -> Naming
        ensures { result ≡ record { source = self.dest; dest = self.source } }
    {
        Naming {
            source: self.dest,
            dest: self.source,
        }
    }
}

/// Which participants of a recording name which, and in how many datagrams.
#[derive(Drop)]
pub struct Namings {
    pub(crate) counts: BTreeMap<Naming, u64>,
    alloc: Global,
}

impl Namings {
    /// Those of no datagrams. It takes no memory.
    pub fn new(alloc: Global) -> Namings
        ensures { namings.AreNamingsOf [] result }
    {
        Namings {
            counts: BTreeMap::new(alloc),
            alloc,
        }
    }

    /// Counts one datagram more, by its acts. After `Memory` the counts are of no use.
    pub fn note(&mut self, acts: &[Spoken<'_>]) -> Result<(), Memory>
        requires { (naming : NamingValue) → namings.named_by self.old naming + 1 < 2 ^ 64 }
        ensures { OnOk result ((datagrams : List (List values.ActValue)) → namings.AreNamingsOf datagrams self.old
            → namings.AreNamingsOf (datagrams ++ map values.spoken_value acts.now ∷ []) self.new) }
    {
        self.count_datagram(acts)
    }

    /// In how many datagrams a participant names another.
    pub fn named(&self, naming: Naming) -> u64
        ensures { result ≡ namings.named_by self.now naming }
    {
        match self.counts.get(&naming) {
            Some(count) => *count,
            None => 0,
        }
    }

    /// Counts the acts of one datagram, each naming once. After `Memory` the counts are of no use.
    fn count_datagram(&mut self, acts: &[Spoken<'_>]) -> Result<(), Memory>
        requires { (naming : NamingValue) → unwrap_or (get namings.naming_cmp self.old.counts naming) 0 + 1 < 2 ^ 64 }
        ensures { OnOk result ((naming : NamingValue) → unwrap_or (get namings.naming_cmp self.new.counts naming) 0
            ≡ unwrap_or (get namings.naming_cmp self.old.counts naming) 0 + (if list_any (namings.names naming) (map values.spoken_value acts.now) then 1 else 0)) }
    {
        let mut seen = BTreeSet::new(self.alloc);
        for act in acts {
            self.count_act(&mut seen, act)?;
        }
        Ok(())
    }

    /// Counts the naming of an act, unless it was seen. After `Memory` the counts are of no use.
    fn count_act(&mut self, seen: &mut BTreeSet<Naming>, act: &Spoken<'_>) -> Result<(), Memory>
        requires { (naming : NamingValue) → contains namings.naming_cmp seen.old naming ≡ false → unwrap_or (get namings.naming_cmp self.old.counts naming) 0 + 1 < 2 ^ 64 }
        ensures seen { OnOk result ((naming : NamingValue) → contains namings.naming_cmp seen.new naming
            ≡ (contains namings.naming_cmp seen.old naming || namings.names naming (values.spoken_value act.now))) }
        ensures count { OnOk result ((naming : NamingValue) → unwrap_or (get namings.naming_cmp self.new.counts naming) 0
            ≡ unwrap_or (get namings.naming_cmp self.old.counts naming) 0
            + (if namings.names naming (values.spoken_value act.now) && not (contains namings.naming_cmp seen.old naming) then 1 else 0)) }
    {
        let Some(dest) = act.dest else {
            return Ok(());
        };
        let source = act.source;
        let naming = Naming { source, dest };
        let added = seen.insert(naming)?;
        if !added {
            return Ok(());
        }
        let count = self.named(naming);
        self.counts.insert(naming, count + 1)?;
        Ok(())
    }
}
