//! Laws of the definitions. Each is the contract of a function that does nothing.

ghost use Rattle.std.specs.Prelude.{◌≡◌, ◌↔◌, ◌++◌, ◌∷◌, [], List, Some, Ok, Contains, map};
ghost use Rattle.std.specs.List.Sorted.{IsPermutation, IsStrictlySortedBy};
ghost use Rattle.rtps_ids.specs.declared.identity.Guid.{Guid};
ghost use Rattle.rtps_receiver.specs.Values as values;
ghost use Rattle.rtps_discovery.specs.Layout as layout;
ghost use Rattle.rtps_discovery.specs.Announcement as announcement;
ghost use Rattle.rtps_discovery.specs.Directory as directory_spec;
ghost use Rattle.rtps_discovery.specs.Endpoint as endpoint;
ghost use Rattle.rtps_discovery.specs.GuidOrder as guid_order;
ghost use Rattle.rtps_discovery.specs.Laws as laws;
ghost use Rattle.rtps_discovery.specs.Listings as listings;
ghost use Rattle.rtps_discovery.specs.Matching as matching;
ghost use Rattle.rtps_discovery.specs.Notice as notice;
ghost use Rattle.rtps_discovery.specs.Described as described;
ghost use Rattle.rtps_discovery.specs.declared.endpoint.Side.{Side};
ghost use Rattle.rtps_discovery.specs.declared.matching.Match.{Match};
ghost use Rattle.rtps_discovery.specs.declared.matching.Pair.{Pair};

use rtps_params::laws::ends;

/// Parameters are read as an announcement if and only if they give each of its fields.
pub fn told()
    ensures participant { (fields : announcement.Fields) (guid : Guid)
        → (announcement.participant_in fields ≡ Ok guid) ↔ (announcement.participant_guid fields ≡ Some guid) }
    ensures endpoint { (side : Side) (fields : announcement.Fields) (endpoint : endpoint.EndpointValue)
        → (announcement.endpoint_in side fields ≡ Ok endpoint) ↔ described.IsDescribedBy side fields endpoint }
{}

/// A payload is read as the parameter list after the four octets of its representation, whatever follows the list. If
/// there is no list, the result is the fault that says why.
pub fn read_of_the_list()
    ensures fields { laws.FieldsAreOfTheList }
    ensures faults { laws.FaultsAreOfNoList }
    ensures participant { laws.ListsTellParticipants }
    ensures endpoint { laws.ListsTellEndpoints }
    ensures none { laws.NoListIsTheFault }
{
    ends();
}

/// Each list of acts has exactly one map.
pub fn one_map()
    ensures exists { (acts : List values.ActValue) → (map : directory_spec.DirectoryValue) × directory_spec.IsMapOf acts map }
    ensures unique { (acts : List values.ActValue) (map : directory_spec.DirectoryValue) (other : directory_spec.DirectoryValue)
        → directory_spec.IsMapOf acts map → directory_spec.IsMapOf acts other → map ≡ other }
{}

/// The order of the acts does not change the map, and neither does an act that comes again.
pub fn any_order()
    ensures permutation { (acts : List values.ActValue) (others : List values.ActValue) (map : directory_spec.DirectoryValue)
        → IsPermutation acts others → directory_spec.IsMapOf acts map → directory_spec.IsMapOf others map }
    ensures again { (acts : List values.ActValue) (act : values.ActValue) (map : directory_spec.DirectoryValue)
        → Contains acts act → directory_spec.IsMapOf acts map → directory_spec.IsMapOf (acts ++ act ∷ []) map }
{}

/// An act that announces the same as an act before it does not change the map, whatever the sources and destinations of
/// both.
pub fn repetitions_change_nothing()
    ensures { laws.RepetitionsChangeNothing }
{}

/// An endpoint is listed as settled if and only if it is announced and all announcements of its GUID are the same. A
/// GUID is listed as unsettled if and only if two announcements of it differ.
pub fn settled_and_unsettled()
    ensures settled { (acts : List values.ActValue) (map : directory_spec.DirectoryValue) (endpoint : endpoint.EndpointValue) → directory_spec.IsMapOf acts map
        → Contains (directory_spec.settled_in map.endpoints) endpoint ↔ directory_spec.IsSettled (notice.endpoints_among acts) endpoint }
    ensures unsettled { (acts : List values.ActValue) (map : directory_spec.DirectoryValue) (guid : Guid) → directory_spec.IsMapOf acts map
        → Contains (directory_spec.unsettled_in map.endpoints) guid ↔ directory_spec.IsUnsettled (notice.endpoints_among acts) guid }
{}

/// A match is listed if and only if it is of two settled endpoints that match; a pair, if and only if both are RELIABLE
/// too.
pub fn matches_and_pairs()
    ensures matches { (acts : List values.ActValue) (map : directory_spec.DirectoryValue) (found : Match) → directory_spec.IsMapOf acts map
        → Contains (matching.matches_among (directory_spec.settled_in map.endpoints)) found ↔ listings.IsMatchAmong (notice.endpoints_among acts) found }
    ensures pairs { (acts : List values.ActValue) (map : directory_spec.DirectoryValue) (pair : Pair) → directory_spec.IsMapOf acts map
        → Contains (matching.reliable_pairs (matching.matches_among (directory_spec.settled_in map.endpoints))) pair
        ↔ listings.IsReliablePair (notice.endpoints_among acts) pair }
{}

/// Each listing is in order, by GUID or by writer and then reader, and has no entry twice.
pub fn in_order()
    ensures participants { (acts : List values.ActValue) (map : directory_spec.DirectoryValue) → directory_spec.IsMapOf acts map
        → IsStrictlySortedBy guid_order.guid_cmp map.participants }
    ensures endpoints { (acts : List values.ActValue) (directory : directory_spec.DirectoryValue) → directory_spec.IsMapOf acts directory
        → IsStrictlySortedBy guid_order.guid_cmp (map (λ endpoint. endpoint.guid) (directory_spec.settled_in directory.endpoints)) }
    ensures unsettled { (acts : List values.ActValue) (directory : directory_spec.DirectoryValue) → directory_spec.IsMapOf acts directory
        → IsStrictlySortedBy guid_order.guid_cmp (directory_spec.unsettled_in directory.endpoints) }
    ensures matches { (acts : List values.ActValue) (directory : directory_spec.DirectoryValue) → directory_spec.IsMapOf acts directory
        → IsStrictlySortedBy listings.pair_cmp (map (λ found. found.pair) (matching.matches_among (directory_spec.settled_in directory.endpoints))) }
    ensures pairs { (acts : List values.ActValue) (directory : directory_spec.DirectoryValue) → directory_spec.IsMapOf acts directory
        → IsStrictlySortedBy listings.pair_cmp (matching.reliable_pairs (matching.matches_among (directory_spec.settled_in directory.endpoints))) }
{}

/// The built-in writers, representations, parameters and kinds that are read are those of the standard.
pub fn layout_is_that_of_the_standard()
    ensures entity { layout.entity_is }
    ensures representation { layout.representation_is }
    ensures pid { layout.pid_is }
    ensures status { layout.status_is }
    ensures reliability { layout.reliability_is }
    ensures durability { layout.durability_is }
{}
