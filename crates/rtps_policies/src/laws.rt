//! Laws of the definitions. Each is the contract of a function that does nothing.

ghost use Rattle.rtps_policies.specs.Laws as laws;
ghost use Rattle.rtps_policies.specs.Layout as layout;

use rtps_discovery::laws::{in_order, settled_and_unsettled};

/// A name is tested to be what a pattern stands for exactly where it is so, part by part; and two names to fit where they do.
pub fn patterns_are_as_tested()
    ensures pattern { laws.PatternsFitAsTested }
    ensures names { laws.NamesFitAsTested }
{}

/// What a writer offers of a policy is tested to suit what a reader requests exactly where it does.
pub fn policies_suit_as_tested()
    ensures { laws.SuitsAsTested }
{}

/// The reasons of a writer and a reader are exactly the policies of the table that do not suit. There is none exactly where all
/// suit.
pub fn reasons_are_what_does_not_suit()
    ensures each { laws.ReasonsDoNotSuit }
    ensures none { laws.FitsWhereNoReason }
{}

/// A port tells a domain exactly where it is the first one of that domain's ports; and exactly where it is one of them.
pub fn ports_tell_domains()
    ensures first { laws.FirstPortTellsDomain }
    ensures any { laws.PortTellsDomain }
{}

/// A pair is listed as unmatched if and only if it is a settled writer and a settled reader of one topic that are not in two
/// domains, and some policy does not suit. All that do not suit are its reasons.
pub fn unmatched_are_listed()
    ensures { laws.UnmatchedAreListed }
{
    settled_and_unsettled();
}

/// The pairs that do not match are listed by writer and then by reader, each once.
pub fn unmatched_are_in_order()
    ensures { laws.UnmatchedAreInOrder }
{
    in_order();
}

/// The parameters, kinds and octets that are read are those of the standards.
pub fn layout_is_that_of_the_standard()
    ensures pid { layout.pid_is }
    ensures liveliness { layout.liveliness_is }
    ensures ownership { layout.ownership_is }
    ensures destination_order { layout.destination_order_is }
    ensures presentation { layout.presentation_is }
    ensures pattern { layout.pattern_is }
    ensures sequence { layout.sequence_is }
    ensures representation { layout.representation_is }
    ensures header { layout.header_is }
    ensures entity { layout.entity_is }
    ensures lease { layout.lease_is }
    ensures locator { layout.locator_is }
    ensures discovery_port { layout.discovery_port_is }
    ensures vendor { layout.vendor_is }
{}
