//! Facts about the definitions alone. The functions do nothing.

ghost use Rattle.rtps_known.specs.Laws as laws;
ghost use Rattle.rtps_known.specs.Layout as layout;

/// An endpoint that is told as not known is announced by a number that was told in time and that no acknowledgement covers.
pub fn lacking_is_unacknowledged()
    ensures { laws.LackingIsUnacknowledged }
{}

/// The numbers of the layout are those of the standard.
pub fn layout_is_that_of_the_standard()
    ensures entity { layout.entity_is }
    ensures status { layout.status_is }
    ensures vendor { layout.vendor_is }
    ensures bounds { layout.bounds_are }
{}
