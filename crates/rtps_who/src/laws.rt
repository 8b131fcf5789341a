//! Laws of the definitions. Each is the contract of a function that does nothing.

ghost use Rattle.rtps_who.specs.Layout as layout;
ghost use Rattle.rtps_who.specs.Samples as samples;
ghost use Rattle.rtps_who.specs.Services as services;

/// The parameters, sizes and octets that are read are those of the standards and of ROS 2.
pub fn layout_is_that_of_the_standard()
    ensures pid { layout.pid_is }
    ensures header { layout.header_is }
    ensures sequence { layout.sequence_is }
    ensures gid { layout.gid_is }
    ensures mark { layout.mark_is }
{}

/// Names come to one exactly where there is one at least, and all are the same.
pub fn names_come_to_one()
    ensures { services.NamesComeToOne }
{}

/// A sample that can be read has as many nodes as it says.
pub fn samples_have_their_nodes()
    ensures { samples.SamplesHaveTheirNodes }
{}
