//! Laws of the definitions, each the contract of a function that does nothing.

ghost use Rattle.rtps_parts.specs.RosNames as ros_names;

/// Topics of ROS 2, and the two topics of its services, have the names that it gives them, whatever stands between their ends.
pub fn topics_are_named()
    ensures { ros_names.TopicsAreNamed }
{}
