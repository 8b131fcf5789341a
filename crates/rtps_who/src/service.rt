ghost use Rattle.std.specs.Prelude.{◌≡◌, Some, length, option_copied};
ghost use Rattle.std.specs.Option.{option_map};
ghost use Rattle.rtps_discovery.specs.Endpoint as endpoint_spec;
ghost use Rattle.rtps_who.specs.Samples as samples;
ghost use Rattle.rtps_who.specs.Services as services_spec;

use crate::node::Node;
use rtps_discovery::{Endpoint, Side};

/// What the parameter services of a participant are called by: the name of one node, or of several.
#[derive(Clone, Copy)]
pub(crate) enum Service<'a> {
    One(&'a [u8]),
    Several,
}

/// What a topic has between three octets at its beginning and this end, if that is not empty.
fn between<'a>(topic: &'a [u8], begins: &[u8], ends: &[u8]) -> Option<&'a [u8]>
    requires { length begins.now ≡ 3 }
    ensures { option_copied result ≡ services_spec.between begins.now ends.now topic.now }
{
    if topic.len() <= 3 + ends.len() || !topic.starts_with(begins) || !topic.ends_with(ends) {
        return None;
    }
    Some(&topic[3..topic.len() - ends.len()])
}

/// The name of the node whose parameter service an endpoint is of.
pub(crate) fn service_of<'a>(endpoint: &Endpoint<'a>) -> Option<&'a [u8]>
    ensures { option_copied result ≡ services_spec.service_of (endpoint_spec.endpoint_value endpoint.now) }
{
    match endpoint.side {
        Side::Reader => between(endpoint.topic, b"rq/", b"/get_parametersRequest"),
        Side::Writer => between(endpoint.topic, b"rr/", b"/get_parametersReply"),
    }
}

/// What names come to with one name more.
pub(crate) fn with_name_more<'a>(kept: Option<Service<'a>>, name: &'a [u8]) -> Service<'a>
    ensures { Some (services_spec.service_value result) ≡ services_spec.with_name (option_map services_spec.service_value kept.entry) name.entry.now }
{
    match kept {
        None => Service::One(name),
        Some(Service::One(one)) => {
            if one == name {
                Service::One(one)
            } else {
                Service::Several
            }
        }
        Some(Service::Several) => Service::Several,
    }
}

/// The node of one name.
pub(crate) fn node_by_service(kept: Option<Service<'_>>) -> Option<Node<'_>>
    ensures { option_map samples.node_value result ≡ services_spec.node_by (option_map services_spec.service_value kept.entry) }
{
    match kept {
        Some(Service::One(name)) => Some(Node {
            namespace: b"/",
            name,
        }),
        _ => None,
    }
}
