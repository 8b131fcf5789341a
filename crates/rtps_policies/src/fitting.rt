ghost use Rattle.std.specs.Prelude.{◌≡◌, ◌↔◌, IfOk, IsTrue, Some, filter, not};
ghost use Rattle.rtps_policies.specs.Fitting as fitting;
ghost use Rattle.rtps_policies.specs.PolicyText as policy_text;

use crate::host::Host;
use crate::policies::Policies;
use rtps_discovery::Endpoint;
use rtps_ids::Memory;
use std::alloc::Global;
use std::fmt;

/// An endpoint with all its policies, and the host of its participant. A writer offers the policies, a reader requests them.
#[derive(Clone, Copy)]
pub struct Profile<'a> {
    pub endpoint: Endpoint<'a>,
    pub policies: Policies<'a>,
    pub host: Host,
}

/// A policy that a writer and a reader of one topic have to agree on (DDS 1.4, 2.2.3; XTypes 1.3, 7.6.3.1.1). The type of the
/// topic counts as one.
#[derive(Clone, Copy)]
pub enum Policy {
    Reliability,
    Durability,
    Deadline,
    LatencyBudget,
    Liveliness,
    Ownership,
    DestinationOrder,
    Presentation,
    Partition,
    DataRepresentation,
    Type,
}

/// All policies, in the order in which they are told.
const TABLE: [Policy; 11] = [
    Policy::Reliability,
    Policy::Durability,
    Policy::Deadline,
    Policy::LatencyBudget,
    Policy::Liveliness,
    Policy::Ownership,
    Policy::DestinationOrder,
    Policy::Presentation,
    Policy::Partition,
    Policy::DataRepresentation,
    Policy::Type,
];

impl Policy {
    /// Whether what a writer offers suits what a reader requests.
    pub fn suits(self, writer: &Profile<'_>, reader: &Profile<'_>) -> bool
        ensures meaning { IsTrue result ↔ fitting.Suits self (fitting.profile_value writer.now) (fitting.profile_value reader.now) }
        ensures test { result ≡ fitting.suits self (fitting.profile_value writer.now) (fitting.profile_value reader.now) }
    {
        is_suited(self, writer, reader)
    }
}

impl fmt::Display for Policy {
    ghost output = { λ policy. Some (policy_text.policy_name policy) };

    /// Its name.
    #[tactic(auto, unfolding(crate::specs::PolicyText::policy_name))]
    fn fmt<W: fmt::Write>(&self, f: &mut fmt::Formatter<W>) -> fmt::Result {
        let name = match self {
            Policy::Reliability => "reliability",
            Policy::Durability => "durability",
            Policy::Deadline => "deadline",
            Policy::LatencyBudget => "latency_budget",
            Policy::Liveliness => "liveliness",
            Policy::Ownership => "ownership",
            Policy::DestinationOrder => "destination_order",
            Policy::Presentation => "presentation",
            Policy::Partition => "partition",
            Policy::DataRepresentation => "data_representation",
            Policy::Type => "type",
        };
        f.write_str(name)
    }
}

/// Whether it suits. [`Policy::suits`] has a second clause, with the meaning.
fn is_suited(policy: Policy, writer: &Profile<'_>, reader: &Profile<'_>) -> bool
    ensures { result ≡ fitting.suits policy (fitting.profile_value writer.now) (fitting.profile_value reader.now) }
{
    let offered = &writer.policies;
    let requested = &reader.policies;
    match policy {
        Policy::Reliability => writer.endpoint.reliability >= reader.endpoint.reliability,
        Policy::Durability => writer.endpoint.durability >= reader.endpoint.durability,
        Policy::Deadline => offered.deadline.is_within(requested.deadline),
        Policy::LatencyBudget => offered.latency_budget.is_within(requested.latency_budget),
        Policy::Liveliness => offered.liveliness.suits(requested.liveliness),
        Policy::Ownership => offered.ownership == requested.ownership,
        Policy::DestinationOrder => offered.destination_order >= requested.destination_order,
        Policy::Presentation => offered.presentation.suits(requested.presentation),
        Policy::Partition => offered.partition.fits(&requested.partition),
        Policy::DataRepresentation => {
            let sent = offered.representations.sent();
            requested.representations.accept(sent)
        }
        Policy::Type => writer.endpoint.type_name == reader.endpoint.type_name,
    }
}

/// The policies for which a writer and a reader of one topic do not match, in the order of the table: those of which what the
/// writer offers does not suit what the reader requests. There is none where they match.
pub fn reasons(
    alloc: Global,
    writer: &Profile<'_>,
    reader: &Profile<'_>,
) -> Result<Vec<Policy>, Memory>
    ensures { IfOk result (λ found. found.items ≡ fitting.reasons (fitting.profile_value writer.now) (fitting.profile_value reader.now)) }
{
    unsuited_among(alloc, &TABLE, writer, reader)
}

/// The policies among these that do not suit, in the same order.
fn unsuited_among(
    alloc: Global,
    policies: &[Policy],
    writer: &Profile<'_>,
    reader: &Profile<'_>,
) -> Result<Vec<Policy>, Memory>
    ensures { IfOk result (λ found. found.items ≡ filter (λ policy. not (fitting.suits policy (fitting.profile_value writer.now) (fitting.profile_value reader.now))) policies.now) }
{
    let mut found = Vec::new(alloc);
    for policy in policies {
        if !is_suited(*policy, writer, reader) {
            found.push(*policy)?;
        }
    }
    Ok(found)
}
