//! The words for what writers offer and readers request.

ghost use Rattle.std.specs.Prelude.{◌≡◌, ◌==◌, ◌||◌, Some, codes, length};
ghost use Rattle.std.specs.Fmt.{WritesOnOk};
ghost use Rattle.std.specs.List.{join_by};
ghost use Rattle.rtps_discovery.specs.Matching as matching;
ghost use Rattle.rtps_parts.specs.Names as names_spec;
ghost use Rattle.rtps_policies.specs.Fitting as fitting;
ghost use Rattle.rtps_lines.specs.PolicyValues as policy_values;

use rtps_discovery::{Durability, Reliability, Side};
use rtps_parts::{NameOctets, NameText, TypeText};
use rtps_policies::{
    AccessScope, DestinationOrder, Ids, Liveliness, LivelinessKind, Names, Ownership, Policy,
    Presentation, Profile,
};
use std::fmt;

/// By which names types are told.
#[derive(Clone, Copy)]
pub enum NameStyle {
    /// Those of DDS.
    Dds,
    /// Those that ROS 2 gives.
    Ros,
}

#[tactic(auto, unfolding(crate::specs::PolicyValues::reliability_word))]
fn reliability_of(reliability: Reliability) -> &'static str
    ensures { result.now ≡ policy_values.reliability_word reliability }
{
    match reliability {
        Reliability::BestEffort => "best effort",
        Reliability::Reliable => "reliable",
    }
}

#[tactic(auto, unfolding(crate::specs::PolicyValues::durability_word))]
fn durability_of(durability: Durability) -> &'static str
    ensures { result.now ≡ policy_values.durability_word durability }
{
    match durability {
        Durability::Volatile => "volatile",
        Durability::TransientLocal => "transient local",
        Durability::Transient => "transient",
        Durability::Persistent => "persistent",
    }
}

#[tactic(auto, unfolding(crate::specs::PolicyValues::liveliness_word))]
fn liveliness_of(kind: LivelinessKind) -> &'static str
    ensures { result.now ≡ policy_values.liveliness_word kind }
{
    match kind {
        LivelinessKind::Automatic => "automatic",
        LivelinessKind::ManualByParticipant => "manual by participant",
        LivelinessKind::ManualByTopic => "manual by topic",
    }
}

#[tactic(auto, unfolding(crate::specs::PolicyValues::ownership_word))]
fn ownership_of(ownership: Ownership) -> &'static str
    ensures { result.now ≡ policy_values.ownership_word ownership }
{
    match ownership {
        Ownership::Shared => "shared",
        Ownership::Exclusive => "exclusive",
    }
}

#[tactic(auto, unfolding(crate::specs::PolicyValues::destination_order_word))]
fn order_of(order: DestinationOrder) -> &'static str
    ensures { result.now ≡ policy_values.destination_order_word order }
{
    match order {
        DestinationOrder::ByReception => "reception time",
        DestinationOrder::BySource => "source time",
    }
}

#[tactic(auto, unfolding(crate::specs::PolicyValues::scope_word))]
fn scope_of(scope: AccessScope) -> &'static str
    ensures { result.now ≡ policy_values.scope_word scope }
{
    match scope {
        AccessScope::Instance => "instance",
        AccessScope::Topic => "topic",
        AccessScope::Group => "group",
    }
}

#[derive(Drop)]
struct PresentationText(Presentation);

impl fmt::Display for PresentationText {
    ghost output = { λ text. Some (policy_values.presentation_text text.0) };

    fn fmt<W: fmt::Write>(&self, f: &mut fmt::Formatter<W>) -> fmt::Result {
        let coherent = if self.0.coherent { ", coherent" } else { "" };
        let ordered = if self.0.ordered { ", ordered" } else { "" };
        write!(f, "{}{coherent}{ordered}", scope_of(self.0.scope))
    }
}

/// The name of a representation, or its id.
#[derive(Drop)]
struct IdText(u16);

impl fmt::Display for IdText {
    ghost output = { λ text. Some (policy_values.id_text text.0) };

    #[tactic(auto, unfolding(crate::specs::PolicyValues::id_text))]
    fn fmt<W: fmt::Write>(&self, f: &mut fmt::Formatter<W>) -> fmt::Result {
        match self.0 {
            0 => write!(f, "XCDR1"),
            1 => write!(f, "XML"),
            2 => write!(f, "XCDR2"),
            id => write!(f, "{id}"),
        }
    }
}

/// Writes ids with a comma between each two.
fn write_ids<W: fmt::Write>(ids: Ids<'_>, f: &mut fmt::Formatter<W>) -> fmt::Result
    ensures { WritesOnOk W.write_str_gives f.old result (join_by policy_values.id_text (codes ", ") ids.entry) f.new }
{
    let mut comma = "";
    for id in ids {
        write!(f, "{comma}{}", IdText(id))?;
        comma = ", ";
    }
    Ok(())
}

/// Writes the names of partitions, each between quotes, with a comma between each two.
fn write_partitions<W: fmt::Write>(names: Names<'_>, f: &mut fmt::Formatter<W>) -> fmt::Result
    ensures { WritesOnOk W.write_str_gives f.old result (join_by names_spec.name_text (codes ", ") names.entry) f.new }
{
    let mut comma = "";
    for name in names {
        write!(f, "{comma}{}", NameText(name))?;
        comma = ", ";
    }
    Ok(())
}

/// Whether one representation is told: the one that a writer sends, or the only one that a reader takes that announces none.
fn tells_one(profile: &Profile<'_>) -> bool
    ensures { result ≡ (matching.is_writer (fitting.profile_value profile.now).endpoint.side || (length (fitting.profile_value profile.now).policies.representations == 0)) }
{
    profile.endpoint.side == Side::Writer || profile.policies.representations.is_empty()
}

/// Writes what a writer sends, or what a reader takes.
fn write_representations<W: fmt::Write>(
    profile: &Profile<'_>,
    f: &mut fmt::Formatter<W>,
) -> fmt::Result
    ensures { WritesOnOk W.write_str_gives f.old result (policy_values.representations_text (fitting.profile_value profile.now)) f.new }
{
    let representations = &profile.policies.representations;
    if tells_one(profile) {
        write!(f, "{}", IdText(representations.sent()))
    } else {
        write_ids(representations.ids(), f)
    }
}

#[derive(Drop)]
struct LivelinessText(Liveliness);

impl fmt::Display for LivelinessText {
    ghost output = { λ text. Some (policy_values.liveliness_text text.0) };

    fn fmt<W: fmt::Write>(&self, f: &mut fmt::Formatter<W>) -> fmt::Result {
        let (kind, lease) = (liveliness_of(self.0.kind), self.0.lease);
        write!(f, "{kind}, lease {lease}")
    }
}

/// The name of a type.
#[derive(Drop)]
struct TypeNameText<'a>(&'a [u8], NameStyle);

impl fmt::Display for TypeNameText<'_> {
    ghost output = { λ text. Some (policy_values.type_name_text text.1 text.0.now) };

    fn fmt<W: fmt::Write>(&self, f: &mut fmt::Formatter<W>) -> fmt::Result {
        match self.1 {
            NameStyle::Dds => write!(f, "{}", NameOctets(self.0)),
            NameStyle::Ros => write!(f, "{}", TypeText(self.0)),
        }
    }
}

/// What an endpoint has of a policy, in words.
#[derive(Drop)]
pub struct PolicyValue<'p, 'a> {
    pub policy: Policy,
    pub profile: &'p Profile<'a>,
    pub naming: NameStyle,
}

impl fmt::Display for PolicyValue<'_, '_> {
    ghost output = { λ value. Some (policy_values.value_text value.naming value.policy (fitting.profile_value value.profile.now)) };

    fn fmt<W: fmt::Write>(&self, f: &mut fmt::Formatter<W>) -> fmt::Result {
        let endpoint = &self.profile.endpoint;
        let policies = &self.profile.policies;
        match self.policy {
            Policy::Reliability => f.write_str(reliability_of(endpoint.reliability)),
            Policy::Durability => f.write_str(durability_of(endpoint.durability)),
            Policy::Deadline => write!(f, "{}", policies.deadline),
            Policy::LatencyBudget => write!(f, "{}", policies.latency_budget),
            Policy::Liveliness => write!(f, "{}", LivelinessText(policies.liveliness)),
            Policy::Ownership => f.write_str(ownership_of(policies.ownership)),
            Policy::DestinationOrder => f.write_str(order_of(policies.destination_order)),
            Policy::Presentation => write!(f, "{}", PresentationText(policies.presentation)),
            Policy::Partition => write_partitions(policies.partition.names(), f),
            Policy::DataRepresentation => write_representations(self.profile, f),
            Policy::Type => write!(f, "{}", TypeNameText(endpoint.type_name, self.naming)),
        }
    }
}

/// The name of a policy in words.
#[tactic(auto, unfolding(crate::specs::PolicyValues::policy_words))]
pub fn words_of_policy(policy: Policy) -> &'static str
    ensures { result.now ≡ policy_values.policy_words policy }
{
    match policy {
        Policy::Reliability => "reliability",
        Policy::Durability => "durability",
        Policy::Deadline => "deadline",
        Policy::LatencyBudget => "latency budget",
        Policy::Liveliness => "liveliness",
        Policy::Ownership => "ownership",
        Policy::DestinationOrder => "destination order",
        Policy::Presentation => "presentation",
        Policy::Partition => "partition",
        Policy::DataRepresentation => "data representation",
        Policy::Type => "type",
    }
}
