ghost use Rattle.std.specs.Prelude.{◌≡◌};
ghost use Rattle.rtps_discovery.specs.Fields as fields;
ghost use Rattle.rtps_policies.specs.Policies as policies;
ghost use Rattle.rtps_policies.specs.Views as views;

use crate::duration::{Duration, duration_at};
use crate::kinds::{DestinationOrder, Ownership};
use crate::layout::pid;
use crate::liveliness::Liveliness;
use crate::partition::Partition;
use crate::presentation::Presentation;
use crate::representations::Representations;
use rtps_params::ParamList;

/// What a writer offers, or a reader requests, beside reliability and durability (DDS 1.4, 2.2.3 "Supported QoS"). Names and ids
/// are parts of the payload that announces it.
#[derive(Clone, Copy)]
pub struct Policies<'a> {
    pub deadline: Duration,
    pub latency_budget: Duration,
    pub liveliness: Liveliness,
    pub ownership: Ownership,
    pub destination_order: DestinationOrder,
    pub presentation: Presentation,
    pub partition: Partition<'a>,
    pub representations: Representations<'a>,
}

impl Policies<'static> {
    /// Those of an endpoint that announces none: the defaults of DDS.
    pub fn unannounced() -> Policies<'static>
        ensures { policies.policies_value result ≡ policies.unannounced }
    {
        Policies {
            deadline: Duration::INFINITE,
            latency_budget: Duration::ZERO,
            liveliness: Liveliness::UNANNOUNCED,
            ownership: Ownership::Shared,
            destination_order: DestinationOrder::ByReception,
            presentation: Presentation::UNANNOUNCED,
            partition: Partition::UNNAMED,
            representations: Representations::NONE,
        }
    }
}

impl<'a> Policies<'a> {
    /// Those that a parameter list announces. A parameter that cannot be read is as if absent, and then the default of DDS
    /// counts.
    pub(crate) fn of(list: &ParamList<'a>) -> Policies<'a>
        ensures { policies.policies_value result ≡ policies.policies_in (fields.fields_value list.now) }
    {
        Policies {
            deadline: deadline_in(list),
            latency_budget: latency_budget_in(list),
            liveliness: liveliness_in(list),
            ownership: ownership_in(list),
            destination_order: destination_order_in(list),
            presentation: presentation_in(list),
            partition: partition_in(list),
            representations: representations_in(list),
        }
    }
}

fn deadline_in(list: &ParamList<'_>) -> Duration
    ensures { result ≡ policies.deadline_in (fields.fields_value list.now) }
{
    let Some(value) = list.first(pid::DEADLINE) else {
        return Duration::INFINITE;
    };
    duration_at(list.order(), value, 0).unwrap_or(Duration::INFINITE)
}

fn latency_budget_in(list: &ParamList<'_>) -> Duration
    ensures { result ≡ policies.latency_budget_in (fields.fields_value list.now) }
{
    let Some(value) = list.first(pid::LATENCY_BUDGET) else {
        return Duration::ZERO;
    };
    duration_at(list.order(), value, 0).unwrap_or(Duration::ZERO)
}

fn liveliness_in(list: &ParamList<'_>) -> Liveliness
    ensures { result ≡ policies.liveliness_in (fields.fields_value list.now) }
{
    let Some(value) = list.first(pid::LIVELINESS) else {
        return Liveliness::UNANNOUNCED;
    };
    Liveliness::read(value, list.order()).unwrap_or(Liveliness::UNANNOUNCED)
}

fn ownership_in(list: &ParamList<'_>) -> Ownership
    ensures { result ≡ policies.ownership_in (fields.fields_value list.now) }
{
    let Some(value) = list.first(pid::OWNERSHIP) else {
        return Ownership::Shared;
    };
    Ownership::read(value, list.order()).unwrap_or(Ownership::Shared)
}

fn destination_order_in(list: &ParamList<'_>) -> DestinationOrder
    ensures { result ≡ policies.destination_order_in (fields.fields_value list.now) }
{
    let Some(value) = list.first(pid::DESTINATION_ORDER) else {
        return DestinationOrder::ByReception;
    };
    DestinationOrder::read(value, list.order()).unwrap_or(DestinationOrder::ByReception)
}

fn presentation_in(list: &ParamList<'_>) -> Presentation
    ensures { result ≡ policies.presentation_in (fields.fields_value list.now) }
{
    let Some(value) = list.first(pid::PRESENTATION) else {
        return Presentation::UNANNOUNCED;
    };
    Presentation::read(value, list.order()).unwrap_or(Presentation::UNANNOUNCED)
}

fn partition_in<'a>(list: &ParamList<'a>) -> Partition<'a>
    ensures { views.partition_value result ≡ policies.partition_in (fields.fields_value list.now) }
{
    let Some(value) = list.first(pid::PARTITION) else {
        return Partition::UNNAMED;
    };
    Partition::read(value, list.order()).unwrap_or(Partition::UNNAMED)
}

fn representations_in<'a>(list: &ParamList<'a>) -> Representations<'a>
    ensures { views.representations_value result ≡ policies.representations_in (fields.fields_value list.now) }
{
    let Some(value) = list.first(pid::DATA_REPRESENTATION) else {
        return Representations::NONE;
    };
    Representations::read(value, list.order()).unwrap_or(Representations::NONE)
}
