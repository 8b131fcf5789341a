ghost use Rattle.std.specs.Prelude.{◌≡◌};
ghost use Rattle.rtps_policies.specs.Announcing as announcing;
ghost use Rattle.rtps_policies.specs.Namings as namings_spec;
ghost use Rattle.rtps_policies.specs.Silence as silence;

use crate::announced::Announced;
use crate::host::Host;
use crate::naming::{Naming, Namings};
use rtps_discovery::Pair;

/// Why a recording says nothing of a writer and a reader that match: no act of the reader's participant names the writer's.
#[derive(Clone, Copy)]
pub enum Silence {
    /// They are of one participant, and need no network.
    OneParticipant,
    /// Their participants are in two domains.
    TwoDomains,
    /// The writer's participant names the reader's, which never answers, and their addresses differ.
    OneWay,
    /// None of these.
    Silent,
}

/// Whether two hosts are in domains that differ.
pub fn two_domains(one: Host, other: Host) -> bool
    ensures { result ≡ silence.two_domains one other }
{
    match (one.domain, other.domain) {
        (Some(one), Some(other)) => one != other,
        _ => false,
    }
}

/// Whether two hosts have addresses that differ.
pub fn two_addresses(one: Host, other: Host) -> bool
    ensures { result ≡ silence.two_addresses one other }
{
    match (one.address, other.address) {
        (Some(one), Some(other)) => one != other,
        _ => false,
    }
}

/// Whether one participant names another, which never names it, and they are on two hosts but not in two domains.
fn is_one_way(named: u64, answered: u64, one: Host, other: Host) -> bool
    ensures { result ≡ silence.one_way_by named answered one other }
{
    named > 0 && answered == 0 && two_addresses(one, other) && !two_domains(one, other)
}

/// Whether, of two participants on two hosts that are not in two domains, the first names the second and never the other way
/// round.
pub fn talks_one_way(announced: &Announced<'_>, namings: &Namings, naming: Naming) -> bool
    ensures kept { result ≡ silence.talks_one_way announced.now namings.now naming }
    ensures recorded { (traffic : silence.Traffic) → announcing.IsAnnouncedBy traffic.announcing announced.now → namings_spec.AreNamingsOf traffic.datagrams namings.now
        → result ≡ silence.is_one_way traffic naming }
{
    let count = namings.named(naming);
    let answered = namings.named(naming.reversed());
    let one = announced.host_of(naming.source);
    let other = announced.host_of(naming.dest);
    is_one_way(count, answered, one, other)
}

/// The first reason of these that fits.
fn first_reason(one_participant: bool, in_two_domains: bool, one_way: bool) -> Silence
    ensures { result ≡ silence.first_reason one_participant in_two_domains one_way }
{
    if one_participant {
        Silence::OneParticipant
    } else if in_two_domains {
        Silence::TwoDomains
    } else if one_way {
        Silence::OneWay
    } else {
        Silence::Silent
    }
}

/// Why a recording says nothing of a pair whose reader's participant never names the writer's: the first reason that fits.
pub fn reason_of_silence(announced: &Announced<'_>, namings: &Namings, pair: Pair) -> Silence
    ensures kept { result ≡ silence.silence_by announced.now namings.now pair }
    ensures recorded { (traffic : silence.Traffic) → announcing.IsAnnouncedBy traffic.announcing announced.now → namings_spec.AreNamingsOf traffic.datagrams namings.now
        → result ≡ silence.silence_of traffic pair }
{
    let source = pair.writer.prefix;
    let dest = pair.reader.prefix;
    let one = announced.host_of(source);
    let other = announced.host_of(dest);
    let one_way = talks_one_way(announced, namings, Naming { source, dest });
    first_reason(source == dest, two_domains(one, other), one_way)
}
