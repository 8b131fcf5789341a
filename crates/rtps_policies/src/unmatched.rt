ghost use Rattle.std.specs.Prelude.{◌≡◌, ◌++◌, IfOk, List, OnOk, map};
ghost use Rattle.std.specs.Option.{option_map};
ghost use Rattle.rtps_receiver.specs.Values as values;
ghost use Rattle.rtps_discovery.specs.Directory as directory_spec;
ghost use Rattle.rtps_policies.specs.Announcing as announcing;
ghost use Rattle.rtps_policies.specs.Fitting as fitting;
ghost use Rattle.rtps_policies.specs.Unmatched as unmatched;

use crate::announced::Announced;
use crate::fitting::{Policy, Profile, reasons};
use crate::silence::two_domains;
use crate::topic_readers::{readers_by_topic, readers_of};
use rtps_discovery::{Directory, Side};
use rtps_ids::Memory;
use std::alloc::Global;

/// A writer and a reader of one topic that do not match.
#[derive(Drop)]
pub struct Unmatched<'a> {
    pub writer: Profile<'a>,
    pub reader: Profile<'a>,
    /// The policies that do not suit, in the order of the table. There is at least one.
    pub reasons: Vec<Policy>,
}

/// The writers and readers of one topic that do not match: of the endpoints of a directory whose announcements agree, those that
/// are not in two domains. They are sorted by writer and then by reader.
pub fn unmatched_pairs<'a>(
    announced: &Announced<'a>,
    directory: &Directory<'a>,
) -> Result<Vec<Unmatched<'a>>, Memory>
    ensures { IfOk result (λ found. (acts : List values.ActValue) → announcing.IsAnnouncedBy acts announced.now
        → map unmatched.unmatched_value found.items ≡ unmatched.unmatched_among acts (directory_spec.settled_in directory.now.endpoints)) }
{
    let profiles = announced.profiles(&directory.endpoints()?)?;
    unmatched_in(announced.alloc, &profiles)
}

/// Those among profiles, writer by writer. A writer is compared only with the readers of its topic.
fn unmatched_in<'a>(alloc: Global, profiles: &[Profile<'a>]) -> Result<Vec<Unmatched<'a>>, Memory>
    ensures { IfOk result (λ found. map unmatched.unmatched_value found.items ≡ unmatched.unmatched_in (map fitting.profile_value profiles.now)) }
{
    let readers = readers_by_topic(alloc, profiles)?;
    let mut found = Vec::new(alloc);
    for writer in profiles {
        if writer.endpoint.side == Side::Writer {
            let of_topic = readers_of(&readers, writer.endpoint.topic);
            push_unmatched(alloc, &mut found, writer, of_topic)?;
        }
    }
    Ok(found)
}

/// Adds those of a writer and these readers.
fn push_unmatched<'a>(
    alloc: Global,
    found: &mut Vec<Unmatched<'a>>,
    writer: &Profile<'a>,
    readers: &[Profile<'a>],
) -> Result<(), Memory>
    ensures { OnOk result (map unmatched.unmatched_value found.new.items
        ≡ map unmatched.unmatched_value found.old.items ++ unmatched.unmatched_with (fitting.profile_value writer.now) (map fitting.profile_value readers.now)) }
{
    for reader in readers {
        match unmatched_of(alloc, writer, reader)? {
            Some(one) => found.push(one)?,
            None => {}
        }
    }
    Ok(())
}

/// A writer and a reader, if they may match and do not.
fn unmatched_of<'a>(
    alloc: Global,
    writer: &Profile<'a>,
    reader: &Profile<'a>,
) -> Result<Option<Unmatched<'a>>, Memory>
    ensures { IfOk result (λ found. option_map unmatched.unmatched_value found ≡ unmatched.unmatched_of (fitting.profile_value writer.now) (fitting.profile_value reader.now)) }
{
    if !may_match(writer, reader) {
        return Ok(None);
    }
    let reasons = reasons(alloc, writer, reader)?;
    if reasons.is_empty() {
        return Ok(None);
    }
    let (writer, reader) = (*writer, *reader);
    Ok(Some(Unmatched {
        writer,
        reader,
        reasons,
    }))
}

/// Whether they are a writer and a reader of one topic that are not in two domains.
fn may_match(writer: &Profile<'_>, reader: &Profile<'_>) -> bool
    ensures { result ≡ unmatched.may_match (fitting.profile_value writer.now) (fitting.profile_value reader.now) }
{
    writer.endpoint.side == Side::Writer
        && reader.endpoint.side == Side::Reader
        && writer.endpoint.topic == reader.endpoint.topic
        && !two_domains(writer.host, reader.host)
}
