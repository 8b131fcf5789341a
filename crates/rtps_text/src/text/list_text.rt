ghost use Rattle.std.specs.Prelude.{◌≡◌, ◌++◌, [], IfOk, OnOk, Some, map, string_bytes, flat_map};
ghost use Rattle.rtps_audit.specs.Placed as placed;
ghost use Rattle.rtps_discovery.specs.Directory as directory_spec;
ghost use Rattle.rtps_discovery.specs.Endpoint as endpoint_spec;
ghost use Rattle.rtps_fragments.specs.declared.fragments.Fragments.TheVariants.{Read};
ghost use Rattle.rtps_receiver.specs.Acts as acts;
ghost use Rattle.rtps_discovery.specs.Notice as notice;
ghost use Rattle.rtps_text.specs.ListText as list_text_spec;

use bumpalo::Bump;
use rtps_audit::Placed;
use rtps_discovery::{Directory, Endpoint, Match};
use rtps_fragments::{Fragments, index_as};
use rtps_ids::{Guid, Memory};
use rtps_lines::{durability_name, reliability_name, side_name};
use rtps_parts::NameText;
use rtps_receiver::Walk;
use rtps_report::{Ending, Recording, datagrams_of};
use std::alloc::{AllocError, Global};
use std::{fmt, slice};

/// What `list` prints of a recording, and that it ends [`Ending::Clean`]. Where fragments are read, what is announced by samples that
/// come in fragments is listed, too. `Memory` is answered where the text, or what is kept for it, cannot grow.
pub fn list_text(
    alloc: Global,
    recording: &Recording,
    fragments: Fragments,
) -> Result<(String, Ending), Memory>
    ensures { IfOk result (λ listed. list_text_spec.IsListedWith fragments recording.now (string_bytes listed.0) listed.1) }
{
    let arena = Bump::new(alloc);
    let mut directory = Directory::new(alloc);
    let faults = match fragments {
        Fragments::Skipped => note_datagrams(alloc, &mut directory, recording)?,
        Fragments::Read => note_samples(alloc, &mut directory, recording, &arena)?,
    };
    let text = directory_text(alloc, &directory, faults)?;
    Ok((text, Ending::Clean))
}

/// Notes what all datagrams announce, also by samples that come in fragments, which are put into the arena, and answers how many
/// announcements had a fault.
fn note_samples<'a>(
    alloc: Global,
    directory: &mut Directory<'a>,
    recording: &'a Recording,
    arena: &'a Bump,
) -> Result<u128, Memory>
    requires { directory_spec.IsMapOf [] directory.old }
    ensures map { OnOk result (directory_spec.IsMapOf (list_text_spec.announcing_in Read recording.now.datagrams) directory.new) }
    ensures faults { IfOk result (λ faults. faults ≡ notice.faults_in (list_text_spec.announcing_in Read recording.now.datagrams)) }
{
    let datagrams = datagrams_of(alloc, recording)?;
    let indexed = index_as(alloc, &datagrams, Fragments::Read, arena)?;
    note_announcements(directory, &indexed.announcements)
}

/// Notes these acts, and answers how many had a fault.
fn note_announcements<'a>(
    directory: &mut Directory<'a>,
    announcements: &[Placed<'a>],
) -> Result<u128, Memory>
    requires { directory_spec.IsMapOf [] directory.old }
    ensures map { OnOk result (directory_spec.IsMapOf (map (λ placed. placed.act) (map placed.placed_value announcements.now)) directory.new) }
    ensures faults { IfOk result (λ faults. faults ≡ notice.faults_in (map (λ placed. placed.act) (map placed.placed_value announcements.now))) }
{
    let mut faults = 0u128;
    for placed in announcements {
        faults += u128::from(directory.note_all(slice::from_ref(&placed.act))?);
    }
    Ok(faults)
}

/// Notes the acts of all datagrams, and answers how many had a fault.
fn note_datagrams<'a>(
    alloc: Global,
    directory: &mut Directory<'a>,
    recording: &'a Recording,
) -> Result<u128, Memory>
    requires { directory_spec.IsMapOf [] directory.old }
    ensures map { OnOk result (directory_spec.IsMapOf (acts.acts_in recording.now.datagrams) directory.new) }
    ensures faults { IfOk result (λ faults. faults ≡ notice.faults_in (acts.acts_in recording.now.datagrams)) }
{
    let mut walk = Walk::new(alloc);
    let mut faults = 0u128;
    for octets in recording.datagrams() {
        walk.read_data(octets)?;
        faults += u128::from(directory.note_all(walk.acts())?);
    }
    Ok(faults)
}

/// What `list` prints of what is announced, where so many announcements had a fault. `Memory` is answered where the text cannot grow.
pub fn directory_text(
    alloc: Global,
    directory: &Directory<'_>,
    faults: u128,
) -> Result<String, Memory>
    ensures { IfOk result (λ text. string_bytes text ≡ list_text_spec.directory_text directory.now faults) }
{
    let participants = directory.participants()?;
    let endpoints = directory.endpoints()?;
    let matches = directory.matched()?;
    let mut text = String::new(alloc);
    push_participants(&mut text, &participants)?;
    push_endpoints(&mut text, &endpoints)?;
    push_matches(&mut text, &matches)?;
    writeln!(
        text,
        "participants {} endpoints {} unsettled {} faults {faults}",
        participants.len(),
        endpoints.len(),
        directory.unsettled()
    )?;
    Ok(text)
}

fn push_participants(text: &mut String, guids: &[Guid]) -> Result<(), AllocError>
    ensures { OnOk result (string_bytes text.new ≡ string_bytes text.old ++ flat_map list_text_spec.participant_line guids.now) }
{
    for guid in guids {
        writeln!(text, "participant {guid}")?;
    }
    Ok(())
}

fn push_endpoints(text: &mut String, endpoints: &[Endpoint<'_>]) -> Result<(), AllocError>
    ensures { OnOk result (string_bytes text.new
        ≡ string_bytes text.old ++ flat_map (λ endpoint. list_text_spec.endpoint_line (endpoint_spec.endpoint_value endpoint)) endpoints.now) }
{
    for endpoint in endpoints {
        write!(text, "{}", EndpointLine(endpoint))?;
    }
    Ok(())
}

fn push_matches(text: &mut String, matches: &[Match]) -> Result<(), AllocError>
    ensures { OnOk result (string_bytes text.new ≡ string_bytes text.old ++ flat_map list_text_spec.match_line matches.now) }
{
    for found in matches {
        write!(text, "{}", MatchLine(*found))?;
    }
    Ok(())
}

#[derive(Drop)]
struct MatchLine(Match);

impl fmt::Display for MatchLine {
    ghost output = { λ line. Some (list_text_spec.match_line line.0) };

    fn fmt<W: fmt::Write>(&self, f: &mut fmt::Formatter<W>) -> fmt::Result {
        let Match { pair, reliable } = self.0;
        writeln!(
            f,
            "pair {} {} {}",
            pair.writer,
            pair.reader,
            match_name(reliable)
        )
    }
}

/// What the line of a match says of it: whether both are reliable.
#[tactic(auto, unfolding(crate::specs::ListText::match_text))]
fn match_name(reliable: bool) -> &'static str
    ensures { result.now ≡ list_text_spec.match_text reliable }
{
    if reliable { "reliable" } else { "best-effort" }
}

#[derive(Drop)]
struct EndpointLine<'a>(&'a Endpoint<'a>);

impl fmt::Display for EndpointLine<'_> {
    ghost output = { λ line. Some (list_text_spec.endpoint_line (endpoint_spec.endpoint_value line.0.now)) };

    fn fmt<W: fmt::Write>(&self, f: &mut fmt::Formatter<W>) -> fmt::Result {
        let endpoint = self.0;
        write!(
            f,
            "{} {} topic {} ",
            side_name(endpoint.side),
            endpoint.guid,
            NameText(endpoint.topic)
        )?;
        writeln!(
            f,
            "type {} {} {}",
            NameText(endpoint.type_name),
            reliability_name(endpoint.reliability),
            durability_name(endpoint.durability)
        )
    }
}
