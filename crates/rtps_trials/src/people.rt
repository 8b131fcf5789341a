//! By which names people know the participants and the endpoints of recordings.

use crate::fault::Fault;
use crate::recording::{datagrams, read};
use rtps_discovery::{Directory, announced_endpoint};
use rtps_ids::{Guid, GuidPrefix};
use rtps_receiver::Walk;
use rtps_who::{Introductions, Title, ToldNodes, Who};
use std::alloc::Global;
use std::fmt::Write;

/// Tells them of each recording of a text, and an empty line behind it; an empty line stands between two.
pub(crate) fn tell_each(alloc: Global, input: &str, text: &mut String) -> Result<(), Fault> {
    for recording in input.split("\n\n") {
        let octets = read(alloc, recording)?;
        let recording = datagrams(alloc, &octets)?;
        let introductions = introductions_of(alloc, &recording)?;
        let told = told_of(alloc, &introductions, &recording)?;
        let who = Who {
            introductions,
            told,
        };
        tell_participants(alloc, &who, &recording, text)?;
        tell_endpoints(alloc, &who, &recording, text)?;
        writeln!(text)?;
    }
    Ok(())
}

/// What the acts of a recording announce.
fn introductions_of<'a>(alloc: Global, recording: &[&'a [u8]]) -> Result<Introductions<'a>, Fault> {
    let mut introductions = Introductions::new(alloc);
    let mut walk = Walk::new(alloc);
    for datagram in recording {
        walk.read(datagram)?;
        for act in walk.acts() {
            introductions.note(act)?;
        }
    }
    Ok(introductions)
}

/// What its samples tell of nodes.
fn told_of<'a>(
    alloc: Global,
    introductions: &Introductions<'_>,
    recording: &[&'a [u8]],
) -> Result<ToldNodes<'a>, Fault> {
    let mut told = ToldNodes::new(alloc);
    let mut walk = Walk::new(alloc);
    for datagram in recording {
        walk.read(datagram)?;
        for act in walk.acts() {
            told.note(introductions, act)?;
        }
    }
    Ok(told)
}

/// The participants that a recording announces.
fn participants_of(alloc: Global, recording: &[&[u8]]) -> Result<Vec<Guid>, Fault> {
    let mut directory = Directory::new(alloc);
    let mut walk = Walk::new(alloc);
    for datagram in recording {
        walk.read(datagram)?;
        directory.note_all(walk.acts())?;
    }
    Ok(directory.participants()?)
}

/// A line for each participant, in order.
fn tell_participants(
    alloc: Global,
    who: &Who<'_>,
    recording: &[&[u8]],
    text: &mut String,
) -> Result<(), Fault> {
    for guid in &participants_of(alloc, recording)? {
        push_guid(*guid, text)?;
        push_process(who, guid.prefix, text)?;
        push_title(alloc, who.participant_title(guid.prefix), text)?;
        write!(text, " nodes")?;
        for node in &who.nodes(alloc, guid.prefix)? {
            write!(text, " ")?;
            push_hex(&node.full_name(alloc)?, text)?;
        }
        writeln!(text)?;
    }
    Ok(())
}

/// A line for each announcement of an endpoint, in order.
fn tell_endpoints(
    alloc: Global,
    who: &Who<'_>,
    recording: &[&[u8]],
    text: &mut String,
) -> Result<(), Fault> {
    let mut walk = Walk::new(alloc);
    for datagram in recording {
        walk.read(datagram)?;
        for act in walk.acts() {
            if let Some(endpoint) = announced_endpoint(act) {
                push_guid(endpoint.guid, text)?;
                push_title(alloc, who.title(endpoint.guid), text)?;
                writeln!(text)?;
            }
        }
    }
    Ok(())
}

/// Appends what is known of the process of a participant.
fn push_process(who: &Who<'_>, prefix: GuidPrefix, text: &mut String) -> Result<(), Fault> {
    let process = who.process(prefix);
    push_text(process.host, text)?;
    push_text(process.program, text)?;
    push_text(process.name, text)?;
    push_text(process.enclave, text)?;
    match process.pid {
        Some(pid) => write!(text, " {pid}")?,
        None => write!(text, " -")?,
    }
    Ok(())
}

/// Appends a title.
fn push_title(alloc: Global, title: Title<'_>, text: &mut String) -> Result<(), Fault> {
    match title {
        Title::Node(node) => {
            write!(text, " node ")?;
            push_hex(&node.full_name(alloc)?, text)
        }
        Title::Program(program) => {
            write!(text, " program ")?;
            push_hex(program, text)
        }
        Title::Name(name) => {
            write!(text, " name ")?;
            push_hex(name, text)
        }
        Title::Nothing => Ok(write!(text, " -")?),
    }
}

/// Appends a text as digits behind a sign, or a dash where there is none.
fn push_text(octets: Option<&[u8]>, text: &mut String) -> Result<(), Fault> {
    let Some(octets) = octets else {
        write!(text, " -")?;
        return Ok(());
    };
    write!(text, " =")?;
    push_hex(octets, text)
}

/// Appends the digits of a GUID.
fn push_guid(guid: Guid, text: &mut String) -> Result<(), Fault> {
    write!(text, "{}{}", guid.prefix, guid.entity)?;
    Ok(())
}

/// Appends octets as digits.
fn push_hex(octets: &[u8], text: &mut String) -> Result<(), Fault> {
    for octet in octets {
        write!(text, "{octet:02x}")?;
    }
    Ok(())
}
