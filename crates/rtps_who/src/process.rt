ghost use Rattle.std.specs.Prelude.{◌≡◌, option_and_then, option_copied};
ghost use Rattle.rtps_discovery.specs.Fields as fields;
ghost use Rattle.rtps_who.specs.Processes as processes;
ghost use Rattle.rtps_who.specs.Digits as digits;
ghost use Rattle.rtps_who.specs.Texts as texts;
ghost use Rattle.rtps_who.specs.Views as views;

use crate::digits::number_in;
use crate::layout::mark::{COLON, SEMICOLON};
use crate::layout::pid;
use crate::layout::sequence::COUNT_SIZE;
use crate::properties::Properties;
use crate::texts::{front_piece, place_of};
use rtps_ids::Order;
use rtps_params::{ParamList, read_text, read_u32};

/// What a participant announces of the process that it is in. Texts have any octets, and are parts of the payload that announces it
/// (DDSI-RTPS 2.5, 8.5.3.2 "SPDPdiscoveredParticipantData").
#[derive(Clone, Copy)]
pub struct Process<'a> {
    /// The name of its host.
    pub host: Option<&'a [u8]>,
    /// The program that runs in it.
    pub program: Option<&'a [u8]>,
    /// The id of the process on its host.
    pub pid: Option<u32>,
    /// The name of the participant, unless it is one that stacks give by themselves.
    pub name: Option<&'a [u8]>,
    /// The enclave of ROS 2 that it is in, unless that is the one of all.
    pub enclave: Option<&'a [u8]>,
}

impl Process<'static> {
    /// That of a participant of which nothing is known.
    pub(crate) fn unknown() -> Process<'static>
        ensures { processes.process_value result ≡ processes.unknown_process }
    {
        Process {
            host: None,
            program: None,
            pid: None,
            name: None,
            enclave: None,
        }
    }
}

impl<'a> Process<'a> {
    /// What a parameter list announces.
    pub(crate) fn of(list: &ParamList<'a>) -> Process<'a>
        ensures { processes.process_value result ≡ processes.process_in (fields.fields_value list.now) }
    {
        let properties = properties_in(list);
        Process {
            host: host_among(&properties),
            program: program_among(&properties),
            pid: pid_among(&properties),
            name: name_in(list),
            enclave: enclave_in(list),
        }
    }
}

/// The properties in a list.
fn properties_in<'a>(list: &ParamList<'a>) -> Properties<'a>
    ensures { views.properties_value result ≡ processes.properties_in (fields.fields_value list.now) }
{
    let Some(value) = list.first(pid::PROPERTY_LIST) else {
        return Properties::NONE;
    };
    Properties::read(value, list.order()).unwrap_or(Properties::NONE)
}

/// The value of the first property of a name, unless it is empty.
fn text_of<'a>(properties: &Properties<'a>, name: &[u8]) -> Option<&'a [u8]>
    ensures { option_copied result ≡ processes.unless processes.is_nothing (texts.value_among name.now (views.properties_value properties.now)) }
{
    let text = properties.get(name)?;
    if text.is_empty() {
        return None;
    }
    Some(text)
}

/// A text up to its first colon.
fn up_to_colon(text: &[u8]) -> &[u8]
    ensures { result.now ≡ processes.up_to_colon text.now }
{
    match place_of(text, COLON) {
        Some(place) => &text[..place],
        None => text,
    }
}

/// The name of the host, up to what Fast DDS writes behind a colon.
fn fast_host<'a>(properties: &Properties<'a>) -> Option<&'a [u8]>
    ensures { option_copied result ≡ processes.fast_host_among (views.properties_value properties.now) }
{
    let host = up_to_colon(properties.get(b"fastdds.physical_data.host")?);
    if host.is_empty() {
        return None;
    }
    Some(host)
}

/// The name of the host.
fn host_among<'a>(properties: &Properties<'a>) -> Option<&'a [u8]>
    ensures { option_copied result ≡ processes.host_among (views.properties_value properties.now) }
{
    match text_of(properties, b"__Hostname") {
        Some(host) => Some(host),
        None => fast_host(properties),
    }
}

/// The program that runs in the process.
fn program_among<'a>(properties: &Properties<'a>) -> Option<&'a [u8]>
    ensures { option_copied result ≡ processes.program_among (views.properties_value properties.now) }
{
    text_of(properties, b"__ProcessName")
}

/// The number that the first property of a name spells.
fn number_of(properties: &Properties<'_>, name: &[u8]) -> Option<u32>
    ensures { result ≡ option_and_then digits.number_in (texts.value_among name.now (views.properties_value properties.now)) }
{
    number_in(properties.get(name)?)
}

/// The id of the process.
fn pid_among(properties: &Properties<'_>) -> Option<u32>
    ensures { result ≡ processes.pid_among (views.properties_value properties.now) }
{
    match number_of(properties, b"__Pid") {
        Some(pid) => Some(pid),
        None => number_of(properties, b"fastdds.physical_data.process"),
    }
}

/// Whether a name is one that stacks give by themselves.
fn is_given(text: &[u8]) -> bool
    ensures { result ≡ processes.is_given text.now }
{
    text.is_empty() || text == b"/".as_slice() || text == b"RTPSParticipant".as_slice()
}

/// The name of the participant.
fn name_in<'a>(list: &ParamList<'a>) -> Option<&'a [u8]>
    ensures { option_copied result ≡ processes.name_in (fields.fields_value list.now) }
{
    let name = read_text(list.first(pid::ENTITY_NAME)?, list.order())?;
    if is_given(name) {
        return None;
    }
    Some(name)
}

/// The octets behind their count, or None if some of them are not there (DDSI-RTPS 2.5, 9.3.2 "OctetSeq").
fn octets_of(value: &[u8], order: Order) -> Option<&[u8]>
    ensures { option_copied result ≡ processes.octets_of order value.now }
{
    let count = read_u32(value, order)? as usize;
    if COUNT_SIZE + count > value.len() {
        return None;
    }
    Some(&value[COUNT_SIZE..COUNT_SIZE + count])
}

/// The first enclave that user data names. Each part of it ends with a semicolon.
fn enclave_among(octets: &[u8]) -> Option<&[u8]>
    ensures { option_copied result ≡ processes.enclave_among octets.now }
{
    let mut rest = octets;
    for _ in 0..octets.len() {
        let (piece, behind) = front_piece(rest, SEMICOLON)?;
        if piece.starts_with(b"enclave=") {
            return Some(&piece[8..]);
        }
        rest = behind;
    }
    None
}

/// Whether an enclave is none, or that of all.
fn is_root(text: &[u8]) -> bool
    ensures { result ≡ processes.is_root text.now }
{
    text.is_empty() || text == b"/".as_slice()
}

/// The enclave of the participant.
fn enclave_in<'a>(list: &ParamList<'a>) -> Option<&'a [u8]>
    ensures { option_copied result ≡ processes.enclave_in (fields.fields_value list.now) }
{
    let octets = octets_of(list.first(pid::USER_DATA)?, list.order())?;
    let enclave = enclave_among(octets)?;
    if is_root(enclave) {
        return None;
    }
    Some(enclave)
}
