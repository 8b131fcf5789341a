ghost use Rattle.std.specs.Prelude.{◌≡◌, ◌+◌, ◌<◌, ◌≤◌, ◌++◌, ◌∷◌, [], codes, length, true, IfSome, MatchOption, Some, None};
ghost use Rattle.std.specs.Fmt.{WritesOnOk};
ghost use Rattle.std.specs.List.{flat_map};
ghost use Rattle.rtps_parts.specs.Names as names;
ghost use Rattle.rtps_parts.specs.RosNames as ros_names;

use crate::name::{NameOctets, OctetText, write_name};
use std::fmt;

/// The name that ROS 2 gives a topic: a part of the topic, and a word behind it.
#[derive(Clone, Copy)]
pub struct RosTopic<'a> {
    pub name: &'a [u8],
    pub word: &'static str,
}

/// What stands in the name of a type between its scope and its own name.
const MARK: &[u8] = b"::dds_::";

/// Whether a topic begins with these three octets, and has this end behind them.
fn is_service(topic: &[u8], begins: &[u8], ends: &[u8]) -> bool
    requires { length begins.now ≡ 3 }
    ensures value { result ≡ ros_names.is_service begins.now ends.now topic.now }
    ensures long { result ≡ true → 3 + length ends.now ≤ length topic.now }
{
    topic.starts_with(begins) && topic[3..].ends_with(ends)
}

/// The name that ROS 2 gives a topic.
pub fn ros_topic(topic: &[u8]) -> RosTopic<'_>
    ensures { result.name.now ++ result.word.now ≡ ros_names.ros_topic topic.now }
{
    if topic.starts_with(b"rt/") {
        RosTopic {
            name: &topic[2..],
            word: "",
        }
    } else if is_service(topic, b"rq/", b"Request") {
        RosTopic {
            name: &topic[2..topic.len() - 7],
            word: " request",
        }
    } else if is_service(topic, b"rr/", b"Reply") {
        RosTopic {
            name: &topic[2..topic.len() - 5],
            word: " reply",
        }
    } else {
        RosTopic {
            name: topic,
            word: "",
        }
    }
}

/// The name of a topic by ROS 2.
#[derive(Drop)]
pub(crate) struct TopicText<'a>(pub(crate) &'a [u8]);

impl fmt::Display for TopicText<'_> {
    ghost output = { λ topic. Some (ros_names.topic_text topic.0.now) };

    fn fmt<W: fmt::Write>(&self, f: &mut fmt::Formatter<W>) -> fmt::Result {
        let topic = ros_topic(self.0);
        write_name(topic.name, f)?;
        write_name(topic.word.as_bytes(), f)
    }
}

/// How many octets of a type stand before the first mark.
fn mark_place(kind: &[u8]) -> Option<usize>
    ensures place { result ≡ ros_names.mark_place kind.now }
    ensures within { MatchOption result (ros_names.mark_place kind.now ≡ None) (λ place. place + length ros_names.mark ≤ length kind.now) }
{
    for place in 0..kind.len() {
        if kind[place..].starts_with(MARK) {
            return Some(place);
        }
    }
    None
}

/// The first octet of a scope as it is written, two colons as a slash, and what is behind it.
fn first_slashed(scope: &[u8]) -> Option<(u8, &[u8])>
    ensures slashed { MatchOption result (scope.now ≡ []) (λ first. ros_names.slashed scope.now ≡ first.0 ∷ ros_names.slashed first.1.now) }
    ensures behind { IfSome result (λ first. length first.1.now < length scope.now) }
{
    match scope {
        [b':', b':', behind @ ..] => Some((b'/', behind)),
        [octet, behind @ ..] => Some((*octet, behind)),
        [] => None,
    }
}

/// Writes a scope, each two colons of it as a slash.
fn write_scope<W: fmt::Write>(scope: &[u8], f: &mut fmt::Formatter<W>) -> fmt::Result
    ensures { WritesOnOk W.write_str_gives f.old result (flat_map names.octet_text (ros_names.slashed scope.now)) f.new }
{
    let mut rest = scope;
    'octets: while let Some((octet, behind)) = first_slashed(rest) {
        write!(f, "{}", OctetText(octet))?;
        rest = behind;
    }
    Ok(())
}

/// The scope and the name in a type that ROS 2 names.
#[derive(Clone, Copy)]
struct RosType<'a> {
    scope: &'a [u8],
    name: &'a [u8],
}

/// Those of a type with a mark, where what is behind it ends with an underscore. None of any other.
fn ros_type(kind: &[u8]) -> Option<RosType<'_>>
    ensures { MatchOption result (ros_names.ros_type kind.now ≡ kind.now) (λ parts. ros_names.ros_type kind.now ≡ ros_names.slashed parts.scope.now ++ (codes "/" ++ parts.name.now)) }
{
    let place = mark_place(kind)?;
    let behind = &kind[place + MARK.len()..];
    if !behind.ends_with(b"_") {
        return None;
    }
    Some(RosType {
        scope: &kind[..place],
        name: &behind[..behind.len() - 1],
    })
}

/// The name of a type by ROS 2.
#[derive(Drop)]
pub struct TypeText<'a>(pub &'a [u8]);

impl fmt::Display for TypeText<'_> {
    ghost output = { λ kind. Some (ros_names.type_text kind.0.now) };

    fn fmt<W: fmt::Write>(&self, f: &mut fmt::Formatter<W>) -> fmt::Result {
        match ros_type(self.0) {
            Some(parts) => {
                write_scope(parts.scope, f)?;
                write!(f, "/{}", NameOctets(parts.name))
            }
            None => write!(f, "{}", NameOctets(self.0)),
        }
    }
}
