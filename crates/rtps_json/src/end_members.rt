//! Members on what is known of ends.

ghost use Rattle.std.specs.Prelude.{◌≡◌, IfOk, map, option_copied};
ghost use Rattle.std.specs.Option.{option_map};
ghost use Rattle.rtps_report.specs.Talk.{talk_value};
ghost use Rattle.rtps_who.specs.Processes.{process_value};
ghost use Rattle.rtps_who.specs.Samples.{node_value};
ghost use Rattle.rtps_json.specs.EndMembers.{known_json};
ghost use Rattle.rtps_json.specs.EndMembers as end_members;
ghost use Rattle.rtps_json.specs.JsonText.{node_json, some_node_json};
ghost use Rattle.rtps_json.specs.JsonText as json_text;
ghost use Rattle.rtps_json.specs.Values.{member_json, members_json, value_json};

use crate::values::{Made, Member, Members, Value, array, name, some_count};
use rtps_discovery::Pair;
use rtps_lines::NodeText;
use rtps_report::Talk;
use rtps_who::{Node, Process};
use std::alloc::Global;

/// Octets that are known; null where they are not.
fn known(octets: Option<&[u8]>, alloc: Global) -> Made<Value>
    ensures { IfOk result (λ value. value_json value ≡ known_json (option_copied octets.entry)) }
{
    match octets {
        Some(octets) => name(octets, alloc),
        None => Ok(Value::Null),
    }
}

/// The name of a node.
fn node_name(node: Node<'_>, alloc: Global) -> Made<Value>
    ensures { IfOk result (λ value. value_json value ≡ node_json (node_value node.entry)) }
{
    let mut text = String::new(alloc);
    write!(text, "{}", NodeText(node))?;
    Ok(Value::Text(text))
}

/// The name of the node of an end; null where it has none.
fn some_node(node: Option<Node<'_>>, alloc: Global) -> Made<Value>
    ensures { IfOk result (λ value. value_json value ≡ some_node_json (option_map node_value node.entry)) }
{
    match node {
        Some(node) => node_name(node, alloc),
        None => Ok(Value::Null),
    }
}

/// The nodes of a pair.
pub(crate) fn node_members(talk: &Talk<'_>, pair: Pair, alloc: Global) -> Made<Members>
    ensures { IfOk result (λ members. members_json members.items ≡ json_text.node_members (talk_value talk.now) pair) }
{
    let writer = some_node(talk.node(pair.writer), alloc)?;
    let reader = some_node(talk.node(pair.reader), alloc)?;
    Ok(vec![in alloc; ("writer_node", writer), ("reader_node", reader)]?)
}

/// The number of a process.
fn pid_number(pid: Option<u32>) -> Option<u64>
    ensures { result ≡ pid }
{
    match pid {
        Some(pid) => Some(u64::from(pid)),
        None => None,
    }
}

/// What is known of a process.
pub(crate) fn process_members(process: &Process<'_>, alloc: Global) -> Made<Members>
    ensures { IfOk result (λ members. members_json members.items ≡ end_members.process_members (process_value process.now)) }
{
    let host = known(process.host, alloc)?;
    let program = known(process.program, alloc)?;
    let name = known(process.name, alloc)?;
    let enclave = known(process.enclave, alloc)?;
    let members = vec![in alloc;
        ("host", host),
        ("process", program),
        ("pid", some_count(pid_number(process.pid))),
        ("name", name),
        ("enclave", enclave),
    ]?;
    Ok(members)
}

/// The names of nodes.
#[tactic(auto, using(crate::proofs::ValueLemmas::one_more))]
pub(crate) fn nodes_member(nodes: &[Node<'_>], alloc: Global) -> Made<Member>
    ensures { IfOk result (λ member. member_json member ≡ end_members.nodes_member (map node_value nodes.now)) }
{
    let mut values = Vec::new(alloc);
    for node in nodes {
        values.push(node_name(*node, alloc)?)?;
    }
    Ok(("nodes", array(values)))
}
