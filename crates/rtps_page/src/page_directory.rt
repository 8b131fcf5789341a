ghost use Rattle.std.specs.Prelude.{◌≡◌, ◌++◌, IfOk, OnOk};
ghost use Rattle.json.specs.Tree.{json_tokens};
ghost use Rattle.rtps_discovery.specs.Endpoint as endpoint_spec;
ghost use Rattle.rtps_json.specs.JsonText as json_text;
ghost use Rattle.rtps_json.specs.Values as json_values;
ghost use Rattle.rtps_page.specs.Page as page;

use json::Writer;
use rtps_discovery::{Directory, Endpoint};
use rtps_ids::Memory;
use rtps_json::{Made, Value, name, object, push_value};
use rtps_lines::{durability_name, reliability_name, side_name};
use std::alloc::{AllocError, Global};

fn endpoint_object(endpoint: &Endpoint<'_>, alloc: Global) -> Made<Value>
    ensures { IfOk result (λ value. json_values.value_json value ≡ page.endpoint_json (endpoint_spec.endpoint_value endpoint.now)) }
{
    let topic = name(endpoint.topic, alloc)?;
    let type_name = name(endpoint.type_name, alloc)?;
    let members = vec![in alloc;
        ("guid", Value::Guid(endpoint.guid)),
        ("side", Value::Word(side_name(endpoint.side))),
        ("topic", topic),
        ("type", type_name),
        (
            "reliability",
            Value::Word(reliability_name(endpoint.reliability))
        ),
        (
            "durability",
            Value::Word(durability_name(endpoint.durability))
        ),
    ]?;
    Ok(object(members))
}

fn push_endpoint(
    alloc: Global,
    writer: &mut Writer,
    text: &mut String,
    endpoint: &Endpoint<'_>,
) -> Result<(), AllocError>
    ensures tokens { OnOk result (writer.new.tokens ≡ writer.old.tokens ++ json_tokens (page.endpoint_json (endpoint_spec.endpoint_value endpoint.now))) }
    ensures before { writer.new.before ≡ writer.old.before }
{
    let object = endpoint_object(endpoint, alloc)?;
    push_value(writer, text, &object)
}

pub(crate) fn push_directory(
    alloc: Global,
    writer: &mut Writer,
    text: &mut String,
    directory: &Directory<'_>,
) -> Result<(), Memory>
    ensures tokens { OnOk result (writer.new.tokens
        ≡ writer.old.tokens ++ json_text.tokens_of_member (page.directory_member directory.now)) }
    ensures before { writer.new.before ≡ writer.old.before }
{
    let endpoints = directory.endpoints()?;
    writer.key("endpoints")?;
    writer.begin_array()?;
    for endpoint in &endpoints {
        push_endpoint(alloc, writer, text, endpoint)?;
    }
    writer.end_array()?;
    Ok(())
}
