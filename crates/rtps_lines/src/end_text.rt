ghost use Rattle.std.specs.Prelude.{◌≡◌, Some, option_copied};
ghost use Rattle.rtps_who.specs.Naming as naming;
ghost use Rattle.rtps_who.specs.Samples as samples;
ghost use Rattle.rtps_report.specs.Ends as ends;
ghost use Rattle.rtps_lines.specs.EndText as end_text_spec;

use crate::fields::HostedGuid;
use rtps_ids::Guid;
use rtps_parts::NameOctets;
use rtps_report::End;
use rtps_who::{Node, Title, title_by};
use std::fmt;

/// The full name of a node, as names are printed.
#[derive(Drop)]
pub struct NodeText<'a>(pub Node<'a>);

impl fmt::Display for NodeText<'_> {
    ghost output = { λ text. Some (end_text_spec.node_text (samples.node_value text.0)) };

    #[tactic(auto, unfolding(crate::specs::EndText::node_text))]
    fn fmt<W: fmt::Write>(&self, f: &mut fmt::Formatter<W>) -> fmt::Result {
        let Node { namespace, name } = self.0;
        if namespace.ends_with(b"/") {
            write!(f, "{}{}", NameOctets(namespace), NameOctets(name))
        } else {
            write!(f, "{}/{}", NameOctets(namespace), NameOctets(name))
        }
    }
}

/// A title, and a space; nothing where there is none.
#[derive(Drop)]
struct TitleText<'a>(Title<'a>);

impl fmt::Display for TitleText<'_> {
    ghost output = { λ text. Some (end_text_spec.title_text (naming.title_value text.0)) };

    #[tactic(auto, unfolding(crate::specs::EndText::title_text))]
    fn fmt<W: fmt::Write>(&self, f: &mut fmt::Formatter<W>) -> fmt::Result {
        match self.0 {
            Title::Node(node) => write!(f, "{} ", NodeText(node)),
            Title::Program(program) => write!(f, "{} ", NameOctets(program)),
            Title::Name(name) => write!(f, "{} ", NameOctets(name)),
            Title::Nothing => Ok(()),
        }
    }
}

/// The id of a process and its host; nothing where neither is known.
#[derive(Drop)]
struct ProcessText<'a>(Option<u32>, Option<&'a [u8]>);

impl fmt::Display for ProcessText<'_> {
    ghost output = { λ text. Some (end_text_spec.process_text text.0 (option_copied text.1)) };

    #[tactic(auto, unfolding(crate::specs::EndText::process_text))]
    fn fmt<W: fmt::Write>(&self, f: &mut fmt::Formatter<W>) -> fmt::Result {
        match (self.0, self.1) {
            (Some(pid), Some(host)) => write!(f, "pid {pid} on {}", NameOctets(host)),
            (Some(pid), None) => write!(f, "pid {pid}"),
            (None, Some(host)) => write!(f, "on {}", NameOctets(host)),
            (None, None) => Ok(()),
        }
    }
}

/// Whether a process or its host is known.
fn is_placed(pid: Option<u32>, host: Option<&[u8]>) -> bool
    ensures { result ≡ end_text_spec.is_placed pid (option_copied host.entry) }
{
    pid.is_some() || host.is_some()
}

/// Where an end is, between brackets, and a space; nothing where that is not known.
#[derive(Drop)]
struct WhereText<'a>(End<'a>);

impl fmt::Display for WhereText<'_> {
    ghost output = { λ text. Some (end_text_spec.where_text (end_text_spec.is_placed (ends.end_value text.0).process.pid (ends.end_value text.0).process.host)
        (end_text_spec.process_text (ends.end_value text.0).process.pid (ends.end_value text.0).process.host) text.0.address) };

    #[tactic(auto, unfolding(crate::specs::EndText::where_text))]
    fn fmt<W: fmt::Write>(&self, f: &mut fmt::Formatter<W>) -> fmt::Result {
        let End {
            process,
            address,
            ..
        } = self.0;
        let text = ProcessText(process.pid, process.host);
        match (is_placed(process.pid, process.host), address) {
            (true, Some(address)) => write!(f, "({text}, {address}) "),
            (true, None) => write!(f, "({text}) "),
            (false, Some(address)) => write!(f, "({address}) "),
            (false, None) => Ok(()),
        }
    }
}

/// Whether a title is one.
fn is_titled(title: Title<'_>) -> bool
    ensures { result ≡ end_text_spec.is_titled (naming.title_value title.entry) }
{
    match title {
        Title::Node(_) | Title::Program(_) | Title::Name(_) => true,
        Title::Nothing => false,
    }
}

/// Whether more than an address is known of an end.
fn is_named(end: &End<'_>) -> bool
    ensures { result ≡ end_text_spec.is_named (ends.end_value end.now) }
{
    is_titled(title_by(end.node, &end.process)) || is_placed(end.process.pid, end.process.host)
}

/// An end of which more is known than its address.
#[derive(Drop)]
struct NamedText<'a>(Guid, End<'a>);

impl fmt::Display for NamedText<'_> {
    ghost output = { λ text. Some (end_text_spec.named_text text.0 (ends.end_value text.1)) };

    fn fmt<W: fmt::Write>(&self, f: &mut fmt::Formatter<W>) -> fmt::Result {
        let guid = self.0;
        let end = self.1;
        let title = TitleText(title_by(end.node, &end.process));
        write!(f, "{title}{}{guid}", WhereText(end))
    }
}

/// A writer, a reader or a participant, by what people know it.
#[derive(Drop)]
pub struct EndText<'a>(pub Guid, pub End<'a>);

impl fmt::Display for EndText<'_> {
    ghost output = { λ text. Some (end_text_spec.end_text text.0 (ends.end_value text.1)) };

    fn fmt<W: fmt::Write>(&self, f: &mut fmt::Formatter<W>) -> fmt::Result {
        let guid = self.0;
        let end = self.1;
        if is_named(&end) {
            write!(f, "{}", NamedText(guid, end))
        } else {
            write!(f, "{}", HostedGuid(guid, end.address))
        }
    }
}

/// One of the two in the line of a pair: where no more than its address is known, by its GUID alone.
#[derive(Drop)]
pub struct PairedText<'a>(pub Guid, pub End<'a>);

impl fmt::Display for PairedText<'_> {
    ghost output = { λ text. Some (end_text_spec.paired_text text.0 (ends.end_value text.1)) };

    fn fmt<W: fmt::Write>(&self, f: &mut fmt::Formatter<W>) -> fmt::Result {
        let guid = self.0;
        let end = self.1;
        if is_named(&end) {
            write!(f, "{}", NamedText(guid, end))
        } else {
            write!(f, "{guid}")
        }
    }
}
