use crate::node::Node;

/// By which name people know an end of a pair, or a participant.
#[derive(Clone, Copy)]
pub enum Title<'a> {
    /// Its node.
    Node(Node<'a>),
    /// The program of its process.
    Program(&'a [u8]),
    /// The name of its participant.
    Name(&'a [u8]),
    /// None.
    Nothing,
}
