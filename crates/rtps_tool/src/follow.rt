use rtps_report::Unwatched;

/// Is told of a run what was read, beside how far an audit is ([`crate::Watch`]).
pub trait Follow {
    /// The recording was read. So many frames of a capture gave no datagram; None where it is a text.
    fn recorded(&mut self, ignored: Option<u64>);

    /// A report is made, and its text is written next.
    fn writing(&mut self);
}

impl Follow for Unwatched {
    fn recorded(&mut self, _ignored: Option<u64>) {}

    fn writing(&mut self) {}
}
