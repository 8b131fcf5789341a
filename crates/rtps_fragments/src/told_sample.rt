/// A sample that is told: put together of its fragments by the DATA_FRAG that completed it.
#[derive(Clone, Copy)]
pub(crate) struct ToldSample<'a> {
    /// The place of that DATA_FRAG among the acts of its datagram.
    pub(crate) act: usize,
    /// Whether the sample is a key.
    pub(crate) is_key: bool,
    /// The octets of the sample.
    pub(crate) octets: &'a [u8],
}
