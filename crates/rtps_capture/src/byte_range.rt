/// Octets in others: from the place of the first on, up to the place behind the last. Places count from 0.
#[derive(Clone, Copy)]
pub struct ByteRange {
    pub from: usize,
    pub to: usize,
}
