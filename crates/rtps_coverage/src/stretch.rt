/// The numbers from `lo` on and below `hi`; there may be none.
#[derive(Clone, Copy, Debug)]
pub struct Stretch {
    pub lo: u64,
    pub hi: u64,
}
