/// The order of the octets of a number. Flag E of a submessage gives it.
#[derive(Clone, Copy, PartialEq, Eq, Debug)]
pub enum Order {
    /// The highest octet first.
    Big,
    /// The lowest octet first.
    Little,
}
