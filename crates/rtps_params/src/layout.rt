//! The layout of parameters: ids, sizes and offsets. The code that reads, the code that writes and the definitions all
//! use these names.

/// The ids of the parameters that are not among the pairs of a list (DDSI-RTPS 2.5, 9.4.2.11 "ParameterList").
pub(crate) mod pid {
    /// PID_PAD: a parameter that only fills octets.
    pub(crate) const PAD: u16 = 0;
    /// PID_SENTINEL: the parameter that ends a list.
    pub(crate) const SENTINEL: u16 = 1;
}

/// A parameter (DDSI-RTPS 2.5, 9.4.2.11 "ParameterList"). Its id is at offset 0.
pub(crate) mod parameter {
    /// The offset of the length of its value.
    pub(crate) const LENGTH: usize = 2;
    /// The size of its id and length, which come before its value.
    pub(crate) const HEADER: usize = 4;
    /// The size of a value that is written is a multiple of this.
    pub(crate) const ALIGNMENT: usize = 4;
    /// The largest size of a value that is written: the greatest such multiple that a length of two octets can have.
    pub(crate) const LONGEST_VALUE: usize = 65_532;
}

/// Numbers, texts and GUIDs at the beginning of a value (DDSI-RTPS 2.5, 9.3.1 "The Globally Unique Identifier (GUID)"
/// and 9.3.2 "Mapping of the Types that Appear Within Submessages or Built-in Topic Data").
pub(crate) mod value {
    /// The size of a number.
    pub(crate) const NUMBER_SIZE: usize = 4;
    /// The offset of the name of a text, after its length.
    pub(crate) const NAME: usize = 4;
    /// The size of a GUID's prefix. The entity id comes after it.
    pub(crate) const PREFIX_SIZE: usize = 12;
    /// The size of an entity id.
    pub(crate) const ENTITY_SIZE: usize = 4;
}
