//! Forms of a recording that are read.

pub(crate) mod capture_blocks;
pub(crate) mod collected;
pub(crate) mod either;
pub(crate) mod hex_lines;
pub(crate) mod line_reader;
pub(crate) mod taking;
pub(crate) mod whole;
pub(crate) mod whole_capture;
