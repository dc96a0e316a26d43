// Five-column fields and lines of fields (document 01, "Table layout"): definitions and laws. A line of k fields has 5 k + 1 bytes.
#![tactic(auto)]

// The byte before a number's first digit, the digit 0, and the end of a line.
pub const SPACE: u8 = 32;

pub const ZERO: u8 = 48;

pub const LINE_END: u8 = 10;
