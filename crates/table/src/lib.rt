// Tables as bytes and as rows of numbers (document 01, "Table layout"): types, definitions and laws.
#![tactic(auto)]

use facts::Refused;

// The most facts of a table, document 01's 1,024 places.
pub const PLACES: usize = 1024;

// The fields of a fact, and the bytes of its line.
pub const FIELDS: usize = 3;

pub const LINE_BYTES: usize = 16;

// The numbers of a full row, FIELDS for each place.
pub const ROW_NUMBERS: usize = 3072;

// How far a scan of lines or facts gets: past all of them, and their number, or to the first refusal.
pub type Scan = Result<u32, Refused>;
