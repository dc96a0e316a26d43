// The import of N-Triples (document 02, Point 3): types, definitions and laws.
#![tactic(auto)]

use facts::Refused;

// More facts than a table holds.
pub const CROWD: usize = 1025;

// Three tokens for each of them.
pub const ENTRIES: usize = 3075;

// What the lines come to: nothing to refuse, or the first refusal, at the number of its line, counted from 1.
pub type Finding = Result<(), Refused>;
