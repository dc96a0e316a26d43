// Numbers for tokens, in the order of their first appearance (document 02, Point 3): types, definitions and laws.
#![tactic(auto)]

// The first number of a name, and of a literal.
pub const FIRST_NAME: u32 = 6;

pub const FIRST_LITERAL: u32 = 40000;

// How many names and literals have a number.
#[derive(Clone, Copy)]
pub struct Counts {
    pub names: u32,
    pub literals: u32,
}
