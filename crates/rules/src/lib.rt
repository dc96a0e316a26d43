// The six rules, derivations, and the fewest table lines that a fact needs (document 01, "Rules"): types, definitions and laws.
#![tactic(auto)]

use facts::Fact;

// A derivation line: the rule's number (0 for a table line), the line numbers of its premises, counted from 1, and its fact. No enum of
// table lines and rule lines: any six numbers are a line that is well laid out, so each case would have them all.
#[derive(Clone, Copy)]
pub struct Line {
    pub rule: u32,
    pub first: u32,
    pub second: u32,
    pub fact: Fact,
}

// What stands at a place of a rule: a word of the vocabulary, which has its number, or a term of the first or second premise.
#[derive(Clone, Copy)]
pub enum Cell {
    Sc = 1,
    Sp = 2,
    Dom = 3,
    Range = 4,
    Type = 5,
    Subject1,
    Object1,
    Subject2,
    Object2,
}

// A fact of a rule: subject, predicate and object.
#[derive(Clone, Copy)]
pub struct Cells(pub Cell, pub Cell, pub Cell);

// A rule: the predicate of the first premise, the second premise, and what the rule gives.
#[derive(Clone, Copy)]
pub struct Row {
    pub first: u32,
    pub second: Cells,
    pub result: Cells,
}
