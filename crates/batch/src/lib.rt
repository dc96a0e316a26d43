// The program's work (document 01, "Panel and program"): the parts of an input, and the reply to each of its questions, as
// types, definitions and laws.
#![tactic(auto)]

use facts::Fact;

// The parts of an input that is not torn: the bytes of its table, and the number of its questions.
#[derive(Clone, Copy)]
pub struct Parts {
    pub table: usize,
    pub questions: usize,
}

// A question: its triple and its limit, document 01's allowance.
#[derive(Clone, Copy)]
pub struct Query {
    pub fact: Fact,
    pub limit: u32,
}
