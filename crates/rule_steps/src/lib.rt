// The six rules as one table, and a rule step tested against it (document 01, "Rules").
#![tactic(auto)]

ghost use Rattle.std.specs.Prelude.{◌≡◌, ◌<◌, ◌≤◌, SomeIff, length};
ghost use Rattle.rules.specs.Steps.{rows, cell_of, fill, fits_row, row, step_test};

use facts::{DOM, Fact, RANGE, SC, SP};
use rules::Cell::{Object1, Object2, Sc, Sp, Subject1, Subject2, Type};
use rules::{Cell, Cells, Row};
use terms::is_well_formed;

// Rules 1 to 6, in order: A and B are subject and object of the first premise.
const ROWS: [Row; 6] = [
    // 1. (A sp B), (B sp C) give (A sp C).
    Row {
        first: SP,
        second: Cells(Object1, Sp, Object2),
        result: Cells(Subject1, Sp, Object2),
    },
    // 2. (A sp B), (X A Y) give (X B Y).
    Row {
        first: SP,
        second: Cells(Subject2, Subject1, Object2),
        result: Cells(Subject2, Object1, Object2),
    },
    // 3. (A sc B), (B sc C) give (A sc C).
    Row {
        first: SC,
        second: Cells(Object1, Sc, Object2),
        result: Cells(Subject1, Sc, Object2),
    },
    // 4. (A sc B), (X type A) give (X type B).
    Row {
        first: SC,
        second: Cells(Subject2, Type, Subject1),
        result: Cells(Subject2, Type, Object1),
    },
    // 5. (A dom B), (X A Y) give (X type B).
    Row {
        first: DOM,
        second: Cells(Subject2, Subject1, Object2),
        result: Cells(Subject2, Type, Object1),
    },
    // 6. (A range B), (X A Y) give (Y type B).
    Row {
        first: RANGE,
        second: Cells(Subject2, Subject1, Object2),
        result: Cells(Object2, Type, Object1),
    },
];

// The premises of a rule step.
#[derive(Clone, Copy)]
struct Premises {
    first: Fact,
    second: Fact,
}

impl Premises {
    // The term that a cell stands for.
    #[tactic(auto, unfolding(rules::specs::Steps::cell_of))]
    fn cell(self, c: Cell) -> u32
        ensures { result ≡ cell_of c self.first self.second }
    {
        match c {
            Subject1 => self.first.subject,
            Object1 => self.first.object,
            Subject2 => self.second.subject,
            Object2 => self.second.object,
            word => word as u32,
        }
    }

    // The fact whose terms stand in cells.
    #[tactic(auto, unfolding(rules::specs::Steps::fill))]
    fn filled(self, cells: Cells) -> Fact
        ensures { result ≡ fill cells self.first self.second }
    {
        Fact {
            subject: self.cell(cells.0),
            predicate: self.cell(cells.1),
            object: self.cell(cells.2),
        }
    }

    // The premises and r are as the row has them.
    #[tactic(auto, unfolding(rules::specs::Steps::fits_row, rules::specs::Steps::same))]
    fn fits(self, w: Row, r: Fact) -> bool
        ensures { result ≡ fits_row w self.first self.second r }
    {
        (self.first.predicate == w.first)
            & (self.second == self.filled(w.second))
            & (r == self.filled(w.result))
    }
}

// Rule n as a row, if there is one.
#[tactic(auto, unfolding(rules::specs::Steps::rows, rules::specs::Steps::row))]
fn row(n: u32) -> Option<Row>
    ensures { SomeIff result ((0 < n) × (n ≤ length rows)) (row n) }
{
    ROWS.get((n as usize).checked_sub(1)?).copied()
}

// Rule `rule` gives r from p and q, and all three are well-formed.
pub fn step(rule: u32, p: Fact, q: Fact, r: Fact) -> bool
    ensures { result ≡ step_test rule p q r }
{
    let Some(w) = row(rule) else {
        return false;
    };
    let premises = Premises {
        first: p,
        second: q,
    };
    premises.fits(w, r) & is_well_formed(p) & is_well_formed(q) & is_well_formed(r)
}
