// Part of the check: whether one derivation line is a table line or a rule's result.
#![tactic(auto)]

ghost use Rattle.std.specs.Prelude.{◌≡◌, MatchOption};
ghost use Rattle.std.proofs.Math.Option.{none, some};
ghost use Rattle.rules.specs.Graph.{any};
ghost use Rattle.rules.specs.Derivations.{fact_on};
ghost use Rattle.rules.specs.Steps.{same, justified};
ghost use Rattle.acceptance.specs.Check.{lines_of, table_line, rule_line};
ghost use Rattle.acceptance.specs.Near.{Behind};
ghost use Rattle.acceptance.specs.Holds.{Ascends};

use facts::Fact;
use rules::Line;

// A table's facts, in ascending order.
#[derive(Clone, Copy)]
pub struct Table<'a> {
    pub facts: &'a [Fact],
    pub ghost ascends: { Ascends facts.now },
}

impl Table<'_> {
    // The table has f.
    #[tactic(auto, using(acceptance::proofs::Lookup::look_up))]
    fn holds(self, f: Fact) -> bool
        ensures { result ≡ any (same f) self.entry.facts.now }
    {
        self.facts.binary_search(&f).is_ok()
    }

    // A line marked as a table line is one: premises 0, and its fact in the table.
    fn has_line(self, l: Line) -> bool
        ensures { result ≡ table_line self.entry.facts.now l }
    {
        l.first == 0 && l.second == 0 && self.holds(l.fact)
    }
}

// The first lines of a derivation, of which the facts on the last and on the one before it are at hand: the lines of a printed
// derivation rest on the two lines before them.
#[derive(Clone, Copy)]
pub struct Before<'a> {
    pub derivation: &'a [u8],
    pub count: usize,
    pub last: Option<Fact>,
    pub second_last: Option<Fact>,
    pub ghost behind: { Behind derivation.now count last second_last },
}

impl Before<'_> {
    // The fact on line k, counted from 1, if that is one of the lines.
    fn premise(self, k: u32) -> Option<Fact>
        ensures { MatchOption result (fact_on (lines_of self.entry.derivation.now self.entry.count) k ≡ none) (λ f. fact_on (lines_of self.entry.derivation.now self.entry.count) k ≡ some f) }
    {
        let place = (k as usize).checked_sub(1)?;
        match self.count.saturating_sub(place) {
            0 => None,
            1 => self.last,
            2 => self.second_last,
            _ => Some(derivation_lines::fact_at(self.derivation, place)),
        }
    }

    // A rule gives the line from two of the lines before it.
    #[tactic(auto, unfolding(rules::specs::Steps::step_from))]
    fn give(self, l: Line) -> bool
        ensures { result ≡ rule_line (lines_of self.entry.derivation.now self.entry.count) l }
    {
        let (Some(p), Some(q)) = (self.premise(l.first), self.premise(l.second)) else {
            return false;
        };
        rule_steps::step(l.rule, p, q, l.fact)
    }
}

// The line is a table line, or a rule gives it from two of the lines before it.
#[tactic(auto, unfolding(rules::specs::Steps::justified))]
pub fn is_justified(table: Table, before: Before, l: Line) -> bool
    ensures { result ≡ justified table.entry.facts.now (lines_of before.entry.derivation.now before.entry.count) l }
{
    if l.rule == 0 {
        table.has_line(l)
    } else {
        before.give(l)
    }
}
