// Part of the search: the part of the facts that may follow a fact, found by halves and passed once.
#![tactic(auto)]

ghost use Rattle.std.specs.Prelude.{◌≡◌, ◌+◌, ◌≤◌};
ghost use Rattle.rules.specs.Paths.{property};
ghost use Rattle.question.specs.Row.{Rising, Cut, may_come_before};
ghost use Rattle.question.specs.State.{Starting, slot_of, PartOf};

use facts::{Fact, RANGE};
use question::Part;
use search_links::{goes_on, is_property, link_of};
use std::ops::Range;
use table::PLACES;
use terms::is_gap;

// A part of the facts begins at a place or behind the last. For each beginning it is noted twice whether the part has been
// passed: from facts that lead to a class, and behind those from facts that lead to a property.
const BEGINNINGS: usize = PLACES + 1;

pub const NOTES: usize = 2 * BEGINNINGS;

// A search for the question `asked` by a way, over at most 1,024 facts whose subjects never fall.
#[derive(Clone, Copy)]
pub struct Search<'a> {
    pub facts: &'a [Fact],
    pub way: u32,
    pub asked: Fact,
    pub ghost rises: { Rising facts.now },
}

impl Search<'_> {
    // The first of the facts whose subject is at least x, or their number, by halves.
    fn lower_bound(self, x: u32) -> usize
        ensures { Cut self.entry.facts.now x result }
    {
        self.facts.partition_point(|f| f.subject < x)
    }

    // The end of the facts with the subject x, which begin at lo.
    fn run_end(self, x: u32, lo: usize) -> usize
        requires { Cut self.facts.now x lo }
        ensures { Cut self.entry.facts.now (x + 1) result }
    {
        lo + self.facts[lo..]
            .iter()
            .take_while(|f| f.subject <= x)
            .count()
    }

    // Where the starts of a path stand: among the facts with the subject asked for; by range, and where that is a gap, anywhere.
    pub fn starting(self) -> Range<usize>
        ensures { Starting self.entry.facts.now self.entry.way self.entry.asked result.start result.end }
    {
        let x = self.asked.subject;
        if (self.way == RANGE) | is_gap(x) {
            return 0..self.facts.len();
        }
        let lo = self.lower_bound(x);
        lo..self.run_end(x, lo)
    }

    // The part of the facts that may follow a, if there is one and it has not been passed.
    pub fn part_of(self, a: Fact, done: &[bool; NOTES]) -> Option<Part>
        ensures { PartOf self.entry.facts.now self.entry.way a done.now result }
    {
        let x = link_of(a);
        let from = self.lower_bound(x);
        let slot = slot(from, a);
        if done[slot] | !goes_on(self.way, a) {
            return None;
        }
        let to = self.run_end(x, from);
        if from < to {
            Some(Part { from, to, slot })
        } else {
            None
        }
    }
}

// Where it is noted that the part of the facts from lo on has been passed from facts that lead where a does.
fn slot(lo: usize, a: Fact) -> usize
    requires { lo ≤ 1024 }
    ensures { result ≡ slot_of (property a) lo }
{
    if is_property(a) { lo + BEGINNINGS } else { lo }
}

// Something that may follow a may stand before the place: no fact stands there, or its subject is not below the term to which a leads.
#[tactic(auto, unfolding(question::specs::Row::may_come_before))]
pub fn may_come_before(facts: &[Fact], a: Fact, at: Option<usize>) -> bool
    ensures { result ≡ may_come_before facts.now a at }
{
    match at {
        None => true,
        Some(i) => facts.len() <= i || link_of(a) <= facts[i].subject,
    }
}
