// Part of the search: the chosen shortest path, read back from the marks.
#![tactic(auto)]

ghost use Rattle.std.specs.Prelude.{◌≡◌, ◌≤◌, length};
ghost use Rattle.std.specs.List.{list_any};
ghost use Rattle.columns.specs.Lines.{over};
ghost use Rattle.rules.specs.Graph.{least};
ghost use Rattle.rules.specs.Chosen.{chosen_by, fact_in};
ghost use Rattle.question.specs.Trace.{optional, into, single, ending, Queued, Stepping, Stepped, FirstEnd, Traceable};
ghost use Rattle.question.specs.State.{Early};

use facts::Fact;
use question::{Part, State};
use search_links::{ends, follows, starts};
use search_parts::{NOTES, Search, may_come_before};
use terms::is_name;

// The first place that is marked m and that b may follow, if there is one, and how much of the queue is left for the next
// step back: of the queue, the part behind the lower marks is passed.
fn before(sought: Search, m: usize, b: Fact, s: &State, top: usize) -> (Option<usize>, usize)
    requires { Stepping sought.facts.now s.now.mark s.now.queue m top }
    ensures { Stepped sought.entry.facts.now sought.entry.way s.now.mark s.now.queue m b result.0 result.1 }
{
    let mut at = None;
    for q in (0..top).rev() {
        let i = s.queue[q] as usize;
        let k = s.mark[i] as usize;
        if k < m {
            return (at, q + 1);
        }
        if k == m && at.is_none_or(|j| i < j) && follows(sought.way, sought.facts[i], b) {
            at = Some(i);
        }
    }
    (at, 0)
}

// The first place of a data fact that has the subject of t as its object, if there is one. Not inlined: in one function with the reading of the
// table it makes that slower, and a question takes up to two percent more instructions.
#[inline(never)]
pub fn first_into_subject(facts: &[Fact], t: Fact) -> Option<usize>
    ensures { result ≡ optional (least (λ j. into t.subject (fact_in facts.now j)) 0 (length facts.now)) }
{
    facts
        .iter()
        .position(|a| is_name(a.predicate) & (a.object == t.subject))
}

// A data fact has the subject of t as its object.
pub fn leads_into_subject(facts: &[Fact], t: Fact) -> bool
    ensures { result ≡ list_any (into t.subject) facts.now }
{
    first_into_subject(facts, t).is_some()
}

// The first place of a fact that is a path for the question by itself, if there is one.
pub fn first_alone(sought: Search) -> Option<usize>
    ensures { result ≡ optional (least (λ j. single sought.entry.way sought.entry.asked (fact_in sought.entry.facts.now j)) 0 (length sought.entry.facts.now)) }
{
    let mut facts = sought.facts.iter();
    facts.position(|a| ends(sought.asked, *a) & starts(sought.way, sought.asked, *a))
}

// The first goal of a part of the facts that may follow a, if it is before `best`, and else `best`.
fn first_end(sought: Search, a: Fact, p: Part, best: Option<usize>) -> Option<usize>
    requires { p.to ≤ length sought.facts.now }
    ensures { FirstEnd sought.entry.facts.now sought.entry.way sought.entry.asked a p.from p.to best result }
{
    for j in p.from..p.to {
        if best.is_some_and(|i| i <= j) {
            return best;
        }
        let b = sought.facts[j];
        if ends(sought.asked, b) & follows(sought.way, a, b) {
            return Some(j);
        }
    }
    best
}

// The last place of the chosen path of m + 1 facts, if there is one. A path of one fact is a start and a goal. Else it is the first
// goal that may follow a place marked m: over these places, from the first that leads to a goal, and from each over its part of the
// facts, once, where that may lead to an earlier goal than the first so far. Not inlined: with its passes in one function, `trace`
// takes a tenth more instructions.
#[inline(never)]
fn path_end(sought: Search, m: usize, s: &State) -> Option<usize>
    requires { Queued (length sought.facts.now) s.now.mark s.now.queue m s.now.to × Early sought.facts.now sought.way sought.asked s.now.mark s.now.queue m s.now.from }
    ensures { result ≡ optional (least (ending sought.entry.facts.now sought.entry.way s.now.mark sought.entry.asked m) 0 (length sought.entry.facts.now)) }
{
    if m == 0 {
        return first_alone(sought);
    }
    let mut best = None;
    let mut done = [false; NOTES];
    for q in s.from..s.to {
        let i = s.queue[q] as usize;
        let a = sought.facts[i];
        if (s.mark[i] as usize) == m && may_come_before(sought.facts, a, best) {
            if let Some(part) = sought.part_of(a, &done) {
                best = first_end(sought, a, part, best);
                done[part.slot] = true;
            }
        }
    }
    best
}

// Writes the places of the chosen path of f facts, from its end back. A path of f facts leads to a goal, so that each step finds
// a place.
pub fn trace(sought: Search, f: usize, s: &State, path: &mut [u16])
    requires { Traceable sought.facts.now sought.way sought.asked f s.now (length path.old) }
    ensures { path.new ≡ over (chosen_by sought.entry.facts.now sought.entry.asked sought.entry.way f) path.old }
{
    let end = path_end(sought, f - 1, s).unwrap();
    path[f - 1] = end as u16;
    let mut j = end;
    let mut top = s.to;
    for i in (0..f - 1).rev() {
        let (at, left) = before(sought, i + 1, sought.facts[j], s, top);
        let k = at.unwrap();
        path[i] = k as u16;
        j = k;
        top = left;
    }
}
