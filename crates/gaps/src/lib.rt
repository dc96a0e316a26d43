// A gap in a question (document 02, Point 1): which refusal its triple earns, and the term that fills the gap.
#![tactic(auto)]

ghost use Rattle.std.specs.Prelude.{◌≡◌};
ghost use Rattle.facts.specs.Gaps.{blank_refused, question_fault, filling_of, term_or, filled_by};

use fact_tests::has_no_term;
use facts::{Fact, Refusal, Verdict};
use faults::fault;
use terms::is_gap;

// A name, which may stand wherever a gap may.
const SOME_NAME: u32 = 6;

// What earns refusal 4 in a question: a blank predicate, or two blanks.
#[tactic(auto, unfolding(facts::specs::Gaps::blank_refused))]
fn is_blank_refused(t: Fact) -> bool
    ensures { result ≡ blank_refused t }
{
    is_gap(t.predicate) | (is_gap(t.subject) & is_gap(t.object))
}

// What stands in u where t has its gap, and 0 where t has none: what a yes carries (`facts::Outcome`).
#[tactic(auto, unfolding(facts::specs::Gaps::filling_of))]
pub fn filling_of(t: Fact, u: Fact) -> u32
    ensures { result ≡ filling_of t u }
{
    if is_gap(t.subject) {
        return u.subject;
    }
    if is_gap(t.object) {
        return u.object;
    }
    0
}

// A term, or x where it is a gap.
#[tactic(auto, unfolding(facts::specs::Gaps::term_or))]
fn term_or(x: u32, n: u32) -> u32
    ensures { result ≡ term_or x n }
{
    if is_gap(n) { x } else { n }
}

// t with x in its gap.
#[tactic(auto, unfolding(facts::specs::Gaps::filled_by))]
pub fn filled_by(t: Fact, x: u32) -> Fact
    ensures { result ≡ filled_by t x }
{
    Fact {
        subject: term_or(x, t.subject),
        predicate: t.predicate,
        object: term_or(x, t.object),
    }
}

// The first of refusals 3, 4, 5 and 12 that a question's triple earns: one gap, as subject or object, earns none, and a name in its
// place leaves what the other terms earn.
#[tactic(auto, unfolding(facts::specs::Gaps::question_fault))]
pub fn question_fault(t: Fact) -> Verdict
    ensures { result ≡ question_fault t }
{
    if has_no_term(t) {
        return Err(Refusal::Term);
    }
    if is_blank_refused(t) {
        return Err(Refusal::Blank);
    }
    fault(filled_by(t, SOME_NAME))
}
