// Part of the search: which facts may begin a path, follow one another, and end it.
#![tactic(auto)]

ghost use Rattle.std.specs.Prelude.{◌≡◌};
ghost use Rattle.rules.specs.Paths.{link, property, goes_on, next, fits, start_for, goal_for};

use facts::{DOM, Fact, RANGE, SC, SP, TYPE};
use terms::{is_gap, is_name};

// The term to which a fact leads: the predicate of a data fact, and else the object.
#[tactic(auto, unfolding(rules::specs::Paths::link))]
pub fn link_of(f: Fact) -> u32
    ensures { result ≡ link f }
{
    if is_name(f.predicate) {
        f.predicate
    } else {
        f.object
    }
}

// A data fact and an sp fact lead to a property.
#[tactic(auto, unfolding(rules::specs::Paths::property))]
pub fn is_property(f: Fact) -> bool
    ensures { result ≡ property f }
{
    is_name(f.predicate) | (f.predicate == SP)
}

// On a path by w, a chain may go on from a: from a dom or range fact only where that is the way. A way is a predicate, SP, DOM
// or RANGE, by its number, as definitions and contracts have it: an enum would be turned back into the number in each of them, and here.
#[tactic(auto, unfolding(rules::specs::Paths::goes_on))]
pub fn goes_on(w: u32, a: Fact) -> bool
    ensures { result ≡ goes_on w a }
{
    let p = a.predicate;
    !((p == DOM) | (p == RANGE)) | (p == w)
}

// On a path by w, b may follow a.
#[tactic(auto, unfolding(rules::specs::Paths::next, rules::specs::Paths::chain))]
pub fn follows(w: u32, a: Fact, b: Fact) -> bool
    ensures { result ≡ next w a b }
{
    let p = b.predicate;
    let here = b.subject == link_of(a);
    let on = goes_on(w, a);
    if is_property(a) {
        here & ((on & (p == SP)) | (p == w))
    } else {
        here & (on & (p == SC))
    }
}

// The term x of a question stands for the term n: it is n, or a gap.
#[tactic(auto, unfolding(rules::specs::Paths::fits))]
pub fn fits(x: u32, n: u32) -> bool
    ensures { result ≡ fits x n }
{
    is_gap(x) | (n == x)
}

// A path by w for the question t may begin with a.
#[tactic(auto, unfolding(rules::specs::Paths::start_for, rules::specs::Paths::typed))]
pub fn starts(w: u32, t: Fact, a: Fact) -> bool
    ensures { result ≡ start_for w t a }
{
    let s = t.subject;
    let p = t.predicate;
    let x = a.subject;
    let q = a.predicate;
    let y = a.object;
    if is_name(q) {
        if is_name(p) {
            return fits(s, x) & fits(t.object, y);
        }
        if w == RANGE {
            return (p == TYPE) & fits(s, y);
        }
        return (p == TYPE) & fits(s, x);
    }
    (q == p) & fits(s, x)
}

// A path for the question t may end with a.
#[tactic(auto, unfolding(rules::specs::Paths::goal_for))]
pub fn ends(t: Fact, a: Fact) -> bool
    ensures { result ≡ goal_for t a }
{
    fits(link_of(t), link_of(a)) & (is_property(a) == is_property(t))
}
