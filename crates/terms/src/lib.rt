// What is a name, what is a gap (document 02, Point 1), and whether a fact is well-formed (document 01, "Terms and facts"; document 02,
// Point 2). Only `kinds` and this crate tell terms apart.
#![tactic(auto)]

ghost use Rattle.std.specs.Prelude.{false, ◌≡◌};
ghost use Rattle.facts.specs.Terms.{kind_of, is_name};
ghost use Rattle.facts.specs.Facts.{is_node, is_predicate, well_formed};
ghost use Rattle.facts.specs.Gaps.{is_gap};

use facts::{Fact, Kind, TYPE};
use kinds::{BLANK_FIRST, LITERAL_FIRST, NAME_FIRST, kind_of};

// A number is a name. This and the next are two names that the rules and questions use, not one test of a kind.
pub fn is_name(n: u32) -> bool
    ensures { result ≡ is_name (kind_of n) }
{
    kind_of(n) == Kind::Name
}

// A number is a gap in a question.
#[tactic(auto, unfolding(facts::specs::Gaps::is_gap))]
pub fn is_gap(n: u32) -> bool
    ensures { result ≡ is_gap n }
{
    kind_of(n) == Kind::BlankNode
}

// A name or a literal.
#[tactic(auto, unfolding(facts::specs::Facts::is_node, facts::specs::Terms::kind_of))]
fn is_node(n: u32) -> bool
    ensures { result ≡ is_node false n }
{
    (NAME_FIRST..BLANK_FIRST).contains(&n)
}

// What may be a predicate: a name or one of the vocabulary.
#[tactic(auto, unfolding(facts::specs::Facts::is_predicate, facts::specs::Terms::kind_of))]
fn is_predicate(n: u32) -> bool
    ensures { result ≡ is_predicate n }
{
    (1..LITERAL_FIRST).contains(&n)
}

// The fact is well-formed: names may stand on both sides of every predicate, a literal as subject of type and on both sides of a name.
pub fn is_well_formed(f: Fact) -> bool
    ensures { result ≡ well_formed f }
{
    let p = f.predicate;
    if is_name(f.object) {
        if is_name(f.subject) {
            return is_predicate(p);
        }
        return (kind_of(f.subject) == Kind::Literal) & (is_name(p) | (p == TYPE));
    }
    (kind_of(f.object) == Kind::Literal) & is_name(p) & is_node(f.subject)
}
