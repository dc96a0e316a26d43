// What earns refusals 3, 4, 5 and 12, a test for each (document 01's table of numbers; document 02, Point 2).
#![tactic(auto)]

ghost use Rattle.std.specs.Prelude.{◌≡◌};
ghost use Rattle.facts.specs.Facts.{named_subject, named_object, has_no_term, has_blank, misplaced, text_as_class};

use facts::{DOM, Fact, Kind, RANGE, SC, SP, TYPE};
use kinds::{is_no_term, kind_of};

// What earns refusal 3: a number of the fact is no term.
#[tactic(auto, unfolding(facts::specs::Facts::has_no_term))]
pub fn has_no_term(f: Fact) -> bool
    ensures { result ≡ has_no_term f }
{
    is_no_term(kind_of(f.subject))
        | is_no_term(kind_of(f.predicate))
        | is_no_term(kind_of(f.object))
}

// What earns refusal 4: a number of the fact is a blank node. One function for this and the test above would take the test of a kind, and say no
// more.
#[tactic(auto, unfolding(facts::specs::Facts::has_blank))]
pub fn has_blank(f: Fact) -> bool
    ensures { result ≡ has_blank f }
{
    (kind_of(f.subject) == Kind::BlankNode)
        | (kind_of(f.predicate) == Kind::BlankNode)
        | (kind_of(f.object) == Kind::BlankNode)
}

// What earns refusal 5: vocabulary as subject or object, or a literal as predicate.
#[tactic(auto, unfolding(facts::specs::Facts::misplaced))]
pub fn is_misplaced(f: Fact) -> bool
    ensures { result ≡ misplaced f }
{
    (kind_of(f.subject) == Kind::Vocabulary)
        | (kind_of(f.object) == Kind::Vocabulary)
        | (kind_of(f.predicate) == Kind::Literal)
}

// The predicates whose subject must be a name.
#[tactic(auto, unfolding(facts::specs::Facts::named_subject))]
fn names_subject(p: u32) -> bool
    ensures { result ≡ named_subject p }
{
    matches!(p, SC | SP | DOM | RANGE)
}

// The predicates whose object must be a name.
#[tactic(auto, unfolding(facts::specs::Facts::named_object))]
fn names_object(p: u32) -> bool
    ensures { result ≡ named_object p }
{
    names_subject(p) | (p == TYPE)
}

// What earns refusal 12: a literal where the predicate asks for a name.
#[tactic(auto, unfolding(facts::specs::Facts::text_as_class))]
pub fn is_text_as_class(f: Fact) -> bool
    ensures { result ≡ text_as_class f }
{
    let p = f.predicate;
    ((kind_of(f.subject) == Kind::Literal) & names_subject(p))
        | ((kind_of(f.object) == Kind::Literal) & names_object(p))
}
