// The first of refusals 3, 4, 5, 12 and 6 that a fact earns (document 01's table of numbers, "Table layout"; document 02, Point 2).
#![tactic(auto)]

ghost use Rattle.std.specs.Prelude.{◌≡◌};
ghost use Rattle.facts.specs.Facts.{fault_of, verdict_of};

use fact_tests::{has_blank, has_no_term, is_misplaced, is_text_as_class};
use facts::{Fact, Refusal, Verdict};
use terms::is_well_formed;

// The first of refusals 3, 4, 5, 12 and 6 that the fact earns, each over its whole width; ascends says that it is above the fact
// before it. Most facts are well-formed and ascend, and one cheap test tells.
pub fn verdict(ascends: bool, f: Fact) -> Verdict
    ensures { result ≡ verdict_of ascends f }
{
    if is_well_formed(f) & ascends {
        return Ok(());
    }
    if has_no_term(f) {
        return Err(Refusal::Term);
    }
    if has_blank(f) {
        return Err(Refusal::Blank);
    }
    let part = is_misplaced(f);
    let class = is_text_as_class(f);
    if part {
        return Err(Refusal::Part);
    }
    if class {
        return Err(Refusal::Class);
    }
    Err(Refusal::Order)
}

// The first of refusals 3, 4, 5 and 12 that a fact by itself earns.
pub fn fault(f: Fact) -> Verdict
    ensures { result ≡ fault_of f }
{
    verdict(true, f)
}
