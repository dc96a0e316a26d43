// The question (document 01, "The question"; document 02, Point 1): whether a fact, or one that fills a gap, follows from a
// table, from how few of its facts, and a derivation with exactly that many. The search is breadth first over the table's
// facts.
#![tactic(auto)]

ghost use Rattle.std.specs.Prelude.{◌≡◌, length};
ghost use Rattle.facts.specs.Answers.{code_of};
ghost use Rattle.question.specs.Question.{answer_of, printed_for, written, Settling, question, Answered, Means};

use facts::{Answer, Fact, NO_FACT, Outcome};
use reader::load;
use search_choice::shortest;
use search_limits::verdict;
use search_order::print_order;
use search_print::print;
use table::PLACES;

// The answer from a table's facts; a yes writes its derivation into the output, and names what fills a gap on its last line.
fn settle(facts: &[Fact], t: Fact, limit: u32, output: &mut [u8]) -> Answer
    requires { Settling facts.now limit (length output.old) }
    ensures answer { result ≡ answer_of facts.now t limit }
    ensures output { output.new ≡ written result (printed_for facts.now t) output.old }
{
    let mut places = [0; PLACES];
    let Some(f) = shortest(facts, t, &mut places) else {
        return Ok(Outcome::No);
    };
    let count = f as u32;
    if limit < count {
        return Ok(Outcome::Long(count));
    }
    let path = &mut places[..f];
    print_order(facts, path);
    let last = print(facts, path, output);
    Ok(Outcome::Yes(count, gaps::filling_of(t, last)))
}

// The question: whether the fact, or one that fills its gap, follows from the table, and from how few of its facts. The limit is
// document 01's allowance and the output its paper: a yes writes the derivation into its front, any other answer leaves it as it was.
pub fn question(table: &[u8], fact: Fact, limit: u32, output: &mut [u8]) -> Answer
    ensures call { Answered (question table.now fact limit) output.old output.new result }
    ensures meaning { Means (question table.now fact limit) output.old output.new (code_of result) }
{
    let mut facts = [NO_FACT; PLACES];
    let n = load(table, &mut facts)?;
    verdict(fact, limit, output.len())?;
    settle(&facts[..n as usize], fact, limit, output)
}
