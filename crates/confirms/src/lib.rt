// A question and, behind a yes, the check of the derivation that it printed.
#![tactic(auto)]

ghost use Rattle.facts.specs.Facts.{fact};
ghost use Rattle.confirms.specs.Confirms.{Confirms};

use facts::{Answer, Fact, Outcome};

// What a question answers, and what the check says of the derivation that it printed.
#[derive(Clone, Copy)]
pub struct Confirmed {
    pub answer: Answer,
    pub verdict: Answer,
}

// Puts a question and hands what a yes printed to the check, for the fact with its gap filled; any other answer is its own
// verdict. The limit is document 01's allowance and the output its paper.
pub fn confirm(table: &[u8], fact: Fact, limit: u32, output: &mut [u8]) -> Confirmed
    ensures { Confirms table.now fact limit output.old output.new result }
{
    let answer = search::question(table, fact, limit, output);
    // Two patterns, one after the other: where one stands for both, the check loses that any other answer is no yes.
    let alone = Confirmed {
        answer,
        verdict: answer,
    };
    let Ok(outcome) = answer else {
        return alone;
    };
    let Outcome::Yes(f, x) = outcome else {
        return alone;
    };
    let used = search_limits::needed_for(f);
    let verdict = checker::check(table, gaps::filled_by(fact, x), &output[..used]);
    Confirmed { answer, verdict }
}
