// Part of the question: the output that a limit asks for, and what a question to an accepted table earns (document 01, "The
// question" and the order of refusals).
#![tactic(auto)]

ghost use Rattle.std.specs.Prelude.{◌≡◌, ◌*◌, ◌<◌};
ghost use Rattle.question.specs.Question.{needed, asked};

use derivation_lines::LINE_BYTES;
use facts::{Fact, Refusal, Verdict};

// The most that a limit may be.
const LIMIT_MOST: u32 = 1024;

// The bytes of output that a limit asks for, and those of a derivation with so many table lines: 2 x limit - 1 lines, and none
// for 0.
pub fn needed_for(limit: u32) -> usize
    ensures { result ≡ needed limit }
{
    LINE_BYTES * (2 * limit as usize).saturating_sub(1)
}

// The first of refusals 3, 4, 5, 12, 7 and 8 that a question to an accepted table earns, with so many bytes of output.
pub fn verdict(t: Fact, limit: u32, size: usize) -> Verdict
    ensures { result ≡ asked t limit size }
{
    gaps::question_fault(t)?;
    if LIMIT_MOST < limit {
        return Err(Refusal::Allowance);
    }
    if size < needed_for(limit) {
        return Err(Refusal::Short);
    }
    Ok(())
}
