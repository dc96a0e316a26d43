// Part of the check: the lines of a derivation, one after the other, up to the first that is refused.
#![tactic(auto)]

ghost use Rattle.std.specs.Prelude.{◌≡◌};
ghost use Rattle.acceptance.specs.Check.{lines_answer};

use checker_lines::{Before, Table, is_justified};
use checker_refusals::{Derivation, check_end};
use facts::{Answer, Fact, Refusal, Refused};

// The check of a derivation's lines, each read once. `Before` is made anew at each line: kept from turn to turn, its fact would be lost in
// the loop.
pub fn check_lines(table: Table, fact: Fact, derivation: Derivation) -> Answer
    ensures { result ≡ lines_answer table.entry.facts.now fact derivation.entry.bytes.now derivation.entry.lines }
{
    let mut last = None;
    let mut second_last = None;
    let mut count = 0;
    for i in 0..derivation.lines {
        let Ok(l) = derivation_lines::read_line(derivation.bytes, i) else {
            return Err(Refused::on_line(Refusal::Form, i));
        };
        let before = Before {
            derivation: derivation.bytes,
            count: i,
            last,
            second_last,
        };
        let justified = is_justified(table, before, l);
        if !justified {
            return derivation.refuse_step(i);
        }
        count += u32::from(l.rule == 0);
        second_last = last;
        last = Some(l.fact);
    }
    check_end(last, fact, count, derivation.lines)
}
