// Part of the check: what it answers at the first line that is not justified, and behind the last line.
#![tactic(auto)]

ghost use Rattle.std.specs.Prelude.{◌≡◌, Some, cond, ◌+◌, ◌-◌, ◌*◌, ◌≤◌, ◌<◌, length};
ghost use Rattle.std.specs.Option.{option_eq};
ghost use Rattle.facts.specs.declared.Refusal.TheVariants.{Step, End};
ghost use Rattle.facts.specs.Results.{Accepted, Refused};
ghost use Rattle.table.specs.Scans.{scan};
ghost use Rattle.rules.specs.Steps.{same};
ghost use Rattle.acceptance.specs.Check.{form_verdict, after};

use derivation_lines::LINE_BYTES;
use facts::{Answer, Fact, Outcome, Refusal};
use table::Scan;

// The fields of a derivation line.
const LINE_FIELDS: usize = 6;

// A derivation's bytes, with the number of its lines: 1 to 2,047.
#[derive(Clone, Copy)]
pub struct Derivation<'a> {
    pub bytes: &'a [u8],
    pub lines: usize,
    pub ghost some: { 0 < lines },
    pub ghost few: { lines ≤ 2047 },
    pub ghost there: { 31 * lines ≤ length bytes.now },
}

impl Derivation<'_> {
    // The first line, from one on, that is badly laid out.
    #[tactic(auto, using(acceptance::proofs::Pass::forms_on, acceptance::proofs::Pass::forms_stop, acceptance::proofs::Pass::forms_end))]
    fn scan_layout(self, from: usize) -> Scan
        requires { from ≤ self.lines }
        ensures { result ≡ scan (form_verdict self.entry.bytes.now) from (self.entry.lines - from) }
    {
        for i in from..self.lines {
            if !line_layout::is_laid_out(LINE_FIELDS, self.bytes, LINE_BYTES * i) {
                return Err(facts::Refused::on_line(Refusal::Form, i));
            }
        }
        Ok(self.lines as u32)
    }

    // The refusal where line i is the first that is not justified: 9 comes before 10, so a later line that is badly laid out, if
    // there is one, is refused.
    #[tactic(auto, unfolding(acceptance::specs::Check::after))]
    pub fn refuse_step(self, i: usize) -> Answer
        requires { i < self.lines }
        ensures { result ≡ after (scan (form_verdict self.entry.bytes.now) (i + 1) (self.entry.lines - (i + 1))) (Refused Step (i + 1)) }
    {
        self.scan_layout(i + 1)?;
        Err(facts::Refused::on_line(Refusal::Step, i))
    }
}

// The end of the check of n lines that are all justified, with the fact on the last of them and the number of table lines. The place of
// its refusal is n itself: there may be no line.
#[tactic(auto, unfolding(rules::specs::Steps::same))]
pub fn check_end(last: Option<Fact>, fact: Fact, count: u32, n: usize) -> Answer
    requires { n ≤ 2047 }
    ensures { result ≡ cond (option_eq same last (Some fact)) (Accepted count) (Refused End n) }
{
    if last == Some(fact) {
        Ok(Outcome::Accepted(count))
    } else {
        Err(facts::Refused {
            refusal: Refusal::End,
            place: n as u32,
        })
    }
}
