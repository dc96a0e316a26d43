// An answer's number, place and count (the papers' table of numbers), and the term that it names for a gap.
#![tactic(auto)]

ghost use Rattle.std.specs.Prelude.{◌≡◌};
ghost use Rattle.facts.specs.Answers.{code_of};

use facts::{Answer, Code, Outcome, Refused};

// Number, place and count of an answer, and the term that a yes names. No `From`: `code_of` is the name that the definition has, and
// `Code::from` would say no more.
pub fn code_of(a: Answer) -> Code
    ensures { result ≡ code_of a }
{
    match a {
        Ok(Outcome::Done(count)) => Code {
            count,
            ..Code::default()
        },
        Ok(Outcome::Yes(count, filling)) => Code {
            number: 90,
            count,
            filling,
            ..Code::default()
        },
        Ok(Outcome::No) => Code {
            number: 91,
            ..Code::default()
        },
        Ok(Outcome::Long(count)) => Code {
            number: 92,
            count,
            ..Code::default()
        },
        Ok(Outcome::Accepted(count)) => Code {
            number: 93,
            count,
            ..Code::default()
        },
        Err(Refused { refusal, place }) => Code {
            number: refusal as u32,
            place,
            ..Code::default()
        },
    }
}
