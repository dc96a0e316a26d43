// Terms, facts and answers (document 01, "Terms and facts" and its table of numbers; document 02, Points 1 to 3): types, definitions and
// laws, and how a refusal gets its place.
#![tactic(auto)]

ghost use Rattle.std.specs.Prelude.{◌≡◌, ◌+◌, ◌<◌};
ghost use Rattle.facts.specs.Results.{refused_at};

// The kind of a number that stands where a term belongs.
#[derive(Clone, Copy, PartialEq, Eq)]
pub enum Kind {
    NoTerm,
    Vocabulary,
    Name,
    Literal,
    BlankNode,
    Beyond,
}

// The vocabulary.
pub const SC: u32 = 1;

pub const SP: u32 = 2;

pub const DOM: u32 = 3;

pub const RANGE: u32 = 4;

pub const TYPE: u32 = 5;

// A fact. Its numbers are 32 bits wide, so that a number above 16 bits can be refused. Facts are in order by subject, then predicate,
// then object, as their fields stand here.
#[derive(Clone, Copy, PartialEq, Eq, PartialOrd, Ord)]
pub struct Fact {
    pub subject: u32,
    pub predicate: u32,
    pub object: u32,
}

// What stands where there is no fact.
pub const NO_FACT: Fact = Fact {
    subject: 0,
    predicate: 0,
    object: 0,
};

// What documents 01 and 02 refuse, under their own words, each with its number there.
#[derive(Clone, Copy, PartialEq, Eq)]
pub enum Refusal {
    Size = 1,
    Column = 2,
    Term = 3,
    Blank = 4,
    Part = 5,
    Order = 6,
    Allowance = 7,
    Short = 8,
    Form = 9,
    Step = 10,
    End = 11,
    Class = 12,
    Statement = 13,
    UnknownNode = 14,
    Crowd = 15,
}

// What a test finds: nothing to refuse, or the first refusal that is earned.
pub type Verdict = Result<(), Refusal>;

// A refusal and document 01's place of it: a line's number, counted from 1, or 0 for the call as a whole. No Option: the place is what C gets,
// and with `Some(0)` beside `None` a code would not tell its answer.
#[derive(Clone, Copy, PartialEq, Eq)]
pub struct Refused {
    pub refusal: Refusal,
    pub place: u32,
}

impl Refused {
    // A refusal of line i, counted from 0.
    pub fn on_line(refusal: Refusal, i: usize) -> Refused
        requires { i < 4294967295 }
        ensures { result ≡ refused_at refusal (i + 1) }
    {
        Refused {
            refusal,
            place: i as u32 + 1,
        }
    }
}

// A refusal of a call as a whole has the place 0.
impl From<Refusal> for Refused {
    ghost from_gives = { λ r e. e ≡ refused_at r 0 };

    fn from(refusal: Refusal) -> Refused {
        Refused { refusal, place: 0 }
    }
}

// What a call answers where it refuses nothing. A count is a number of facts or table lines; the second number of a yes is the term
// that fills the question's gap, or 0 where it has none: with an Option a yes that names none and one that names 0 would have one code,
// and a code would not tell its answer (`told-yes`).
#[derive(Clone, Copy, PartialEq, Eq)]
pub enum Outcome {
    Done(u32),
    Yes(u32, u32),
    No,
    Long(u32),
    Accepted(u32),
}

// What a call answers.
pub type Answer = Result<Outcome, Refused>;

// An answer as document 01 numbers it, and the term that it names for a gap: each 0 where an answer doesn't name it.
#[derive(Clone, Copy, PartialEq, Eq, Default)]
pub struct Code {
    pub number: u32,
    pub place: u32,
    pub count: u32,
    pub filling: u32,
}
