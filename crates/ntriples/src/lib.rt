// A line of N-Triples, taken apart (document 02, Point 3): types, definitions and laws, and which refusal a line's
// fault is.
#![tactic(auto)]

ghost use Rattle.std.specs.Prelude.{◌≡◌};
ghost use Rattle.ntriples.specs.Faults.{refusal_of};

use facts::Refusal;

// The bytes with a meaning of their own: byte 10, " # - . : < > @ ^ and _.
pub const LINE_END: u8 = 10;

pub const QUOTE: u8 = 34;

pub const HASH: u8 = 35;

pub const HYPHEN: u8 = 45;

pub const STOP: u8 = 46;

pub const COLON: u8 = 58;

pub const OPEN: u8 = 60;

pub const CLOSE: u8 = 62;

pub const AT: u8 = 64;

pub const CARET: u8 = 94;

pub const UNDERSCORE: u8 = 95;

// The classes of bytes.
#[derive(Clone, Copy)]
pub enum Class {
    White,
    Iri,
    Quoted,
    Comment,
    Letter,
    LetterDigit,
    Label,
    Line,
}

// A part of a line: from one place up to another. Copied, which a Range is not.
#[derive(Clone, Copy)]
pub struct Span {
    pub from: usize,
    pub to: usize,
}

// A statement: where its three tokens stand in the line.
#[derive(Clone, Copy)]
pub struct Triple {
    pub subject: Span,
    pub predicate: Span,
    pub object: Span,
}

// Why a line is refused: it is outside the subset, or its statement names a blank node.
#[derive(Clone, Copy)]
pub enum LineFault {
    Outside,
    Unknown,
}

// A line outside the subset gets 13, one that names a blank node 14.
impl From<LineFault> for Refusal {
    ghost from_gives = { λ fault r. r ≡ refusal_of fault };

    fn from(fault: LineFault) -> Refusal {
        match fault {
            LineFault::Outside => Refusal::Statement,
            LineFault::Unknown => Refusal::UnknownNode,
        }
    }
}
