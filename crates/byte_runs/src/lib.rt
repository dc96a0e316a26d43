// The classes of bytes in N-Triples, and runs of bytes of one class (document 02, Point 3).
#![tactic(auto)]

ghost use Rattle.std.specs.Prelude.{◌≡◌, ◌≢◌, ◌≤◌, ◌<◌, length};
ghost use Rattle.std.specs.Bool.{OnTrue};
ghost use Rattle.ntriples.specs.declared.Class.TheVariants.{Iri, Quoted};
ghost use Rattle.ntriples.specs.Classes.{belongs};
ghost use Rattle.ntriples.specs.Lexed.{byte_at, run, run_end};

use ntriples::{COLON, Class, HYPHEN, LINE_END, STOP, UNDERSCORE};

// The byte may stand in an IRI. The barred ones below 64 and those above are tried apart: of all in a row the compiler makes a table of
// places to jump to, 264 bytes wherever IRIs are read.
#[tactic(auto, unfolding(ntriples::specs::Classes::belongs))]
fn is_of_iri(b: u8) -> bool
    ensures { result ≡ belongs Iri b }
{
    if b < 64 {
        (32 < b) & !((b == 60) | (b == 62) | (b == 34))
    } else {
        !((b == 123) | (b == 125) | (b == 124) | (b == 94) | (b == 96) | (b == 92))
    }
}

// The byte may stand between a literal's quotes; tried in two parts, as in an IRI.
#[tactic(auto, unfolding(ntriples::specs::Classes::belongs))]
fn is_of_quoted(b: u8) -> bool
    ensures { result ≡ belongs Quoted b }
{
    if b < 64 {
        !((b == 34) | (b == 10) | (b == 13))
    } else {
        b != 92
    }
}

// The byte is of the class. A class by name and no closure over bytes: the definitions of the grammar name classes, and so do the contracts.
#[tactic(auto, unfolding(ntriples::specs::Classes::belongs))]
pub fn is_of(c: Class, b: u8) -> bool
    ensures value { result ≡ belongs c b }
    ensures inside { OnTrue result (b ≢ 10) }
{
    match c {
        Class::White => (b == 32) | (b == 9),
        Class::Iri => is_of_iri(b),
        Class::Quoted => is_of_quoted(b),
        Class::Comment => !((b == 10) | (b == 13)),
        Class::Letter => b.is_ascii_alphabetic(),
        Class::LetterDigit => b.is_ascii_alphanumeric(),
        Class::Label => {
            b.is_ascii_alphanumeric()
                | (b == UNDERSCORE)
                | (b == COLON)
                | (b == HYPHEN)
                | (b == STOP)
                | (127 < b)
        }
        Class::Line => b != LINE_END,
    }
}

// The byte at a place, or a line end behind the last. A line and a place stay two parameters, here and in the crates above: only the places go on, so that a
// struct of both would be built anew at each step, and say no more.
pub fn byte_at(s: &[u8], at: usize) -> u8
    ensures value { result ≡ byte_at s.now at }
    ensures inside { result ≢ 10 → at < length s.now }
{
    s.get(at).copied().unwrap_or(LINE_END)
}

// How many bytes of a class stand in front.
fn run(c: Class, s: &[u8]) -> usize
    ensures count { result ≡ run c s.now }
    ensures within { result ≤ length s.now }
{
    s.iter().take_while(|b| is_of(c, **b)).count()
}

// Where the bytes of a class end that begin at a place.
#[tactic(auto, unfolding(ntriples::specs::Lexed::run_end))]
pub fn run_end(c: Class, s: &[u8], at: usize) -> usize
    ensures value { result ≡ run_end c s.now at }
    ensures behind { at ≤ result }
    ensures within { at ≤ length s.now → result ≤ length s.now }
{
    at + run(c, s.get(at..).unwrap_or_default())
}
