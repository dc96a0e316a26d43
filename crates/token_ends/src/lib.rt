// Where the tokens of a line of N-Triples end (document 02, Point 3).
#![tactic(auto)]

ghost use Rattle.std.specs.Prelude.{◌≡◌, ◌≢◌, ◌+◌, ◌<◌, ◌&&◌, cond, eqb, None, Some};
ghost use Rattle.ntriples.specs.Lexed.{byte_at, run_end, end_of, iri_end, suffix_end, literal_end, subject_end, object_end};

use byte_runs::{byte_at, run_end};
use label_ends::{blank_end, tag_end};
use ntriples::{AT, CARET, CLOSE, Class, OPEN, QUOTE, UNDERSCORE};

// What stands between two bytes: the first, bytes of a class, and the last. Neither is the one that stands behind the end of a line.
#[derive(Clone, Copy)]
struct Enclosed {
    first: u8,
    class: Class,
    last: u8,
    ghost begins: { first ≢ 10 },
    ghost ends: { last ≢ 10 },
}

// Where what begins at a place ends, if it does.
fn enclosed_end(s: &[u8], at: usize, e: Enclosed) -> Option<usize>
    ensures { result ≡ cond (eqb (byte_at s.now at) e.first && eqb (byte_at s.now (run_end e.class s.now (at + 1))) e.last) (Some (run_end e.class s.now (at + 1) + 1)) None }
{
    if byte_at(s, at) != e.first {
        return None;
    }
    let end = run_end(e.class, s, at + 1);
    if byte_at(s, end) != e.last {
        return None;
    }
    Some(end + 1)
}

// Where the IRI ends that begins at a place, if one begins.
#[tactic(auto, unfolding(ntriples::specs::Lexed::iri_end))]
pub fn iri_end(s: &[u8], at: usize) -> Option<usize>
    ensures { result ≡ end_of (iri_end s.now at) }
{
    let iri = Enclosed {
        first: OPEN,
        class: Class::Iri,
        last: CLOSE,
    };
    enclosed_end(s, at, iri)
}

// Where a literal ends whose closing quote stands before a place, so that the place is not 0: not where @ or ^ comes next and no tag or datatype does.
#[tactic(auto, unfolding(ntriples::specs::Lexed::suffix_end))]
fn suffix_end(s: &[u8], at: usize) -> Option<usize>
    ensures { result ≡ end_of (suffix_end s.now at) }
{
    match byte_at(s, at) {
        AT => tag_end(s, at + 1),
        CARET if byte_at(s, at + 1) == CARET => iri_end(s, at + 2),
        CARET => None,
        _ => (0 < at).then_some(at),
    }
}

// Where the literal ends that begins at a place, if one does.
#[tactic(auto, unfolding(ntriples::specs::Lexed::literal_end))]
fn literal_end(s: &[u8], at: usize) -> Option<usize>
    ensures { result ≡ end_of (literal_end s.now at) }
{
    let text = Enclosed {
        first: QUOTE,
        class: Class::Quoted,
        last: QUOTE,
    };
    let end = enclosed_end(s, at, text)?;
    suffix_end(s, end)
}

// Where the IRI or blank node ends that begins at a place, if one does.
#[tactic(auto, unfolding(ntriples::specs::Lexed::subject_end))]
pub fn subject_end(s: &[u8], at: usize) -> Option<usize>
    ensures { result ≡ end_of (subject_end s.now at) }
{
    if byte_at(s, at) == UNDERSCORE {
        blank_end(s, at)
    } else {
        iri_end(s, at)
    }
}

// Where the object ends that begins at a place, if one does.
#[tactic(auto, unfolding(ntriples::specs::Lexed::object_end))]
pub fn object_end(s: &[u8], at: usize) -> Option<usize>
    ensures { result ≡ end_of (object_end s.now at) }
{
    if byte_at(s, at) == QUOTE {
        literal_end(s, at)
    } else {
        subject_end(s, at)
    }
}
