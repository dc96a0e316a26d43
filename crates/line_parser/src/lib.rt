// A line of N-Triples, taken apart (document 02, Point 3).
#![tactic(auto)]

ghost use Rattle.std.specs.Prelude.{◌≡◌, None, Some, MatchResult};
ghost use Rattle.ntriples.specs.declared.LineFault.TheVariants.{Outside};
ghost use Rattle.ntriples.specs.Lexed.{ends, stops, from_subject, line_of};

use byte_runs::{byte_at, run_end};
use ntriples::{Class, HASH, LineFault, STOP, Span, Triple, UNDERSCORE};
use token_ends::{iri_end, object_end, subject_end};

// From a place on nothing stands, or a comment.
#[tactic(auto, unfolding(ntriples::specs::Lexed::ends))]
fn is_end(s: &[u8], at: usize) -> bool
    ensures { result ≡ ends s.now at }
{
    s.len() <= at || byte_at(s, at) == HASH && s.len() <= run_end(Class::Comment, s, at + 1)
}

// A full stop at a place, and then the end.
#[tactic(auto, unfolding(ntriples::specs::Lexed::stops))]
fn is_stop(s: &[u8], at: usize) -> bool
    ensures { result ≡ stops s.now at }
{
    byte_at(s, at) == STOP && is_end(s, run_end(Class::White, s, at + 1))
}

// The token that begins at a place, where it ends.
fn token(from: usize, end: Option<usize>) -> Result<Span, LineFault>
    ensures { MatchResult result (λ token. (token.from ≡ from) × (end ≡ Some token.to)) (λ fault. (fault ≡ Outside) × (end ≡ None)) }
{
    let to = end.ok_or(LineFault::Outside)?;
    Ok(Span { from, to })
}

// The statement whose subject begins at a place. Not inlined, so that a line that says nothing is passed by quickly: with all in one function an
// import of empty lines takes three times the instructions.
#[inline(never)]
#[tactic(auto, unfolding(ntriples::specs::Lexed::from_subject, ntriples::specs::Lexed::from_predicate, ntriples::specs::Lexed::from_object))]
fn statement(s: &[u8], at: usize) -> Result<Option<Triple>, LineFault>
    ensures { result ≡ from_subject s.now at }
{
    let subject = token(at, subject_end(s, at))?;
    let at = run_end(Class::White, s, subject.to);
    let predicate = token(at, iri_end(s, at))?;
    let at = run_end(Class::White, s, predicate.to);
    let object = token(at, object_end(s, at))?;
    if !is_stop(s, run_end(Class::White, s, object.to)) {
        return Err(LineFault::Outside);
    }
    if (byte_at(s, subject.from) == UNDERSCORE) | (byte_at(s, object.from) == UNDERSCORE) {
        return Err(LineFault::Unknown);
    }
    Ok(Some(Triple {
        subject,
        predicate,
        object,
    }))
}

// What a line says.
#[tactic(auto, unfolding(ntriples::specs::Lexed::line_of))]
pub fn parse(s: &[u8]) -> Result<Option<Triple>, LineFault>
    ensures { result ≡ line_of s.now }
{
    let at = run_end(Class::White, s, 0);
    if is_end(s, at) {
        Ok(None)
    } else {
        statement(s, at)
    }
}
