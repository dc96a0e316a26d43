// Where language tags and blank nodes' labels end (document 02, Point 3).
#![tactic(auto)]

ghost use Rattle.std.specs.Prelude.{◌≡◌, ◌<◌, ◌≤◌, length, MatchOption, eqb};
ghost use Rattle.std.specs.List.{suffix_len};
ghost use Rattle.ntriples.specs.Lexed.{run_end, end_of, tag_end, blank_end};

use byte_runs::{byte_at, is_of, run_end};
use ntriples::{COLON, Class, HYPHEN, STOP, UNDERSCORE};

// Where the part of a language tag ends that begins at a place, if it has a byte.
fn part_end(c: Class, s: &[u8], at: usize) -> Option<usize>
    ensures { MatchOption result (run_end c s.now at ≡ at) (λ end. (end ≡ run_end c s.now at) × (at < end)) }
{
    let end = run_end(c, s, at);
    (at < end).then_some(end)
}

// Where the language tag ends whose first part begins at a place, if one does. No `for`: only the end of a part tells whether one more begins.
pub fn tag_end(s: &[u8], at: usize) -> Option<usize>
    ensures { result ≡ end_of (tag_end s.now at) }
{
    let mut end = part_end(Class::Letter, s, at)?;
    while byte_at(s, end) == HYPHEN {
        end = part_end(Class::LetterDigit, s, end + 1)?;
    }
    Some(end)
}

// How many full stops stand at the end.
fn stops(s: &[u8]) -> usize
    ensures count { result ≡ suffix_len (λ b. eqb b 46) s.now }
    ensures within { result ≤ length s.now }
{
    s.iter().rev().take_while(|b| **b == STOP).count()
}

// Where the blank node ends that begins at a place, if one does.
#[tactic(auto, unfolding(ntriples::specs::Lexed::blank_end))]
pub fn blank_end(s: &[u8], at: usize) -> Option<usize>
    ensures { result ≡ end_of (blank_end s.now at) }
{
    if byte_at(s, at) != UNDERSCORE {
        return None;
    }
    if byte_at(s, at + 1) != COLON {
        return None;
    }
    let b = byte_at(s, at + 2);
    if !is_of(Class::Label, b) | (b == HYPHEN) | (b == STOP) {
        return None;
    }
    let end = run_end(Class::Label, s, at + 3);
    Some(end - stops(&s[..end]))
}
