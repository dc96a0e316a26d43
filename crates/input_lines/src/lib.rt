// The lines of an input, one by one, and where they end (document 02, Point 3: "Lines end with byte 10, which the last may lack").
#![tactic(auto)]

ghost use Rattle.std.specs.Prelude.{◌≡◌, ◌≤◌, length, drop};
ghost use Rattle.std.specs.Iterator.{YieldsFirstRef, item_count};
ghost use Rattle.imports.specs.Lines.{lines_of, line_end};

use byte_runs::run_end;
use ntriples::Class;

// Where the line ends that begins at a place.
#[tactic(auto, unfolding(imports::specs::Lines::first_length, ntriples::specs::Classes::belongs, ntriples::specs::Lexed::run_end))]
pub fn line_end(input: &[u8], at: usize) -> usize
    ensures value { result ≡ line_end input.now at }
    ensures behind { at ≤ result }
    ensures within { at ≤ length input.now → result ≤ length input.now }
{
    run_end(Class::Line, input, at)
}

// What stands from a place on.
fn from(input: &[u8], at: usize) -> &[u8]
    ensures { result.now ≡ drop at input.now }
{
    input.get(at..).unwrap_or_default()
}

// The lines of an input that are left, each without the byte that ends it.
#[derive(Drop)]
pub struct LinesLeft<'a> {
    rest: &'a [u8],
}

impl<'a> Iterator for LinesLeft<'a> {
    type Item = &'a [u8];

    ghost next_gives = { YieldsFirstRef (λ s. lines_of s.rest.now) };

    ghost remaining = { item_count (λ s. lines_of s.rest.now) };

    fn next(&mut self) -> Option<&'a [u8]> {
        if self.rest.is_empty() {
            return None;
        }
        let end = line_end(self.rest, 0);
        let line = &self.rest[..end];
        self.rest = from(self.rest, end + 1);
        Some(line)
    }
}

// The lines of an input.
pub fn lines(input: &[u8]) -> LinesLeft<'_>
    ensures { lines_of result.rest.now ≡ lines_of input.now }
{
    LinesLeft { rest: input }
}
