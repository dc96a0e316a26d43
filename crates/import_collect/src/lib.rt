// The facts of an input, gathered (document 02, Point 3).
#![tactic(auto)]

ghost use Rattle.std.specs.Prelude.{◌≡◌, ◌+◌, ◌≤◌, ◌<◌, length};
ghost use mathlib.Core.List.{[], ◌∷◌};
ghost use Rattle.ntriples.specs.Tokens.{part};
ghost use Rattle.numbering.specs.Index.{entries};
ghost use Rattle.imports.specs.Lines.{lines_of, said, statements};
ghost use Rattle.imports.specs.Collecting.{GivesTerm, Stands, TripleStands, statement_at, begun, Collected};

use fact_keys::Keys;
use facts::Fact;
use imports::{CROWD, ENTRIES};
use input_lines::line_end;
use line_parser::parse;
use ntriples::{Span, Triple};
use token_index::Index;
use vocabulary::vocabulary_of;

// A token's number: the vocabulary's own, or that by its first appearance, and then the index has its entry.
fn term(index: &mut Index, token: Span) -> u32
    requires { (token.from < token.to) × (token.to ≤ length index.old.input.now) × (entries index.old.counts < length index.old.items.now) }
    ensures same_reference { (index.new.input ≡ index.old.input) × (index.new.items.ghost_name ≡ index.old.items.ghost_name) }
    ensures same_length { length index.new.items.now ≡ length index.old.items.now }
    ensures gives { GivesTerm index.old.input.now token.from token.to index.old.items.now index.new.items.now index.old.counts index.new.counts result }
{
    let input = index.input;
    match vocabulary_of(&input[token.from..token.to]) {
        Some(number) => number,
        None => index.number(token),
    }
}

// A span of a line that begins at a place of the input, as a span of the input.
fn in_input(at: usize, span: Span) -> Span
    requires { (at + span.from ≤ 65536) × (at + span.to ≤ 65536) }
    ensures { result ≡ record { from = at + span.from; to = at + span.to } }
{
    Span {
        from: at + span.from,
        to: at + span.to,
    }
}

// What is gathered of an input: the index of its tokens, with three entries for each of 1,025 facts, and the keys of these facts. Each reference has
// a lifetime of its own: with one for both the borrow checker rejects `collect`.
#[derive(Drop)]
struct Gathered<'i, 't, 'k, 'r> {
    index: &'i mut Index<'t>,
    keys: &'k mut Keys<'r>,
    ghost room: { length index.now.items.now ≡ 3075 },
    ghost places: { length keys.now.row.now ≡ 1025 },
}

impl Gathered<'_, '_, '_, '_> {
    ghost use Rattle.import_collect.specs.Gathered.{SameRows, Open, Grows};

    // One statement more, whose tokens stand at their spans behind a place: its tokens in the index, and its fact's key among the keys. Not inlined, as
    // in `import_judge::statement_fault`.
    #[inline(never)]
    fn add_statement(&mut self, at: usize, t: Triple)
        requires { Open self.old × TripleStands self.old.index.now.input.now at t }
        ensures same_rows { SameRows self.old self.new }
        ensures grows { Grows self.old (statement_at self.old.index.now.input.now at t ∷ []) self.new }
    {
        let subject = term(self.index, in_input(at, t.subject));
        let predicate = term(self.index, in_input(at, t.predicate));
        let object = term(self.index, in_input(at, t.object));
        self.keys.add(Fact {
            subject,
            predicate,
            object,
        });
    }

    // The statement of a line, if it makes one. Two empty arms: tried with one `if let`, what the line says was lost behind it.
    fn add_line(&mut self, at: usize, end: usize)
        requires { Open self.old × (at ≤ end) × (end ≤ length self.old.index.now.input.now) }
        ensures same_rows { SameRows self.old self.new }
        ensures grows { Grows self.old (said (part self.old.index.now.input.now at end)) self.new }
    {
        let input = self.index.input;
        match parse(&input[at..end]) {
            Ok(Some(t)) => self.add_statement(at, t),
            Ok(None) => {}
            Err(_) => {}
        }
    }

    // The statements of the lines, up to the 1,025th fact. No `for` over `lines`: the index needs the place of a line, which a line alone lacks.
    fn add_lines(&mut self)
        requires { (self.old.index.now.counts ≡ begun) × (self.old.keys.now.len ≡ 0) }
        ensures same_rows { SameRows self.old self.new }
        ensures collected { Collected (statements (lines_of self.old.index.now.input.now)) self.new.keys.now.row.now self.new.keys.now.len }
    {
        let mut at = 0;
        while at < self.index.input.len() {
            let end = line_end(self.index.input, at);
            self.add_line(at, end);
            if self.keys.len == CROWD {
                return;
            }
            at = end + 1;
        }
    }
}

// Puts the keys of an input's facts into the front of a row, up to the 1,025th. Their number.
pub fn collect(input: &[u8], keys: &mut [u64]) -> usize
    requires { (length input.now ≤ 65536) × (length keys.old ≡ 1025) }
    ensures { Collected (statements (lines_of input.now)) keys.new result }
{
    let mut items = [0; ENTRIES];
    let mut index = Index::new(input, &mut items);
    let mut keys = Keys::new(keys);
    let mut gathered = Gathered {
        index: &mut index,
        keys: &mut keys,
    };
    gathered.add_lines();
    keys.len
}
