// The parts of the program's input (document 01, "Panel and program"): a table, a zero line, questions.
#![tactic(auto)]

ghost use Rattle.std.specs.Prelude.{◌≡◌, ◌+◌, ◌*◌, ◌/◌, ◌≤◌, ◌<◌, length, MatchOption};
ghost use Rattle.batch.specs.Input.{is_zero_line, bytes_behind, all_laid, parts_behind, divided_from, layout_of, question_at};

use batch::{Parts, Query};
use table::{FIELDS, LINE_BYTES};

// The most bytes of an input.
pub const INPUT_BYTES: usize = 32768;

// The fields and bytes of a question.
const QUESTION_FIELDS: usize = 4;

pub const QUESTION_BYTES: usize = 21;

// The zero line.
const ZERO_LINE: [u8; LINE_BYTES] = *b"    0    0    0\n";

// The zero line stands at a place.
fn is_zero_line(input: &[u8], at: usize) -> bool
    requires { at + 16 ≤ length input.now }
    ensures { result ≡ is_zero_line input.now at }
{
    &input[at..at + LINE_BYTES] == ZERO_LINE.as_slice()
}

// The bytes behind a table of so many bytes and its zero line.
pub fn bytes_behind(input: &[u8], size: usize) -> usize
    ensures { result ≡ bytes_behind input.now size }
{
    input.len().saturating_sub(size).saturating_sub(LINE_BYTES)
}

// The n questions from a place on are laid out.
fn are_laid_out(input: &[u8], from: usize, n: usize) -> bool
    requires { from + 21 * n ≤ length input.now }
    ensures { result ≡ all_laid input.now from n }
{
    (0..n).all(|i| line_layout::is_laid_out(QUESTION_FIELDS, input, from + QUESTION_BYTES * i))
}

// The parts of an input whose table has so many bytes.
#[tactic(auto, unfolding(batch::specs::Input::parts_behind))]
fn parts_behind(input: &[u8], size: usize) -> Option<Parts>
    requires { size + 16 ≤ length input.now }
    ensures { result ≡ parts_behind input.now size }
{
    let rest = bytes_behind(input, size);
    let questions = rest / QUESTION_BYTES;
    if rest % QUESTION_BYTES != 0 || !are_laid_out(input, size + LINE_BYTES, questions) {
        return None;
    }
    Some(Parts {
        table: size,
        questions,
    })
}

// The lines of an input's table: those before the first zero line that stands at a multiple of 16 bytes.
fn table_lines(input: &[u8]) -> Option<usize>
    ensures { MatchOption result (divided_from input.now 0 (length input.now / 16) ≡ None) (λ n. (n < length input.now / 16) × (divided_from input.now 0 (length input.now / 16) ≡ parts_behind input.now (16 * n))) }
{
    (0..input.len() / LINE_BYTES).find(|i| is_zero_line(input, LINE_BYTES * *i))
}

// The parts of an input.
#[tactic(auto, unfolding(batch::specs::Input::layout_of))]
pub fn layout(input: &[u8]) -> Option<Parts>
    ensures { result ≡ layout_of input.now }
{
    if INPUT_BYTES < input.len() {
        return None;
    }
    parts_behind(input, LINE_BYTES * table_lines(input)?)
}

// The question at a place, by what its fields say.
#[tactic(auto, unfolding(batch::specs::Input::question_at))]
pub fn question_at(input: &[u8], at: usize) -> Query
    requires { at + 21 ≤ length input.now }
    ensures { result ≡ question_at input.now at }
{
    Query {
        fact: fact_fields::fact_at(input, at),
        limit: digit_reader::number_at(input, at + 15),
    }
}
