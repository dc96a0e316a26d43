// The program's reply to a question (document 01, "Panel and program"), as bytes.
#![tactic(auto)]

ghost use Rattle.std.specs.Prelude.{◌≡◌, ◌+◌, ◌*◌, ◌≤◌, length, Err, IfSome};
ghost use Rattle.columns.specs.Lines.{Below, over};
ghost use Rattle.facts.specs.Results.{refused_at};
ghost use Rattle.batch.specs.Output.{code_numbers, code_line, reply_size, longest, reply_to, reply_in, reply_length};

use batch::Query;
use facts::{Answer, Outcome, Refusal};
use input::{QUESTION_BYTES, bytes_behind, question_at};
use table::LINE_BYTES;

// The bytes of the longest reply: a line of three fields, and a derivation of 2,047 lines of 31 bytes.
pub const REPLY_BYTES: usize = 63473;

// Writes the line of an answer's number, place and count into the front of the output.
#[tactic(auto, unfolding(batch::specs::Output::code_line))]
fn put_code(a: Answer, out: &mut [u8])
    requires { (16 ≤ length out.old) × Below (code_numbers a) }
    ensures { out.new ≡ over (code_line a) out.old }
{
    let c = codes::code_of(a);
    field_writer::put_line(&[c.number, c.place, c.count], out);
}

// The bytes of the reply with an answer.
fn reply_bytes(a: Answer) -> usize
    ensures { result ≡ reply_size a }
{
    let Ok(Outcome::Yes(f, _)) = a else {
        return LINE_BYTES;
    };
    LINE_BYTES + search_limits::needed_for(f)
}

// Writes the reply to a question about the table into the front of the output, and gives its length. The output behind the first
// line is the question's paper.
fn put_reply(table: &[u8], q: Query, out: &mut [u8]) -> usize
    requires { longest ≤ length out.old }
    ensures length { result ≡ length (reply_to table.now q) }
    ensures bytes { out.new ≡ over (reply_to table.now q) out.old }
{
    let a = search::question(table, q.fact, q.limit, &mut out[LINE_BYTES..REPLY_BYTES]);
    put_code(a, out);
    reply_bytes(a)
}

// Writes the reply to question k, counted from 0, of an input whose table has so many bytes, into the front of the output,
// and gives its length: none, and nothing written, where the input has no such question or the longest reply has no room.
pub fn reply(input: &[u8], size: usize, k: usize, out: &mut [u8]) -> Option<usize>
    ensures length { result ≡ reply_length input.now size k (length out.old) }
    ensures within { IfSome result (λ n. n ≤ length out.old) }
    ensures bytes { out.new ≡ over (reply_in input.now size k (length out.old)) out.old }
{
    if out.len() < REPLY_BYTES || bytes_behind(input, size) / QUESTION_BYTES <= k {
        return None;
    }
    let query = question_at(input, size + LINE_BYTES + QUESTION_BYTES * k);
    Some(put_reply(&input[..size], query, out))
}

// The one line that is printed for a torn input.
#[tactic(auto, unfolding(batch::specs::Output::code_line, columns::specs::Lines::line, columns::specs::Lines::fields, columns::specs::Fields::field, columns::specs::Fields::column))]
pub fn refusal() -> [u8; LINE_BYTES]
    ensures { result ≡ code_line (Err (refused_at Refusal.Form 0)) }
{
    let mut out = [0u8; LINE_BYTES];
    put_code(Err(facts::Refused::from(Refusal::Form)), &mut out);
    out
}
