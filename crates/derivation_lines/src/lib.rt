// One derivation line, read and written (document 01, "Derivation lines and their check").
#![tactic(auto)]

ghost use Rattle.std.specs.Prelude.{◌≡◌, ◌+◌, ◌*◌, ◌≤◌, length};
ghost use Rattle.columns.specs.Lines.{Below, over};
ghost use Rattle.derivation.specs.Bytes.{line_numbers, line_bytes, line_at};
ghost use Rattle.derivation.specs.Read.{read_at};

use facts::Fact;
use line_layout::{fields_at, numbers_at};
use rules::Line;

// The bytes of a line.
pub const LINE_BYTES: usize = 31;

// The bytes of a derivation of 2,047 lines, the most that it may have.
pub const DERIVATION_BYTES: usize = 63457;

// Writes a line into the front of the output.
pub fn put_line(l: Line, out: &mut [u8])
    requires { (31 ≤ length out.old) × Below (line_numbers l) }
    ensures { out.new ≡ over (line_bytes l) out.old }
{
    let f = l.fact;
    let numbers = [l.rule, l.first, l.second, f.subject, f.predicate, f.object];
    field_writer::put_line(&numbers, out);
}

// The fact on a line, by what its fields say.
#[tactic(auto, unfolding(derivation::specs::Bytes::line_at))]
pub fn fact_at(bytes: &[u8], i: usize) -> Fact
    requires { 31 * i + 31 ≤ length bytes.now }
    ensures { result ≡ (line_at bytes.now i).fact }
{
    fact_fields::fact_at(bytes, LINE_BYTES * i + 15)
}

// The line at a place, counted from 0, where its bytes are laid out as one: six fields, and byte 10 behind them. Of a torn line, what each field
// says by itself.
pub fn read_line(bytes: &[u8], i: usize) -> Result<Line, [Option<u32>; 6]>
    requires { 31 * i + 31 ≤ length bytes.now }
    ensures { result ≡ read_at bytes.now i }
{
    let at = LINE_BYTES * i;
    let Some(numbers) = numbers_at::<6>(bytes, at) else {
        return Err(fields_at::<6>(bytes, at));
    };
    let [rule, first, second, subject, predicate, object] = numbers;
    let fact = Fact {
        subject,
        predicate,
        object,
    };
    Ok(Line {
        rule,
        first,
        second,
        fact,
    })
}
