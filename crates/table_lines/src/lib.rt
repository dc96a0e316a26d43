// One fact of a table: read from its line, judged with the fact before it, and put into or taken from a row of numbers.
#![tactic(auto)]

ghost use Rattle.std.specs.Prelude.{◌≡◌, true, ◌+◌, ◌*◌, ◌≤◌, ◌<◌, length, IfOk};
ghost use Rattle.std.proofs.lemmas.List.Edits.{sets};
ghost use Rattle.table.specs.Tables.{terms, row_fact};
ghost use Rattle.table.specs.Judged.{counted, judged, line_read, NextLine, LineJudged, formed_line, ByOrder};

use facts::{Fact, Refusal, Verdict};
use line_layout::numbers_at;
use table::{FIELDS, LINE_BYTES};

// How many lines or facts make up a size, each of so many bytes or numbers: refusal 1 where a part is left, or they are too many.
#[tactic(auto, unfolding(table::specs::Judged::counted, table::specs::Tables::sized))]
pub fn count(size: usize, each: usize, most: usize) -> Result<usize, Refusal>
    requires { 0 < each }
    ensures answer { result ≡ counted each most size }
    ensures within { IfOk result (λ n. (n * each ≡ size) × (size ≤ most)) }
{
    if (size % each == 0) & (size <= most) {
        Ok(size / each)
    } else {
        Err(Refusal::Size)
    }
}

// The first of 3, 4, 5, 12 and 6 that f earns, with last the fact before it, if there is one.
pub fn judge(last: Option<Fact>, f: Fact) -> Verdict
    ensures { result ≡ judged last f }
{
    faults::verdict(last.is_none_or(|a| a < f), f)
}

// The fact on a line, if three fields and byte 10 stand there.
fn line_fact(bytes: &[u8], i: usize) -> Option<Fact>
    requires { 16 * i + 16 ≤ length bytes.now }
    ensures { result ≡ line_read bytes.now i }
{
    let [subject, predicate, object] = numbers_at::<3>(bytes, LINE_BYTES * i)?;
    Some(Fact {
        subject,
        predicate,
        object,
    })
}

// Reads and judges a line, with last the fact on the line before, if there is one: its fact, or the first refusal that it earns. Where its
// fields say a well-formed fact, that is by its order alone.
pub fn judge_line(bytes: &[u8], i: usize, last: Option<Fact>) -> Result<Fact, Refusal>
    requires { NextLine bytes.now i last }
    ensures judged { LineJudged bytes.now i result }
    ensures formed { formed_line bytes.now i ≡ true → ByOrder bytes.now i result }
{
    let f = line_fact(bytes, i).ok_or(Refusal::Column)?;
    let last = if i == 0 { None } else { last };
    judge(last, f)?;
    Ok(f)
}

// Puts a fact's three numbers at a place of a row.
pub fn put_fact(f: Fact, row: &mut [u32], i: usize)
    requires { 3 * i + 3 ≤ length row.old }
    ensures { row.new ≡ sets row.old (3 * i) (terms f) }
{
    let at = FIELDS * i;
    row[at] = f.subject;
    row[at + 1] = f.predicate;
    row[at + 2] = f.object;
}

// The fact at a place of a row.
#[tactic(auto, unfolding(table::specs::Tables::row_fact))]
pub fn row_fact(row: &[u32], i: usize) -> Fact
    requires { 3 * i + 3 ≤ length row.now }
    ensures { result ≡ row_fact row.now i }
{
    let at = FIELDS * i;
    Fact {
        subject: row[at],
        predicate: row[at + 1],
        object: row[at + 2],
    }
}
