// Writing a row of numbers as a table (document 01, "Table layout").
#![tactic(auto)]

ghost use Rattle.std.specs.Prelude.{◌≡◌, ◌+◌, ◌-◌, ◌*◌, ◌≤◌, ◌<◌, length, T};
ghost use Rattle.columns.specs.Lines.{items_from, over};
ghost use Rattle.table.specs.Tables.{table_bytes, row_fact, table_of_row, Transfers, scan_of, all_formed};

use facts::{Answer, Outcome, Refusal, Refused};
use table::{FIELDS, LINE_BYTES, ROW_NUMBERS, Scan};
use table_lines::{count, judge, row_fact};

// Scans the facts of a row, up to the first that is refused. `reader::load` scans lines so; one loop for both would take a closure that writes
// into memory, and its contract would say all that stands here.
fn scan_row(row: &[u32]) -> Scan
    ensures { result ≡ scan_of (table_of_row row.now) }
{
    let n = count(row.len(), FIELDS, ROW_NUMBERS)?;
    let mut last = None;
    for i in 0..n {
        let f = row_fact(row, i);
        judge(last, f).map_err(|r| Refused::on_line(r, i))?;
        last = Some(f);
    }
    Ok(n as u32)
}

// Writes the lines of a row's facts into the front of the output, each into the part that begins where the last ended.
fn put_lines(row: &[u32], n: usize, out: &mut [u8])
    requires { (n ≤ 1024) × (3 * n ≤ length row.now) × (16 * n ≤ length out.old) × T (all_formed (items_from (row_fact row.now) 0 n)) }
    ensures { out.new ≡ over (table_bytes (items_from (row_fact row.now) 0 n)) out.old }
{
    for i in 0..n {
        let from = FIELDS * i;
        field_writer::put_line(&row[from..from + FIELDS], &mut out[LINE_BYTES * i..]);
    }
}

// Writes the table of a row's facts into lent memory.
pub fn write(row: &[u32], out: &mut [u8]) -> Answer
    ensures call { Transfers table_bytes (table_of_row row.now) out.old out.new result }
{
    let n = scan_row(row)?;
    let count = n as usize;
    if out.len() < LINE_BYTES * count {
        return Err(Refused::from(Refusal::Short));
    }
    put_lines(row, count, out);
    Ok(Outcome::Done(n))
}
