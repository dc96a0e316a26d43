// A table read into a lent row of fact records (document 01, "Table layout": "a second entry fills a lent row of fact
// records").
#![tactic(auto)]

ghost use Rattle.std.specs.Prelude.{◌≡◌, ◌*◌, ◌≤◌, length};
ghost use Rattle.columns.specs.Lines.{items_from};
ghost use Rattle.table.specs.Tables.{row_fact};
ghost use Rattle.records.specs.Records.{TransfersRecords};

use facts::{Answer, Fact, Outcome, Refusal, Refused};
use table::ROW_NUMBERS;
use table_lines::row_fact;

// Fills records with the facts of a row, as many as there are.
fn fill(row: &[u32], facts: &mut [Fact])
    requires { 3 * length facts.old ≤ length row.now }
    ensures { facts.new ≡ items_from (row_fact row.now) 0 (length facts.old) }
{
    for (i, f) in facts.iter_mut().enumerate() {
        *f = row_fact(row, i);
    }
}

// Reads a table into a lent row of fact records, over the row of its numbers: document 01's fact structs over a flat row.
pub fn read_facts(bytes: &[u8], facts: &mut [Fact]) -> Answer
    ensures call { TransfersRecords bytes.now facts.old facts.new result }
{
    let mut row = [0; ROW_NUMBERS];
    let n = reader::load_row(bytes, &mut row)?;
    let count = n as usize;
    if facts.len() < count {
        return Err(Refused::from(Refusal::Short));
    }
    fill(&row, &mut facts[..count]);
    Ok(Outcome::Done(n))
}
