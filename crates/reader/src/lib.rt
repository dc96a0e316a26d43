// Reading a table into facts, and into a row of numbers (document 01, "Table layout").
#![tactic(auto)]

ghost use Rattle.std.specs.Prelude.{◌≡◌, ◌+◌, ◌-◌, ◌*◌, ◌≤◌, ◌<◌, length};
ghost use Rattle.columns.specs.Lines.{over};
ghost use Rattle.table.specs.Tables.{row_of, over_facts, table_of, Transfers, scan_of, passed, loaded};

use facts::{Answer, Fact, NO_FACT, Outcome, Refusal, Refused};
use table::{FIELDS, LINE_BYTES, PLACES, Scan};
use table_lines::{count, judge_line, put_fact};

// The bytes of a full table.
const TABLE_BYTES: usize = 16384;

// Scans the table's lines and puts their facts into memory, up to the first line that is refused. How many facts the memory holds then is the
// answer: a slice of it would keep the memory lent.
pub fn load(bytes: &[u8], facts: &mut [Fact]) -> Scan
    requires { 1024 ≤ length facts.old }
    ensures answer { result ≡ scan_of (table_of bytes.now) }
    ensures facts { facts.new ≡ over_facts (loaded bytes.now) facts.old }
{
    let n = count(bytes.len(), LINE_BYTES, TABLE_BYTES)?;
    let mut last = None;
    for i in 0..n {
        let f = judge_line(bytes, i, last).map_err(|r| Refused::on_line(r, i))?;
        facts[i] = f;
        last = Some(f);
    }
    Ok(n as u32)
}

// The lines that a scan has passed.
#[tactic(auto, unfolding(table::specs::Tables::passed))]
fn passed(scan: Scan) -> usize
    ensures { result ≡ passed scan }
{
    match scan {
        Ok(n) => n as usize,
        Err(stop) => stop.place.saturating_sub(1) as usize,
    }
}

// Puts facts into the front of lent memory, three numbers a fact.
fn spread(facts: &[Fact], row: &mut [u32])
    requires { 3 * length facts.now ≤ length row.old }
    ensures { row.new ≡ over (row_of facts.now) row.old }
{
    for (i, f) in facts.iter().enumerate() {
        put_fact(*f, row, i);
    }
}

// Scans the table's lines and puts the numbers of their facts into a row, three a fact, up to the first line that is refused.
pub fn load_row(bytes: &[u8], row: &mut [u32]) -> Scan
    requires { 3072 ≤ length row.old }
    ensures answer { result ≡ scan_of (table_of bytes.now) }
    ensures facts { row.new ≡ over (row_of (loaded bytes.now)) row.old }
{
    let mut facts = [NO_FACT; PLACES];
    let scan = load(bytes, &mut facts);
    let count = passed(scan);
    let front = &facts[..count];
    spread(front, row);
    scan
}

// Reads a table into a lent row of three numbers a fact. `records::read_facts` and `writer::write` end as this does; behind the test of the room
// each fills other memory, so that one function for all would take a closure that writes, and its contract would say all of this again.
pub fn read(bytes: &[u8], row: &mut [u32]) -> Answer
    ensures call { Transfers row_of (table_of bytes.now) row.old row.new result }
{
    let mut facts = [NO_FACT; PLACES];
    let n = load(bytes, &mut facts)?;
    let count = n as usize;
    if row.len() < FIELDS * count {
        return Err(Refused::from(Refusal::Short));
    }
    let read = &facts[..count];
    spread(read, row);
    Ok(Outcome::Done(n))
}
