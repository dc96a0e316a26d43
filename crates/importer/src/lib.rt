// The import of N-Triples as a table (document 02, Point 3).
#![tactic(auto)]

ghost use Rattle.std.specs.Prelude.{◌≤◌, length};
ghost use mathlib.Core.List.{map};
ghost use Rattle.table.specs.Tables.{row_of, table_bytes, table_of_row, Transfers};
ghost use Rattle.gathering.specs.Keys.{fact_of_key};
ghost use Rattle.imports.specs.Import.{import_of};

use fact_keys::spread;
use facts::{Answer, Refusal, Refused};
use import_collect::collect;
use import_judge::judge;
use imports::CROWD;
use table::{FIELDS, PLACES, ROW_NUMBERS};

// The most bytes of an input.
const INPUT_MOST: usize = 65536;

// Writes the table of the facts whose keys these are.
fn write_keys(keys: &[u64], table: &mut [u8]) -> Answer
    requires { length keys.now ≤ 1024 }
    ensures { Transfers table_bytes (table_of_row (row_of (map fact_of_key keys.now))) table.old table.new result }
{
    let mut row = [0; ROW_NUMBERS];
    spread(keys, &mut row);
    writer::write(&row[..FIELDS * keys.len()], table)
}

// Imports N-Triples as a table into lent memory.
pub fn import(input: &[u8], table: &mut [u8]) -> Answer
    ensures call { Transfers table_bytes (import_of input.now) table.old table.new result }
{
    if INPUT_MOST < input.len() {
        return Err(Refused::from(Refusal::Statement));
    }
    judge(input)?;
    let mut keys = [0; CROWD];
    let count = collect(input, &mut keys);
    if PLACES < count {
        return Err(Refused::from(Refusal::Crowd));
    }
    write_keys(&keys[..count], table)
}
