// Runs cases of reading and writing tables over the proved library. Standard input is a list of cases, each a line of four fields
// (kind, bytes that follow, size of the lent memory, numbers of the row) and then its bytes. Kind 1 reads the bytes as a table; kind 2
// writes a row, whose first numbers stand one to a line of two fields; the rest of the row is 0. For each case a line is printed:
// number, place, count, and 1 where every lent number and byte is as it must be; behind a row that was written, its table.
// tools/cases/table_cases.py writes the cases.
#![tactic(auto)]

ghost use Rattle.std.specs.Prelude.{◌≡◌, ◌≤◌, [], ◌∷◌, get_or, length, None, Some};
ghost use Rattle.case_runner.specs.Cases.{Ran};

use case_runner::{Cases, are_all};
use facts::Code;
use std::io;
use std::io::Stdout;

// The most bytes of all cases.
const INPUT_BYTES: usize = 81920;

// A line with a number of the row: the part above five digits, the last five digits, byte 10.
const NUMBER_BYTES: usize = 11;

const FIVE_DIGITS: u64 = 100000;

// Numbers and bytes of a fact, and the most facts.
const FACT_NUMBERS: usize = 3;

const FACT_BYTES: usize = 16;

const FACTS: usize = 1024;

// What lent memory holds before a call, and how much of it there is: some more than a table needs.
const NUMBER_BEFORE: u32 = 77777;

const BYTE_BEFORE: u8 = 170;

const NUMBERS: usize = 4096;

const BYTES: usize = 17000;

// Prints a case's answer, and whether memory is as it must be.
fn show(to: &mut Stdout, code: Code, kept: bool) {
    let _ = case_runner::print_line(to, [code.number, code.place, code.count, u32::from(kept)]);
}

// Reads a table, and writes the row that was filled again.
fn read_case(to: &mut Stdout, table: &[u8], room: usize)
    requires { room ≤ 4096 }
{
    let mut row = [NUMBER_BEFORE; NUMBERS];
    let answer = reader::read(table, &mut row[..room]);
    let code = codes::code_of(answer);
    let facts = code.count as usize;
    if FACTS < facts {
        return;
    }
    let (read, unread) = row.split_at(FACT_NUMBERS * facts);
    let mut out = [BYTE_BEFORE; BYTES];
    let again = writer::write(read, &mut out);
    let (written, unwritten) = out.split_at(FACT_BYTES * facts);
    let same = answer.is_err() || written == table;
    let kept = are_all(unread, &NUMBER_BEFORE)
        && unwritten == &[BYTE_BEFORE; BYTES][..unwritten.len()];
    show(to, code, same && kept && again.is_ok());
}

// The number on a line of a row.
fn row_number(line: &[u8]) -> u32
    requires { 11 ≤ length line.now }
{
    let high = u64::from(digit_reader::number_at(line, 0));
    let low = u64::from(digit_reader::number_at(line, 5));
    u32::try_from(high * FIVE_DIGITS + low).unwrap_or(0)
}

// Puts the numbers of the lines into the front of a row.
fn fill_row(lines: &[u8], row: &mut [u32]) {
    for (number, line) in row.iter_mut().zip(lines.chunks_exact(NUMBER_BYTES)) {
        *number = row_number(line);
    }
}

// Writes a row, reads the table that was written again, and prints it.
fn write_case(to: &mut Stdout, lines: &[u8], room: usize, size: usize)
    requires { (room ≤ 17000) × (size ≤ 4096) }
{
    let mut row = [0u32; NUMBERS];
    fill_row(lines, &mut row);
    let mut out = [BYTE_BEFORE; BYTES];
    let code = codes::code_of(writer::write(&row[..size], &mut out[..room]));
    let facts = code.count as usize;
    if FACTS < facts {
        return;
    }
    let (table, unwritten) = out.split_at(FACT_BYTES * facts);
    let mut back = [NUMBER_BEFORE; NUMBERS];
    let again = reader::read(table, &mut back);
    let (read, unread) = back.split_at(FACT_NUMBERS * facts);
    let same = &row[..FACT_NUMBERS * facts] == read;
    let kept = unwritten == &[BYTE_BEFORE; BYTES][..unwritten.len()]
        && are_all(unread, &NUMBER_BEFORE);
    show(to, code, same && kept && again.is_ok());
    let _ = to.write_all(table);
}

// Where the answers are printed.
#[derive(Drop)]
struct Tables {
    to: Stdout,
}

impl Cases<4> for Tables {
    ghost behind = { λ ns. Some (get_or ns 1 0) };

    fn bytes_behind(&self, numbers: [u32; 4]) -> Option<usize>
        ensures { result ≡ Some (get_or numbers 1 0) }
    {
        let [_, follow, _, _] = numbers;
        Some(follow as usize)
    }

    fn run(&mut self, numbers: [u32; 4], bytes: &[u8])
        ensures { Ran None None ((numbers, bytes.now) ∷ []) }
    {
        let [kind, _, room, size] = numbers;
        let room = room as usize;
        let size = size as usize;
        if kind != 1 {
            if room <= BYTES && size <= NUMBERS {
                write_case(&mut self.to, bytes, room, size);
            }
        } else if room <= NUMBERS {
            read_case(&mut self.to, bytes, room);
        }
    }
}

// Reads the cases and runs them.
fn main(rt: HostRuntime) -> io::Result<()> {
    let mut tables = Tables { to: rt.stdout() };
    case_runner::read_and_run(&mut rt.stdin(), &mut [0u8; INPUT_BYTES], &mut tables)
}
