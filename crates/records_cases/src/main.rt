// Reads tables into lent fact records and prints the number, place and count of each answer, and 1 if every record is as it must be,
// else 0. A case is a line of two fields (the bytes of its table, and how many records are lent), then those bytes.
#![tactic(auto)]

ghost use Rattle.std.specs.Prelude.{◌≡◌, ◌≤◌, [], ◌∷◌, cond, get_or, leb, None, Some};
ghost use Rattle.case_runner.specs.Cases.{Ran};

use case_runner::Cases;
use facts::Fact;
use std::io;
use std::io::Stdout;

// The most bytes of all cases.
const INPUT_BYTES: usize = 110000;

// The bytes of a table's line, and the records: one more than a table has lines.
const LINE_BYTES: usize = 16;

const RECORDS: usize = 1025;

// What stands in every record before a table is read. No table has such a number.
const BEFORE: Fact = Fact {
    subject: 77777,
    predicate: 77777,
    object: 77777,
};

// The fields of a table's line say the fact.
fn has_fact(line: &[u8], fact: Fact) -> bool {
    LINE_BYTES <= line.len() && fact_fields::fact_at(line, 0) == fact
}

// Reads a table into so many records, and prints the answer, and whether every record is as it must be: the first ones hold the facts
// on the table's lines, and the others what they held before.
fn read_case(to: &mut Stdout, table: &[u8], lent: usize)
    requires { lent ≤ 1025 }
{
    let mut records = [BEFORE; RECORDS];
    let code = codes::code_of(records::read_facts(table, &mut records[..lent]));
    let Some((read, others)) = records.split_at_checked(code.count as usize) else {
        return;
    };
    let due = LINE_BYTES * read.len() <= table.len()
        && read
            .iter()
            .zip(table.chunks(LINE_BYTES))
            .all(|(fact, line)| has_fact(line, *fact))
        && case_runner::are_all(others, &BEFORE);
    let _ = case_runner::print_line(to, [code.number, code.place, code.count, u32::from(due)]);
}

// Where the answers are printed.
#[derive(Drop)]
struct Tables {
    to: Stdout,
}

impl Cases<2> for Tables {
    ghost behind = { λ ns. cond (leb (get_or ns 1 0) 1025) (Some (get_or ns 0 0)) None };

    fn bytes_behind(&self, numbers: [u32; 2]) -> Option<usize>
        ensures { result ≡ cond (leb (get_or numbers 1 0) 1025) (Some (get_or numbers 0 0)) None }
    {
        let [table, lent] = numbers;
        (lent as usize <= RECORDS).then_some(table as usize)
    }

    fn run(&mut self, numbers: [u32; 2], bytes: &[u8])
        ensures { Ran None None ((numbers, bytes.now) ∷ []) }
    {
        let [_, lent] = numbers;
        if lent as usize <= RECORDS {
            read_case(&mut self.to, bytes, lent as usize);
        }
    }
}

// Reads the cases and runs them.
fn main(rt: HostRuntime) -> io::Result<()> {
    let mut tables = Tables { to: rt.stdout() };
    case_runner::read_and_run(&mut rt.stdin(), &mut [0u8; INPUT_BYTES], &mut tables)
}
