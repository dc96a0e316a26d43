// Runs cases of the import over the proved library. Standard input is a list of cases, each a line of four fields (a byte's number, how
// many such bytes the text begins with, how many more bytes of it follow, size of the lent memory) and then those bytes. For each case a
// line is printed: number, place, count, and 1 where every lent byte is as it must be and reading accepts the table; behind it the table.
// tools/cases/import_cases.py writes the cases.
#![tactic(auto)]

ghost use Rattle.std.specs.Prelude.{◌≡◌, ◌+◌, ◌≤◌, [], ◌∷◌, get_or, length, None, Some};
ghost use Rattle.case_runner.specs.Cases.{Ran};

use case_runner::Cases;
use facts::Outcome;
use std::io;
use std::io::Stdout;
use table::ROW_NUMBERS;

// The most bytes of all cases, and of a text: one more than an import takes.
const INPUT_BYTES: usize = 163840;

const TEXT_BYTES: usize = 65537;

// Bytes of a fact.
const FACT_BYTES: usize = 16;

// What lent memory holds before a call, and how much of it there is: some more than a table needs.
const BYTE_BEFORE: u8 = 170;

const BYTES: usize = 17000;

// Reading accepts the table, with so many facts.
fn is_accepted(table: &[u8], count: u32) -> bool {
    reader::read(table, &mut [0u32; ROW_NUMBERS]) == Ok(Outcome::Done(count))
}

// Imports a text, reads the table that was written, and prints it.
fn import_case(to: &mut Stdout, text: &[u8], room: usize)
    requires { room ≤ 17000 }
{
    let mut out = [BYTE_BEFORE; BYTES];
    let code = codes::code_of(importer::import(text, &mut out[..room]));
    let Some((table, others)) = out.split_at_checked(FACT_BYTES * code.count as usize) else {
        return;
    };
    let kept = others == &[BYTE_BEFORE; BYTES][..others.len()] && is_accepted(table, code.count);
    let _ = case_runner::print_line(to, [code.number, code.place, code.count, u32::from(kept)]);
    let _ = to.write_all(table);
}

// Puts bytes into a text from a place on. A function by itself, since the check doesn't see behind it that the text keeps its length.
fn put_at(bytes: &[u8], text: &mut [u8], at: usize)
    requires { at + length bytes.now ≤ length text.old }
{
    text[at..at + bytes.len()].copy_from_slice(bytes);
}

// Imports the text of so many equal bytes and then some more.
fn text_case(to: &mut Stdout, byte: u8, times: usize, more: &[u8], room: usize)
    requires { (times + length more.now ≤ 65537) × (room ≤ 17000) }
{
    let mut text = [byte; TEXT_BYTES];
    put_at(more, &mut text, times);
    import_case(to, &text[0..times + more.len()], room);
}

// Where the answers are printed.
#[derive(Drop)]
struct Texts {
    to: Stdout,
}

impl Cases<4> for Texts {
    ghost behind = { λ ns. Some (get_or ns 2 0) };

    fn bytes_behind(&self, numbers: [u32; 4]) -> Option<usize>
        ensures { result ≡ Some (get_or numbers 2 0) }
    {
        let [_, _, more, _] = numbers;
        Some(more as usize)
    }

    fn run(&mut self, numbers: [u32; 4], bytes: &[u8])
        ensures { Ran None None ((numbers, bytes.now) ∷ []) }
    {
        let [byte, times, _, room] = numbers;
        if times as usize + bytes.len() <= TEXT_BYTES && room as usize <= BYTES {
            text_case(
                &mut self.to,
                (byte % 256) as u8,
                times as usize,
                bytes,
                room as usize,
            );
        }
    }
}

// Reads the cases and runs them.
fn main(rt: HostRuntime) -> io::Result<()> {
    let mut texts = Texts { to: rt.stdout() };
    case_runner::read_and_run(&mut rt.stdin(), &mut [0u8; INPUT_BYTES], &mut texts)
}
