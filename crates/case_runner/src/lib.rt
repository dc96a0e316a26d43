// What the programs that run cases share: an input's cases, each a line of fields and the bytes behind it, are run one after the other,
// and each prints a line of numbers.
#![tactic(auto)]

ghost use Rattle.std.specs.Prelude.{◌≡◌, ℕ, ◌+◌, ◌%◌, ◌<◌, ◌≤◌, ◌&&◌, List, [], ◌∷◌, length, take, leb, map, cond, None, IfOk, OnOk};
ghost use Rattle.std.specs.List.{list_all};
ghost use Rattle.std.specs.declared.option.Option.{Option};
ghost use Rattle.std.specs.Io.KnownBytes.{Appends, Consumes, IsAtEnd};
ghost use Rattle.columns.specs.Lines.{width, line, laid_out, numbers_at};
ghost use Rattle.case_runner.specs.Cases.{Case, Ran, RanAll};

use std::io;
use std::io::{Read, Write};

// The most fields of a line, and its bytes.
const FIELDS_MOST: usize = 6;

const LINE_MOST: usize = 5 * FIELDS_MOST + 1;

// A number of more than five digits.
const SIX_DIGITS: u32 = 100000;

// The numbers of the line of so many fields at the front of some bytes, if one stands there. Six at most, by a clause: a const parameter has no
// other bound.
pub fn head<const FIELDS: usize>(bytes: &[u8]) -> Option<[u32; FIELDS]>
    requires { FIELDS ≤ 6 }
    ensures { result ≡ cond (leb (width FIELDS) (length bytes.now) && laid_out FIELDS bytes.now 0) (Some (numbers_at FIELDS bytes.now 0)) None }
{
    if bytes.len() < 5 * FIELDS + 1 {
        return None;
    }
    line_layout::numbers_at::<FIELDS>(bytes, 0)
}

// Every item is the value.
pub fn are_all<T: PartialEq>(items: &[T], value: &T) -> bool
    ensures { result ≡ list_all (λ x. T.eq x value.now) items.now }
{
    items.iter().all(|x| x == value)
}

// Prints a line of the last five digits of each number.
pub fn print_line<W: Write, const FIELDS: usize>(
    to: &mut W,
    numbers: [u32; FIELDS],
) -> io::Result<()>
    requires { FIELDS ≤ 6 }
    ensures { IfOk result (λ _. Appends (W.contents to.old) (W.contents to.new) (line (map (λ n. n % 100000) numbers.entry))) }
{
    let mut line = [0u8; LINE_MOST];
    field_writer::put_line(&numbers.map(|n| n % SIX_DIGITS), &mut line);
    to.write_all(&line[..5 * FIELDS + 1])
}

// A kind of cases, whose lines have so many fields.
pub trait Cases<const FIELDS: usize> {
    // How many bytes stand behind a case's line, by its numbers; none where they are no case's.
    ghost behind: { List ℕ → Option ℕ };

    // The cases run so far, where they are known.
    ghost ran: { Self → Option (List Case) } = { λ _. None };

    fn bytes_behind(&self, numbers: [u32; FIELDS]) -> Option<usize>
        ensures { result ≡ behind numbers.entry };

    // Runs a case.
    fn run(&mut self, numbers: [u32; FIELDS], bytes: &[u8])
        ensures { Ran (ran self.old) (ran self.new) ((numbers.entry, bytes.now) ∷ []) };
}

// Runs the cases of an input one after the other, up to the first that is none. No `for`: a case's own numbers say where the next begins, and
// the cases that say it are lent to each run.
pub fn run_all<const FIELDS: usize, C: Cases<FIELDS>>(input: &[u8], cases: &mut C)
    requires { FIELDS ≤ 6 }
    ensures { RanAll FIELDS C.behind (C.ran cases.old) (C.ran cases.new) input.now }
{
    let mut rest = input;
    while let Some(numbers) = head::<FIELDS>(rest) {
        let behind = &rest[5 * FIELDS + 1..];
        let Some(size) = cases.bytes_behind(numbers) else {
            return;
        };
        let Some((bytes, next)) = behind.split_at_checked(size) else {
            return;
        };
        cases.run(numbers, bytes);
        rest = next;
    }
}

// Reads all cases into memory, and runs them.
pub fn read_and_run<const FIELDS: usize, R: Read, C: Cases<FIELDS>>(
    from: &mut R,
    memory: &mut [u8],
    cases: &mut C,
) -> io::Result<()>
    requires { FIELDS ≤ 6 }
    ensures { OnOk result ((n : ℕ) × (n ≤ length memory.new)
        × Consumes (R.remaining from.old) (R.remaining from.new) (take n memory.new)
        × (n < length memory.new → IsAtEnd (R.remaining from.new))
        × RanAll FIELDS C.behind (C.ran cases.old) (C.ran cases.new) (take n memory.new)) }
{
    let read = stream_reader::read_full(from, memory)?;
    run_all::<FIELDS, C>(&memory[..read], cases);
    Ok(())
}
