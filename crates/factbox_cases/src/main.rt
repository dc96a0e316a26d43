// Runs the program's work on many inputs. Standard input has each of them behind a line with its length, five columns and byte 10;
// standard output has their outputs, one behind the other. tools/cases/factbox_cases.py writes both.
#![tactic(auto)]

ghost use Rattle.std.specs.Prelude.{◌≤◌, IfOk, IfSome};

use std::io;
use std::io::Read;

// The bytes of a line with a length; the most bytes of an input, and one more; the most inputs.
const LINE_BYTES: usize = 6;

const INPUT_SPACE: usize = input::INPUT_BYTES + 1;

const INPUTS: usize = 1000;

// Reads the line in front of an input, and gives the input's length; none where no input is left.
fn next_size<R: Read>(from: &mut R) -> io::Result<Option<usize>>
    ensures { IfOk result (λ o. IfSome o (λ n. n ≤ 32769)) }
{
    let mut line = [0u8; LINE_BYTES];
    if stream_reader::read_full(from, &mut line)? < LINE_BYTES {
        return Ok(None);
    }
    let size = digit_reader::number_at(&line, 0) as usize;
    Ok((size <= INPUT_SPACE).then_some(size))
}

// Runs the inputs one after the other, in memory for one. The last may be cut short.
fn main(rt: HostRuntime) -> io::Result<()> {
    let mut from = rt.stdin();
    let mut memory = [0u8; INPUT_SPACE];
    for _ in 0..INPUTS {
        let Some(size) = next_size(&mut from)? else {
            return Ok(());
        };
        let read = stream_reader::read_full(&mut from, &mut memory[..size])?;
        let _ = printer::print_output(&mut rt.stdout(), &memory[..read]);
    }
    Ok(())
}
