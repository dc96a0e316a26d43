// The program `factbox` (document 01, "Panel and program"): reads an input from standard input and prints its output. An input that
// can't be read to its end is torn.
#![tactic(auto)]

use std::io::Read;

// The most bytes of an input, and one more, so that too much is noticed.
const INPUT_SPACE: usize = input::INPUT_BYTES + 1;

// Whether a stream is at its end: a further read gives 0 bytes. A read that fails gives an error.
fn is_at_end<R: Read>(stream: &mut R) -> bool {
    matches!(stream.read(&mut [0u8; 1]), Ok(0))
}

// Reads the input and prints its output.
fn main(rt: HostRuntime) {
    let mut input = [0u8; INPUT_SPACE];
    let mut stdin = rt.stdin();
    let mut stdout = rt.stdout();
    let read = stream_reader::read_full(&mut stdin, &mut input);
    let _ = match read {
        Ok(size) if is_at_end(&mut stdin) => printer::print_output(&mut stdout, &input[..size]),
        _ => printer::print_torn(&mut stdout),
    };
}
