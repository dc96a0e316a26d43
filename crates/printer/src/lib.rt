// What the program prints for an input (document 01, "Panel and program"), to a writer, piece by piece. What the pieces are is said by
// `batch`. The contracts say how many bytes were printed, and, of a writer of which it is known what it holds, that all of them came to
// stand there. What standard output passes on no contract can say: that is seen by running.
#![tactic(auto)]

ghost use Rattle.std.specs.Prelude.{◌≤◌, Err, IfOk};
ghost use Rattle.std.specs.Io.KnownBytes.{Appends};
ghost use Rattle.facts.specs.Results.{refused_at};
ghost use Rattle.batch.specs.Output.{code_line, output_of};
ghost use Rattle.printer.specs.Replies.{replies, Counted, CountedReplies};

use batch::Parts;
use facts::Refusal;
use replies::REPLY_BYTES;
use std::io::Write;

// A write that failed, and the bytes of the pieces that were written before it. Nothing more was tried.
#[derive(Clone, Copy)]
pub struct Cut {
    pub printed: usize,
}

// Prints the reply to each question, up to the first that can't be written, and gives their bytes. Only one reply at a time is in
// memory.
fn print_replies<W: Write>(to: &mut W, input: &[u8], parts: Parts) -> Result<usize, Cut>
    requires { parts.questions ≤ 2048 }
    ensures counted { CountedReplies input.now parts.table parts.questions result }
    ensures written { IfOk result (λ _. Appends (W.contents to.old) (W.contents to.new) (replies input.now parts.table parts.questions)) }
{
    let mut out = [0u8; REPLY_BYTES];
    let mut printed = 0;
    for k in 0..parts.questions {
        let Some(size) = replies::reply(input, parts.table, k, &mut out) else {
            continue;
        };
        to.write_all(&out[..size]).map_err(|_| Cut { printed })?;
        printed += size;
    }
    Ok(printed)
}

// Prints the one line for a torn input, and gives its bytes.
pub fn print_torn<W: Write>(to: &mut W) -> Result<usize, Cut>
    ensures counted { Counted (code_line (Err (refused_at Refusal.Form 0))) result }
    ensures written { IfOk result (λ _. Appends (W.contents to.old) (W.contents to.new) (code_line (Err (refused_at Refusal.Form 0)))) }
{
    let line = replies::refusal();
    to.write_all(&line).map_err(|_| Cut { printed: 0 })?;
    Ok(line.len())
}

// Prints the whole output for an input, and gives its bytes.
pub fn print_output<W: Write>(to: &mut W, input: &[u8]) -> Result<usize, Cut>
    ensures counted { Counted (output_of input.now) result }
    ensures written { IfOk result (λ _. Appends (W.contents to.old) (W.contents to.new) (output_of input.now)) }
{
    match input::layout(input) {
        None => print_torn(to),
        Some(parts) => print_replies(to, input, parts),
    }
}
