// Reads a stream into memory of a fixed size. A contract can't say what a file or a terminal gives; where a stream's bytes are known,
// it says which of them stand in the memory.
#![tactic(auto)]

ghost use Rattle.std.specs.Prelude.{◌<◌, ◌≤◌, take, length, IfOk};
ghost use Rattle.std.specs.Io.KnownBytes.{Consumes, IsAtEnd};

use std::io::{Read, Result};

// Reads until the memory is full or the stream ends, and gives how many bytes it put into the memory's front. A read that fails ends it
// with that error.
pub fn read_full<R: Read>(stream: &mut R, memory: &mut [u8]) -> Result<usize>
    ensures within { IfOk result (λ n. n ≤ length memory.new) }
    ensures bytes { IfOk result (λ n. Consumes (R.remaining stream.old) (R.remaining stream.new) (take n memory.new)) }
    ensures end { IfOk result (λ n. n < length memory.new → IsAtEnd (R.remaining stream.new)) }
{
    let mut done = 0;
    // A read gives as many bytes as it likes, so no `for` and no iterator says how many turns there are.
    while done < memory.len() {
        let n = stream.read(&mut memory[done..])?;
        if n == 0 {
            return Ok(done);
        }
        done += n;
    }
    Ok(done)
}
