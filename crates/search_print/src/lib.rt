// Part of the search: the derivation of a path's facts, which stand in printed order, written line by line.
#![tactic(auto)]

ghost use Rattle.std.specs.Prelude.{◌≡◌, length};
ghost use Rattle.columns.specs.Lines.{over};
ghost use Rattle.rules.specs.Printed.{printed, conclusion};
ghost use Rattle.derivation.specs.Bytes.{derivation_bytes};
ghost use Rattle.question.specs.Order.{Printing, facts_at};

use derivation_lines::{LINE_BYTES, put_line};
use facts::Fact;
use search_join::{put_joined, table_line};

// Writes the derivation of the facts at the places, which stand in printed order: each line into the part of the output that
// begins where the last ended. Gives the fact on its last line.
pub fn print(facts: &[Fact], path: &[u16], out: &mut [u8]) -> Fact
    requires { Printing facts.now path.now (length out.old) }
    ensures conclusion { result ≡ conclusion (printed (facts_at facts.now path.now)) }
    ensures lines { out.new ≡ over (derivation_bytes (printed (facts_at facts.now path.now))) out.old }
{
    let mut c = facts[path[0] as usize];
    put_line(table_line(c), out);
    for (k, place) in path[1..].iter().enumerate() {
        let lines = 2 * k + 1;
        let f = facts[*place as usize];
        c = put_joined(c, lines as u32, f, &mut out[LINE_BYTES * lines..]);
    }
    c
}
