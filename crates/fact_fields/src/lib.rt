// A fact in three consecutive fields (document 01, "Table layout").
#![tactic(auto)]

ghost use Rattle.std.specs.Prelude.{◌≡◌, ◌+◌, ◌≤◌, length};
ghost use Rattle.columns.specs.Fields.{number_at};
ghost use Rattle.facts.specs.Facts.{fact};

use digit_reader::number_at;
use facts::Fact;

// The fact in the three fields from a place on, by what they say: subject, predicate, object.
pub fn fact_at(bytes: &[u8], at: usize) -> Fact
    requires { at + 15 ≤ length bytes.now }
    ensures { result ≡ fact (number_at bytes.now at) (number_at bytes.now (at + 5)) (number_at bytes.now (at + 10)) }
{
    Fact {
        subject: number_at(bytes, at),
        predicate: number_at(bytes, at + 5),
        object: number_at(bytes, at + 10),
    }
}
