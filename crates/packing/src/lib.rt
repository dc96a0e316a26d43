// An answer in one number, as the calls for C return it: bits 0 to 7 number, 8 to 31 place, 32 to 47 count, 48 to 63 the term that a
// yes names for a gap.
#![tactic(auto)]

ghost use Rattle.std.specs.Prelude.{◌≡◌};
ghost use Rattle.facts.specs.Answers.{code_of};
ghost use Rattle.packing.specs.Packed.{packed, Small};

use facts::Answer;

// The bits of a place (document 01's: a line's number, or 0), of a count and of the term named begin here.
const PLACE: u64 = 256;

const COUNT: u64 = 4294967296;

const FILLING: u64 = 281474976710656;

// An answer in one number. No `From`: its numbers must fit their bits, and that can be asked of a function alone.
pub fn pack(a: Answer) -> u64
    requires { Small (code_of a) }
    ensures { result ≡ packed (code_of a) }
{
    let c = codes::code_of(a);
    u64::from(c.number)
        + PLACE * u64::from(c.place)
        + COUNT * u64::from(c.count)
        + FILLING * u64::from(c.filling)
}
