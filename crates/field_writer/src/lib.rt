// Fields and lines of fields, written (document 01, "Table layout").
#![tactic(auto)]

ghost use Rattle.std.specs.Prelude.{◌≡◌, ◌+◌, ◌*◌, ◌/◌, ◌≤◌, ◌<◌, length};
ghost use Rattle.std.proofs.lemmas.List.Edits.{sets};
ghost use Rattle.columns.specs.Fields.{column, field};
ghost use Rattle.columns.specs.Lines.{Below, line, width, over};

use columns::{LINE_END, SPACE, ZERO};

// A tenth of a number below 262,144: 52,429 is a tenth of 524,288, rounded up. Of divisions by 10 in a row the compiler makes divisions
// by 100, 1,000 and so on, and compares with these; of this it makes a product and a shift.
fn tenth(n: u64) -> u64
    requires { n < 262144 }
    ensures { result ≡ n / 10 }
{
    n * 52429 / 524288
}

// The byte in a column, where n is what the number has from that column leftwards, and left from the next.
#[tactic(auto, unfolding(columns::specs::Fields::column))]
fn column_byte(n: u64, left: u64) -> u8
    requires { left ≡ n / 10 }
    ensures { result ≡ column n }
{
    if n == 0 {
        SPACE
    } else {
        ZERO + (n - 10 * left) as u8
    }
}

// Writes a number into the five bytes from a place on. No `Display`: the library's divides by powers of ten, and has tables in the mask's memory.
fn put_field(out: &mut [u8], at: usize, n: u32)
    requires { (at + 5 ≤ length out.old) × (n < 100000) }
    ensures { out.new ≡ sets out.old at (field n) }
{
    if n < 10 {
        out[at] = SPACE;
        out[at + 1] = SPACE;
        out[at + 2] = SPACE;
        out[at + 3] = SPACE;
        out[at + 4] = ZERO + n as u8;
        return;
    }
    let number = n as u64;
    let tens = tenth(number);
    let hundreds = tenth(tens);
    let thousands = tenth(hundreds);
    let first = tenth(thousands);
    out[at] = column_byte(first, 0);
    out[at + 1] = column_byte(thousands, first);
    out[at + 2] = column_byte(hundreds, thousands);
    out[at + 3] = column_byte(tens, hundreds);
    out[at + 4] = ZERO + (number - 10 * tens) as u8;
}

// Writes a line with the numbers into the front of the output. That each has five digits at most is asked, and no type: of such a type each number
// would be made for the call alone.
#[tactic(auto, unfolding(columns::specs::Lines::fields))]
pub fn put_line(numbers: &[u32], out: &mut [u8])
    requires { (width (length numbers.now) ≤ length out.old) × Below numbers.now }
    ensures { out.new ≡ over (line numbers.now) out.old }
{
    for (i, n) in numbers.iter().enumerate() {
        put_field(out, 5 * i, *n);
    }
    out[5 * numbers.len()] = LINE_END;
}
