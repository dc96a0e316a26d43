// Fields, read (document 01, "Table layout").
#![tactic(auto)]

ghost use Rattle.std.specs.Prelude.{◌≡◌, ◌+◌, ◌≤◌, length};
ghost use Rattle.columns.specs.Columns.{digits};
ghost use Rattle.columns.specs.Fields.{field_read};

use columns::SPACE;
use digit_reader::{first_digit, with_digit};

// The number of several digits, by its first digit and those behind it. No `parse`, which takes a sign and leading zeros.
fn digits(first: u8, more: &[u8]) -> Option<u32>
    requires { length more.now ≤ 4 }
    ensures { result ≡ digits first more.now }
{
    let mut n = first_digit(first)?;
    for b in more {
        n = with_digit(n, *b)?;
    }
    Some(n)
}

// The number of the field from a place on, where one stands. Each return is for one column of the first digit. By the place of the first column
// that is no space (`position`) it is shorter, and was proved; where the table is most of the work a question takes 15 % more instructions then, and a
// check 17 %, since how many digits there are is not known where they are read. Written out at each call: an option that a call hands back costs one
// instruction a digit more.
#[inline(always)]
pub fn field_at(s: &[u8], at: usize) -> Option<u32>
    requires { at + 5 ≤ length s.now }
    ensures { result ≡ field_read s.now at }
{
    if s[at] != SPACE {
        return digits(s[at], &s[at + 1..at + 5]);
    }
    if s[at + 1] != SPACE {
        return digits(s[at + 1], &s[at + 2..at + 5]);
    }
    if s[at + 2] != SPACE {
        return digits(s[at + 2], &s[at + 3..at + 5]);
    }
    if s[at + 3] != SPACE {
        return digits(s[at + 3], &s[at + 4..at + 5]);
    }
    with_digit(0, s[at + 4])
}
