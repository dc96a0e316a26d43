// Digits of a field, read one by one, and the number that five columns say (document 01, "Table layout").
#![tactic(auto)]

ghost use Rattle.std.specs.Prelude.{◌≡◌, ◌+◌, ◌*◌, ◌≤◌, ◌<◌, length, IfSome};
ghost use Rattle.columns.specs.Columns.{with_digit, first_digit};
ghost use Rattle.columns.specs.Fields.{joined, number_at};

// The number with one digit more, if the byte is a digit. The bound keeps the sum within 32 bits, and serves the digits behind it.
#[tactic(auto, using(columns::proofs::Columns::digit_cases))]
pub fn with_digit(n: u32, b: u8) -> Option<u32>
    requires { n < 400000000 }
    ensures value { result ≡ with_digit n b }
    ensures bound { IfSome result (λ m. m < n * 10 + 10) }
{
    match b {
        b'0'..=b'9' => Some(n * 10 + u32::from(b) - 48),
        _ => None,
    }
}

// The first digit of a number of several digits, which is not 0.
#[tactic(auto, using(columns::proofs::Columns::first_cases))]
pub fn first_digit(b: u8) -> Option<u32>
    ensures value { result ≡ first_digit b }
    ensures bound { IfSome result (λ m. m < 10) }
{
    match b {
        b'1'..=b'9' => Some(u32::from(b) - 48),
        _ => None,
    }
}

// The number with one column more.
fn join(n: u32, b: u8) -> u32
    requires { n < 100000 }
    ensures { result ≡ joined n b }
{
    n * 10 + u32::from(b % 16)
}

// What the five bytes from a place on say as digits. A place, and no slice of five bytes: callers go on by places of one input.
pub fn number_at(s: &[u8], at: usize) -> u32
    requires { at + 5 ≤ length s.now }
    ensures { result ≡ number_at s.now at }
{
    let mut n = 0;
    for b in &s[at..at + 5] {
        n = join(n, *b);
    }
    n
}
