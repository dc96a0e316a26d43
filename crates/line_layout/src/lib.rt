// Lines of fields, read, and tried for their layout (document 01, "Table layout").
#![tactic(auto)]

ghost use Rattle.std.specs.Prelude.{◌≡◌, ◌+◌, ◌*◌, ◌≤◌, length};
ghost use Rattle.columns.specs.Fields.{field_read};
ghost use Rattle.columns.specs.Lines.{width, laid_out, numbers_read, items_from};

use columns::LINE_END;
use field_reader::field_at;

// From a place on stand k fields and byte 10.
pub fn is_laid_out(k: usize, s: &[u8], at: usize) -> bool
    requires { at + width k ≤ length s.now }
    ensures { result ≡ laid_out k s.now at }
{
    (0..k).all(|i| field_at(s, at + 5 * i).is_some()) && s[at + 5 * k] == LINE_END
}

// The numbers of the N fields from a place on, where they stand there and byte 10 behind them.
pub fn numbers_at<const N: usize>(s: &[u8], at: usize) -> Option<[u32; N]>
    requires { at + width N ≤ length s.now }
    ensures { result ≡ numbers_read N s.now at }
{
    let mut numbers = [0; N];
    for (k, number) in numbers.iter_mut().enumerate() {
        *number = field_at(s, at + 5 * k)?;
    }
    (s[at + 5 * N] == LINE_END).then_some(numbers)
}

// What each of the N fields from a place on says by itself: its number, where one stands.
pub fn fields_at<const N: usize>(s: &[u8], at: usize) -> [Option<u32>; N]
    requires { at + width N ≤ length s.now }
    ensures { result ≡ items_from (λ k. field_read s.now (at + 5 * k)) 0 N }
{
    let mut fields = [None; N];
    for (k, field) in fields.iter_mut().enumerate() {
        *field = field_at(s, at + 5 * k);
    }
    fields
}
