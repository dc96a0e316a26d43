// One more number put among numbers in order.
#![tactic(auto)]

ghost use Rattle.std.specs.Prelude.{◌≡◌, ◌≤◌, ◌<◌, length};
ghost use Rattle.ordered.specs.Inserted.{inserted};

// Puts v among the first n numbers, at k: as Vec has it, in memory of fixed size.
pub fn insert(items: &mut [u64], n: usize, k: usize, v: u64)
    requires { (k ≤ n) × (n < length items.old) }
    ensures { items.new ≡ inserted items.old n k v }
{
    items.copy_within(k..n, k + 1);
    items[k] = v;
}
