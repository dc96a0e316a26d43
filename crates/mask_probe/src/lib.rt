// The writer of lines by itself, as C calls it, so that what the compiler makes of it can be looked at (document 02, Point 4). No part of the
// product: `make test` looks at its archive, and prints every number of up to five digits with it.
#![tactic(auto)]

ghost use Rattle.std.specs.Prelude.{◌≡◌, ◌≤◌, length};
ghost use Rattle.columns.specs.Lines.{Below, line, width, over};

// Writes a line with the numbers into the front of the output.
#[unsafe(no_mangle)]
pub extern "C" fn factbox_probe_line(numbers: &[u32], out: &mut [u8])
    requires { (width (length numbers.now) ≤ length out.old) × Below numbers.now }
    ensures { out.new ≡ over (line numbers.now) out.old }
{
    field_writer::put_line(numbers, out);
}
