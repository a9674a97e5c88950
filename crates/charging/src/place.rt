// Putting a row of numbers into memory that the host lends.
ghost use Rattle.std.specs.Prelude.{◌≡◌, ◌+◌, ◌≤◌, length};
ghost use Rattle.charging.specs.Rows.{overlaid};

// The row stands from the place on; all other numbers stay.
pub(crate) fn put(out: &mut [u64], at: usize, row: &[u64])
    requires { at + length row.now ≤ length out.old }
    ensures { out.new ≡ overlaid at row.now out.old }
{
    out[at..at + row.len()].copy_from_slice(row);
}
