// Columns: a number and spaces up to the next one, or a new line where it is too wide.
ghost use Rattle.std.specs.Prelude.{◌≤◌};
ghost use Rattle.report_lines.specs.Puts.{Puts};
ghost use Rattle.model_decimals.specs.Text.{float_text};
ghost use Rattle.model_figures.specs.Cells.{blanks, cell};
ghost use Rattle.report_figures.specs.Fill.{Fills};

use decimals::put_float;
use report_lines::put::put;

// n spaces.
fn put_blanks(n: usize, at: usize, to: &mut [u8]) -> usize
    ensures { Puts (blanks n) at to.old to.new result }
{
    let mut next = at;
    for _ in 0..n {
        next = put(b" ", next, to);
    }
    next
}

// What stands between a text that begins at `from`, in the column c, and ends at `next`, and the column behind it, n
// places on.
pub fn put_gap(c: usize, n: usize, from: usize, next: usize, to: &mut [u8]) -> usize
    requires { (c ≤ 80) × (n ≤ 80) }
    ensures { Fills c n from next to.old to.new result }
{
    if next < from {
        return next;
    }
    let used = next - from;
    if used < n {
        return put_blanks(n - used, next, to);
    }
    let below = put(b"\n", next, to);
    put_blanks(c + n, below, to)
}

// A number in the column c, which is n wide.
pub fn put_cell(c: usize, n: usize, x: f64, at: usize, to: &mut [u8]) -> usize
    requires { (c ≤ 80) × (n ≤ 80) }
    ensures { Puts (cell c n (float_text x)) at to.old to.new result }
{
    let next = put_float(x, at, to);
    put_gap(c, n, at, next, to)
}
