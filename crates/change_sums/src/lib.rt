// Rows of places summed, the places of a row side by side.
#![tactic(auto)]

ghost use Rattle.std.specs.Prelude.{◌≡◌, ◌+◌, ◌*◌, ◌≤◌, length, get_or};
ghost use Rattle.std.specs.Float.{nan, binary64};
ghost use Rattle.std.specs.Float.Ieee.{add};
ghost use Rattle.lists.specs.Table.{table};
ghost use Rattle.change_sums.specs.Sums.{sum_at, front_at};

// Each place of `to` with that of `row` added to it.
fn add_row(row: &[f64], to: &mut [f64])
    requires { length to.old ≤ length row.now }
    ensures { to.new ≡ table (length to.old) (λ k. add binary64 (get_or to.old k nan) (get_or row.now k nan)) }
{
    for (k, x) in to.iter_mut().enumerate() {
        *x = *x + row[k];
    }
}

// Each place of `row` with that of `to` added to it. Not `add_row`: each contract says which of the two stands left.
fn add_to_row(row: &[f64], to: &mut [f64])
    requires { length to.old ≤ length row.now }
    ensures { to.new ≡ table (length to.old) (λ k. add binary64 (get_or row.now k nan) (get_or to.old k nan)) }
{
    for (k, x) in to.iter_mut().enumerate() {
        *x = row[k] + *x;
    }
}

// The sum of the first m rows, from +0.0 upwards; answers how many places they have.
pub fn sum_rows(a: &[f64], m: usize, to: &mut [f64]) -> usize
    requires { m * length to.old ≤ length a.now }
    ensures places { result ≡ m * length to.old }
    ensures sum { to.new ≡ table (length to.old) (sum_at (length to.old) m a.now) }
{
    blocks::clear(to);
    let s = to.len();
    for j in 0..m {
        let at = j * s;
        add_row(&a[at..at + s], to);
    }
    m * s
}

// The row m plus the sum of those before it; answers how many places they all have.
pub fn front_row(a: &[f64], m: usize, to: &mut [f64]) -> usize
    requires { m * length to.old + length to.old ≤ length a.now }
    ensures places { result ≡ m * length to.old + length to.old }
    ensures sum { to.new ≡ table (length to.old) (front_at (length to.old) m a.now) }
{
    let end = sum_rows(a, m, to);
    let next = end + to.len();
    add_to_row(&a[end..next], to);
    next
}
