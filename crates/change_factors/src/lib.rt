// The rows of every part from one on, each times its running factor.
#![tactic(auto)]

ghost use Rattle.std.specs.Prelude.{◌≡◌, ◌+◌, ◌*◌, ◌≤◌, length, get_or};
ghost use Rattle.std.specs.Float.{nan, binary64};
ghost use Rattle.std.specs.Float.Ieee.{mul};
ghost use Rattle.lists.specs.Table.{table};
ghost use Rattle.change_factors.specs.Stripes.{Stripes, Scaling, Striped};
ghost use Rattle.change_factors.specs.Scale.{factorial_f, start_f, scaled_by, stripe_at, scaled_flat};

// n!, by ascending products.
fn factorial(n: usize) -> f64
    requires { n ≤ 64 }
    ensures { result ≡ factorial_f n }
{
    let mut product = 1.0;
    for i in 1..n + 1 {
        product *= i as f64;
    }
    product
}

// The factor of the first row that is kept.
pub fn first_factor(plain: bool, n: usize) -> f64
    requires { n ≤ 64 }
    ensures { result ≡ start_f plain n }
{
    if plain {
        return 1.0;
    }
    factorial(n)
}

// Each place of `a` times the factor.
fn scale_row(a: &[f64], factor: f64, to: &mut [f64])
    requires { length to.old ≤ length a.now }
    ensures { to.new ≡ table (length to.old) (λ k. mul binary64 (get_or a.now k nan) factor) }
{
    for (k, x) in to.iter_mut().enumerate() {
        *x = a[k] * factor;
    }
}

// A row times the factor, or as it is where `plain`.
fn put_row(plain: bool, a: &[f64], factor: f64, to: &mut [f64])
    requires { length to.old ≤ length a.now }
    ensures { to.new ≡ table (length to.old) (λ k. scaled_by plain factor (get_or a.now k nan)) }
{
    if plain {
        blocks::copy(a, to);
        return;
    }
    scale_row(a, factor, to);
}

// One row of every part: in `to` it begins at `first`, in `a` it lies `skip` places further on.
fn scale_stripe(
    plain: bool,
    a: &[f64],
    factor: f64,
    s: usize,
    width: usize,
    step: usize,
    skip: usize,
    first: usize,
    to: &mut [f64],
)
    requires { Stripes s width step skip first (length a.now) (length to.old) }
    ensures { Striped first s step (stripe_at plain factor width step skip a.now) to.old to.new }
{
    let mut from = skip + first;
    let mut at = first;
    // Stays a while: tried with the parts counted by a range, and slower, as that takes a division for each row.
    while at < to.len() {
        put_row(plain, &a[from..from + s], factor, &mut to[at..at + s]);
        from += width;
        at += step;
    }
}

// The rows from n on, each times its factor, which is worked out once: that of the first is `start`, or none where
// `plain`.
pub fn scale_rows(
    plain: bool,
    a: &[f64],
    start: f64,
    n: usize,
    s: usize,
    width: usize,
    step: usize,
    to: &mut [f64],
)
    requires { Scaling n s width step (length a.now) (length to.old) }
    ensures { to.new ≡ table (length to.old) (scaled_flat plain start n s width step a.now) }
{
    let skip = n * s;
    scale_stripe(plain, a, start, s, width, step, skip, 0, to);
    let mut factor = start;
    let mut k = 1;
    let mut at = s;
    // Stays a while: tried as `for k in 1..step / s`, and a tenth slower for one variable.
    while at < step {
        factor = factor * ((n + k) as f64 / (k as f64));
        scale_stripe(false, a, factor, s, width, step, skip, at, to);
        k += 1;
        at += s;
    }
}
