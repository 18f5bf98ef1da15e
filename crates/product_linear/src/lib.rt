// Rows of places times a constant or a linear factor: each place once, in order.
#![tactic(auto)]

ghost use Rattle.std.specs.Prelude.{◌≡◌, ◌+◌, ◌≤◌, length};
ghost use Rattle.lists.specs.Table.{table};
ghost use Rattle.model.specs.Product.{scaled_at};
ghost use Rattle.product_linear.specs.Rows.{raised_row, raised_flat, lined_first, lined_middle, lined_last, lined_row, lined_flat, LinedRow, Rows};

// c times each place.
pub fn scale(c: f64, a: &[f64], to: &mut [f64])
    requires { length to.old ≡ length a.now }
    ensures { to.new ≡ table (length a.now) (scaled_at c a.now) }
{
    for (k, place) in to.iter_mut().enumerate() {
        *place = c * a[k];
    }
}

// The first s places +0.0, the others m times those of `a`.
fn raise_row(a: &[f64], m: f64, s: usize, to: &mut [f64])
    requires { (s ≤ length to.old) × (length to.old ≤ length a.now + s) }
    ensures { to.new ≡ table (length to.old) (raised_row m s a.now) }
{
    blocks::clear(&mut to[..s]);
    for k in s..to.len() {
        to[k] = a[k - s] * m;
    }
}

// Row by row, each of `width` places in `a` and of `step` in `to`.
#[tactic(auto, using(crate::specs::Raised::row_fits))]
pub fn raise_rows(a: &[f64], m: f64, s: usize, width: usize, step: usize, to: &mut [f64])
    requires { Rows s width step (length a.now) (length to.old) }
    ensures { to.new ≡ table (length to.old) (raised_flat m s width step a.now) }
{
    let mut from = 0;
    let mut at = 0;
    // Stays a while: tried as `for r in 0..to.len() / step`, and the division makes a call slower by some 2 ns.
    while at < to.len() {
        raise_row(&a[from..from + width], m, s, &mut to[at..at + step]);
        from += width;
        at += step;
    }
}

// The front of a row under a linear factor, where nothing is shifted to: c times it, added to +0.0 twice.
fn line_first(c: f64, a: &[f64], to: &mut [f64])
    requires { length to.old ≤ length a.now }
    ensures { to.new ≡ table (length to.old) (lined_first c a.now) }
{
    for (k, place) in to.iter_mut().enumerate() {
        *place = (0.0 + 0.0) + c * a[k];
    }
}

// Its middle: m times `a`, which is shifted here, and c times `b`, which stays.
fn line_middle(m: f64, a: &[f64], c: f64, b: &[f64], to: &mut [f64])
    requires { (length to.old ≤ length a.now) × (length to.old ≤ length b.now) }
    ensures { to.new ≡ table (length to.old) (lined_middle m a.now c b.now) }
{
    for (k, place) in to.iter_mut().enumerate() {
        *place = (0.0 + a[k] * m) + c * b[k];
    }
}

// Its end, which the row itself does not reach: m times what is shifted there.
fn line_last(m: f64, a: &[f64], to: &mut [f64])
    requires { length to.old ≤ length a.now }
    ensures { to.new ≡ table (length to.old) (lined_last m a.now) }
{
    for (k, place) in to.iter_mut().enumerate() {
        *place = 0.0 + a[k] * m;
    }
}

// One row times c, and m times it, shifted up by s, in one pass.
fn line_row(a: &[f64], c: f64, m: f64, s: usize, to: &mut [f64])
    requires { LinedRow s (length a.now) (length to.old) }
    ensures { to.new ≡ table (length to.old) (lined_row c m s (length a.now) a.now) }
{
    let w = a.len();
    let n = to.len();
    let z = 0;
    line_first(c, a, &mut to[z..s]);
    line_middle(m, a, c, &a[s..w], &mut to[s..w]);
    line_last(m, &a[w - s..w], &mut to[w..n]);
}

// Row by row, each of `width` places in `a` and of `step` in `to`. No loop shared with `raise_rows`: what a closure
// does to a part of `to` would make its contract longer than the loop.
#[tactic(auto, using(crate::specs::Raised::row_fits))]
pub fn line_rows(a: &[f64], c: f64, m: f64, s: usize, width: usize, step: usize, to: &mut [f64])
    requires fact_1 { Rows s width step (length a.now) (length to.old) }
    requires fact_2 { (s ≤ width) × (width ≤ step) }
    ensures { to.new ≡ table (length to.old) (lined_flat c m s width step a.now) }
{
    let mut from = 0;
    let mut at = 0;
    // Stays a while, as in `raise_rows`.
    while at < to.len() {
        line_row(&a[from..from + width], c, m, s, &mut to[at..at + step]);
        from += width;
        at += step;
    }
}
