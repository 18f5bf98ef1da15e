// Each place times a whole number, or over one.
// Four loops, and not one over a closure: each is one line, and its contract says which factor stands left.
#![tactic(auto)]

ghost use Rattle.std.specs.Prelude.{◌≡◌, ◌+◌, ◌*◌, ◌≤◌, ◌<◌, length, get_or};
ghost use Rattle.lists.specs.Table.{table};
ghost use Rattle.model.specs.Series.{over_whole, times_whole};
ghost use Rattle.series_scaling.specs.Weighed.{weighed_at};
ghost use Rattle.std.specs.Float.{nan, binary64};
ghost use Rattle.std.specs.Float.Ieee.{mul};
ghost use Rattle.model.specs.Constructed.{whole_f};

// Each place times the number of its row, t places to a row, 64 rows at most.
pub fn weigh(xs: &[f64], t: usize, to: &mut [f64])
    requires fact_1 { (0 < t) × (length to.old ≤ length xs.now) }
    requires fact_2 { length to.old ≤ 64 * t }
    ensures { to.new ≡ table (length to.old) (weighed_at t xs.now) }
{
    for (i, place) in to.iter_mut().enumerate() {
        let row = i / t;
        *place = xs[i] * (row as f64);
    }
}

// Each place over the number k.
pub fn divide_by(k: usize, to: &mut [f64])
    requires { k < 64 }
    ensures { to.new ≡ over_whole k to.old }
{
    let d = k as f64;
    for place in to.iter_mut() {
        *place = *place / d;
    }
}

// Each place times the number k.
pub fn scale(k: usize, a: &[f64], to: &mut [f64])
    requires fact_1 { k < 64 }
    requires fact_2 { length to.old ≡ length a.now }
    ensures { to.new ≡ times_whole k a.now }
{
    let d = k as f64;
    for (i, place) in to.iter_mut().enumerate() {
        *place = a[i] * d;
    }
}

// The number k times each place.
pub fn multiply(k: usize, a: &[f64], to: &mut [f64])
    requires fact_1 { k < 64 }
    requires fact_2 { length to.old ≡ length a.now }
    ensures { to.new ≡ table (length a.now) (λ i. mul binary64 (whole_f k) (get_or a.now i nan)) }
{
    let d = k as f64;
    for (i, place) in to.iter_mut().enumerate() {
        *place = d * a[i];
    }
}
