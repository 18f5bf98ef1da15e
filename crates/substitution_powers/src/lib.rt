// Rows times the powers of a number.
#![tactic(auto)]

ghost use Rattle.std.specs.Prelude.{◌≡◌, ◌+◌, ◌*◌, ◌<◌, length, get_or};
ghost use Rattle.std.specs.Float.{nan, binary64};
ghost use Rattle.std.specs.Float.Ieee.{mul};
ghost use Rattle.lists.specs.Four.{at};
ghost use Rattle.lists.specs.Table.{table};
ghost use Rattle.substitution_powers.specs.Powers.{by_row, by_part, Whole};

// Each place times the factor.
fn times_each(factor: f64, to: &mut [f64])
    ensures { to.new ≡ table (length to.old) (λ k. mul binary64 (get_or to.old k nan) factor) }
{
    for place in to.iter_mut() {
        *place = *place * factor;
    }
}

// Rows of s places: row r times m to the r, by running products from 1.0.
fn power_rows(m: f64, s: usize, rows: usize, to: &mut [f64])
    requires { length to.old ≡ rows * s }
    ensures { to.new ≡ table (length to.old) (by_row m s to.old) }
{
    let mut factor = 1.0;
    for r in 0..rows {
        let at = r * s;
        times_each(factor, &mut to[at..at + s]);
        factor = factor * m;
    }
}

// Parts of `width` places, each of them rows of s places.
#[tactic(auto, using(crate::proofs::Fits::parts_fit))]
pub fn power_parts(m: f64, s: usize, width: usize, to: &mut [f64])
    requires fact_1 { Whole s width }
    requires fact_2 { Whole width (length to.old) }
    ensures { to.new ≡ table (length to.old) (by_part m s width to.old) }
{
    let rows = width / s;
    for r in 0..to.len() / width {
        let at = r * width;
        power_rows(m, s, rows, &mut to[at..at + width]);
    }
}
