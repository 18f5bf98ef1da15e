// A number to a power, by squaring.
ghost use Rattle.std.specs.Prelude.{◌≡◌, cond, ◌%◌, eqb};
ghost use Rattle.std.specs.Float.Ieee.{mul};
ghost use Rattle.std.specs.Float.{binary64};
ghost use Rattle.model_forecast.specs.Totals.{number_power};

// The lowest bit of the exponent that is left: where it is set, what is reached is multiplied by the base.
fn take_bit(left: u32, reached: f64, base: f64) -> f64
    ensures { result ≡ cond (eqb (left % 2) 1) (mul binary64 reached base) reached }
{
    if left % 2 == 1 {
        return reached * base;
    }
    reached
}

// Each bit of the exponent below the highest is taken and the base is squared; then the highest is taken.
pub fn number_power(e: u32, x: f64) -> f64
    ensures { result ≡ number_power e x }
{
    if e == 0 {
        return 1.0;
    }
    if e == 1 {
        return x;
    }
    let mut reached = 1.0;
    let mut base = x;
    let mut left = e;
    // No `for`: `left` is halved, and the turns are as many as the exponent has bits below the highest.
    while 1 < left {
        reached = take_bit(left, reached, base);
        base = base * base;
        left = left / 2;
    }
    reached * base
}
