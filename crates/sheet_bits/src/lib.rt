// Words to floats and back. A NaN's pattern becomes a NaN, and a NaN becomes 7ff8000000000000: which bits a NaN has is
// not promised anywhere.
#![tactic(auto)]

ghost use Rattle.std.specs.Prelude.{◌≡◌};
ghost use Rattle.std.specs.Float.{binary64};
ghost use Rattle.std.specs.Float.Ieee.{of_bits, to_bits};

pub fn float_of(word: u64) -> f64
    ensures { result ≡ of_bits binary64 word }
{
    let exponent = word % 9223372036854775808 / 4503599627370496;
    let digits = word % 4503599627370496;
    if (exponent == 2047) & (digits != 0) {
        return 0.0 / 0.0;
    }
    f64::from_bits(word)
}

pub fn word_of(x: f64) -> u64
    ensures { result ≡ to_bits binary64 x }
{
    if x == x {
        return f64::to_bits(x);
    }
    9221120237041090560
}
