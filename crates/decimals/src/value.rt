// The number that a float's word is, in billionths.
ghost use Rattle.std.specs.Prelude.{◌≡◌, ◌+◌, ◌-◌, ◌*◌, ◌^◌, ◌≤◌, ◌<◌};
ghost use Rattle.model_decimals.specs.Value.{binary_at, units_at};
ghost use Rattle.decimals.specs.Billionths.{IsBillionths};

use crate::part::{Billionths, billionths_of};

// The binary digits, a leading one among them unless the exponent's field is 0.
fn binary_of(exponent: u64, low: u64) -> u64
    requires { low < 4503599627370496 }
    ensures { result ≡ binary_at exponent low }
{
    if exponent == 0 {
        return low;
    }
    4503599627370496 + low
}

// How many of the binary digits stand behind the point.
fn behind_of(exponent: u64) -> u64
    requires { exponent ≤ 1075 }
    ensures { result + (exponent - 1) ≡ 1074 }
{
    if exponent == 0 {
        return 1074;
    }
    1075 - exponent
}

// The float with these fields, of size below 2 ^ 63.
pub fn number_of(exponent: u64, low: u64) -> Billionths
    requires { (exponent ≤ 1085) × (low < 4503599627370496) }
    ensures { IsBillionths (units_at exponent low * 1000000000) (2 ^ 1074) result.whole result.part result.exact }
{
    let b = binary_of(exponent, low);
    if 1075 < exponent {
        return Billionths {
            whole: b << (exponent - 1075),
            part: 0,
            exact: true,
        };
    }
    billionths_of(b, behind_of(exponent))
}
