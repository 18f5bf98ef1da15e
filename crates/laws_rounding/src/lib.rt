// The error of rounding to binary64: of one rounding, and of sums, products and quotients of positive floats after any
// number of them. A crate needs a function: this one.
#![tactic(auto)]

ghost use Rattle.std.specs.Prelude.{◌≡◌};

pub fn same(x: f64) -> f64
    ensures { result ≡ x }
{
    x
}
