// Laws of whole numbers: ℤ, sums over ranges and boxes, the textbook series of `model`, and where binary64 is exact. A
// crate needs a function: this one.
#![tactic(auto)]

ghost use Rattle.std.specs.Prelude.{◌≡◌};

pub fn same(x: f64) -> f64
    ensures { result ≡ x }
{
    x
}
