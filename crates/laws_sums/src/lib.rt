// What is true of the numbers read off running sums, `tail` and `least` of `model`. A crate needs a function: this one.
#![tactic(auto)]

ghost use Rattle.std.specs.Prelude.{◌≡◌};

pub fn same(x: f64) -> f64
    ensures { result ≡ x }
{
    x
}
