// Where `shift_down` of `model` is exact on whole numbers and keeps the sum of all coefficients. A crate needs a
// function: this one.
#![tactic(auto)]

ghost use Rattle.std.specs.Prelude.{◌≡◌};

pub fn same(x: f64) -> f64
    ensures { result ≡ x }
{
    x
}
