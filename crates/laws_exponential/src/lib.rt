// The exponential of a constant is near the exact value: laws on the definitions of `model_exponential` alone. A crate
// needs a function: this one.
#![tactic(auto)]

ghost use Rattle.std.specs.Prelude.{◌≡◌};

pub fn same(x: f64) -> f64
    ensures { result ≡ x }
{
    x
}
