// The exponential of a constant (document 02, W13): the exact value, what it is to be near it, and the floats that are
// answered, in specs/. A crate needs a function: this one.
#![tactic(auto)]

ghost use Rattle.std.specs.Prelude.{◌≡◌};

pub fn same(x: f64) -> f64
    ensures { result ≡ x }
{
    x
}
