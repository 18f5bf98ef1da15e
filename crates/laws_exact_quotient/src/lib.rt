// Where the quotient of `model` is exact on whole numbers, and that no other quotient is. A crate needs a function:
// this one.
#![tactic(auto)]

ghost use Rattle.std.specs.Prelude.{◌≡◌};

pub fn same(x: f64) -> f64
    ensures { result ≡ x }
{
    x
}
