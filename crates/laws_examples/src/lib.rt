// The table of examples, computed from the definitions of `model`, and instances of the laws on whole numbers. A crate
// needs a function: this one.
#![tactic(auto)]

ghost use Rattle.std.specs.Prelude.{◌≡◌};

pub fn same(x: f64) -> f64
    ensures { result ≡ x }
{
    x
}
