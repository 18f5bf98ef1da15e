// What a recipe's answer is with no limits anywhere, and that the verdict WHOLE says so. A crate needs a function: this
// one.
#![tactic(auto)]

ghost use Rattle.std.specs.Prelude.{◌≡◌};

pub fn same(x: f64) -> f64
    ensures { result ≡ x }
{
    x
}
