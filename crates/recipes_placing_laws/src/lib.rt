// The second placing of a recipe's values (document 02, W4) against the first, by the definitions alone. A crate needs
// a function: this one.
#![tactic(auto)]

ghost use Rattle.std.specs.Prelude.{◌≡◌};

pub fn same(x: f64) -> f64
    ensures { result ≡ x }
{
    x
}
