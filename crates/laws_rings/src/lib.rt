// The order of rooms (document 02, W11): sum and product commute and associate, product distributes over sum, a shift
// twice is one shift, and a list of rooms has one product, in specs/. A crate needs a function: this one.
#![tactic(auto)]

ghost use Rattle.std.specs.Prelude.{◌≡◌};

pub fn same(x: f64) -> f64
    ensures { result ≡ x }
{
    x
}
