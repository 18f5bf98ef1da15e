// Every operation keeps the announced header: its limits, no length above the announced one, as many coefficients as
// the header says. A crate needs a function: this one.
#![tactic(auto)]

ghost use Rattle.std.specs.Prelude.{◌≡◌};

pub fn same(x: f64) -> f64
    ensures { result ≡ x }
{
    x
}
