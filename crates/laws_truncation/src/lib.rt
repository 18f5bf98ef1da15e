// Truncation of the textbook's series to a region, such as a box and a cap on total degree (document 02, W10 and W11),
// in specs/. A crate needs a function: this one.
#![tactic(auto)]

ghost use Rattle.std.specs.Prelude.{◌≡◌};

pub fn same(x: f64) -> f64
    ensures { result ≡ x }
{
    x
}
