// A cap on total degree (document 02, W10): which indices it leaves, which cap a result has, and what becomes of places
// at or past it, in specs/. A crate needs a function: this one.
#![tactic(auto)]

ghost use Rattle.std.specs.Prelude.{◌≡◌};

pub fn same(x: f64) -> f64
    ensures { result ≡ x }
{
    x
}
