// What a caller holds after a call, in the caller's terms: exact where document 01 says so. A crate needs a function:
// this one.
#![tactic(auto)]

ghost use Rattle.std.specs.Prelude.{◌≡◌};

pub fn same(x: f64) -> f64
    ensures { result ≡ x }
{
    x
}
