// Laws by the definitions alone: what `limits` prints as the total is the sum of all coefficients of the answer with no
// limits anywhere. specs/. A crate needs a function: this one.
#![tactic(auto)]

ghost use Rattle.std.specs.Prelude.{◌≡◌};

pub fn same(x: u64) -> u64
    ensures { result ≡ x }
{
    x
}
