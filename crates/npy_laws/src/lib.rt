// Laws of array files: what was written is read back; limits are the shape; two spellings read the same; every byte is
// accounted for (specs/).
// A crate needs a function: this one.
#![tactic(auto)]

ghost use Rattle.std.specs.Prelude.{◌≡◌};

pub fn same(x: f64) -> f64
    ensures { result ≡ x }
{
    x
}
