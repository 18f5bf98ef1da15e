// What a cap on total degree does to a block (document 02, W10), and that masks inside an operation and one at its end
// give the same bits, in specs/. A crate needs a function: this one.
#![tactic(auto)]

ghost use Rattle.std.specs.Prelude.{◌≡◌};

pub fn same(x: f64) -> f64
    ensures { result ≡ x }
{
    x
}
