// Sums, products, quotients and substitutions of power series over whole numbers, as a textbook has them: specs/. A
// crate needs a function: this one.
#![tactic(auto)]

ghost use Rattle.std.specs.Prelude.{◌≡◌};

pub fn same(x: u64) -> u64
    ensures { result ≡ x }
{
    x
}
