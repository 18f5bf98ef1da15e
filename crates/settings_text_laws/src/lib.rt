// Laws of what the program `settings` reads and prints: a file that was printed is read back, digits say their number,
// a chance's bits are read back. A crate needs a function: this one.
#![tactic(auto)]

ghost use Rattle.std.specs.Prelude.{◌≡◌};

pub fn same(x: u64) -> u64
    ensures { result ≡ x }
{
    x
}
