// Laws of the settings store: its words are the encoding of its lists, and its test is exact. A crate needs a function:
// this one.
#![tactic(auto)]

ghost use Rattle.std.specs.Prelude.{◌≡◌};

pub fn same(x: u64) -> u64
    ensures { result ≡ x }
{
    x
}
