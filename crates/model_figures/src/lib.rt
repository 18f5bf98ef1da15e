// The tables that `limits` prints (docs/REFERENCE.md, section 9): the definitions are in specs/, and no laws. A crate
// needs a function: this one.
#![tactic(auto)]

ghost use Rattle.std.specs.Prelude.{◌≡◌};

pub fn same(x: u64) -> u64
    ensures { result ≡ x }
{
    x
}
