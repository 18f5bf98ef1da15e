// What mending a sheet of the old exporter is, byte by byte: specs/. A crate needs a function: this one.
#![tactic(auto)]

ghost use Rattle.std.specs.Prelude.{◌≡◌};

pub fn same(x: u64) -> u64
    ensures { result ≡ x }
{
    x
}
