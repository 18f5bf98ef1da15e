// What is true of recipes by the definitions alone: the check refuses exactly for document 01's reasons, and what it
// accepts runs as announced (demand 3). A crate needs a function: this one.
#![tactic(auto)]

ghost use Rattle.std.specs.Prelude.{◌≡◌};

pub fn same(x: f64) -> f64
    ensures { result ≡ x }
{
    x
}
