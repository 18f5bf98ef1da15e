// Where the operands of an operation lie: each among coefficients that are given, or in the buffer that the result goes
// to, where it overlaps no place that is written. A call's operands are given; a step's are inputs, or values of
// earlier steps.
#![tactic(auto)]

ghost use Rattle.std.specs.Prelude.{◌≡◌, ◌+◌, ◌-◌, ◌≤◌, length, take, drop};
ghost use Rattle.lists.specs.Part.{Kept};
ghost use Rattle.model.specs.Refusals.{zeros};
ghost use Rattle.shape_operands.specs.Lent.{source};

use model::Header;

// A polynomial where it lies: its header, how many coefficients it has, whether they are given ones, and the place of
// the first.
#[derive(Clone, Copy)]
pub struct Operand {
    pub head: Header,
    pub count: usize,
    pub input: bool,
    pub from: usize,
}

// So many coefficients from `from` on, of those given or of the buffer that the result goes to.
pub fn stretch<'a>(
    input: bool,
    coefficients: &'a [f64],
    pool: &'a [f64],
    from: usize,
    count: usize,
) -> &'a [f64]
    requires { from + count ≤ length (source input coefficients.now pool.now) }
    ensures { result.now ≡ take count (drop from (source input coefficients.now pool.now)) }
{
    if input {
        return &coefficients[from..from + count];
    }
    &pool[from..from + count]
}

// +0.0 from the place `from` up to the place `to`.
pub fn pad(pool: &mut [f64], from: usize, to: usize)
    requires { (from ≤ to) × (to ≤ length pool.old) }
    ensures { Kept from to (zeros (to - from)) pool.old pool.new }
{
    blocks::clear(&mut pool[from..to]);
}
