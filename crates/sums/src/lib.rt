// Add, negate, subtract (document 01, port order 3). Each entry takes any words, numbers and buffers.
#![tactic(auto)]

pub mod kernel;

ghost use Rattle.model.specs.Promises.{NegatePromise, AddPromise, SubtractPromise};

use model::{Answer, Family};

// The polynomial with every coefficient negated: refusals 1, 2, 5.
pub fn negate(head: u64, a: &[f64], out: &mut [f64]) -> Answer
    ensures { NegatePromise head a.now out.old result out.new }
{
    let o = gates::open_one(Family::Same, head, a.len(), out.len())?;
    sums_negation::negate_into(a, o.na, out);
    Ok(head)
}

// a + b, cut to the smaller limits: refusals 1, 2, 5, 6.
pub fn add(ah: u64, a: &[f64], bh: u64, b: &[f64], out: &mut [f64], scratch: &mut [f64]) -> Answer
    ensures { AddPromise ah a.now bh b.now out.old scratch.old result
        out.new scratch.new }
{
    kernel::sum(false, ah, a, bh, b, out, scratch)
}

// a - b, cut to the smaller limits: refusals 1, 2, 5, 6.
pub fn subtract(
    ah: u64,
    a: &[f64],
    bh: u64,
    b: &[f64],
    out: &mut [f64],
    scratch: &mut [f64],
) -> Answer
    ensures { SubtractPromise ah a.now bh b.now out.old
        scratch.old result out.new scratch.new }
{
    kernel::sum(true, ah, a, bh, b, out, scratch)
}
