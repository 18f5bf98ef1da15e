// What changes one variable (document 01, port order 7). Each entry takes any words, numbers and buffers.
#![tactic(auto)]

pub mod kernel;

ghost use Rattle.model.specs.Promises.{DerivativePromise, TaylorExpansionOfCoeffPromise, ShiftDownPromise};

use model::{Answer, Family};
use shape_words::word::pack;

// The n-th derivative in v: refusals 1, 2, 3, 4, 5.
pub fn derivative(head: u64, a: &[f64], v: usize, n: usize, out: &mut [f64]) -> Answer
    ensures { DerivativePromise head a.now v n out.old result out.new }
{
    kernel::scaled(false, head, a, v, n, out)
}

// The expansion of the coefficient n of v, the derivative without its factor n!: refusals 1, 2, 3, 4, 5.
pub fn taylor_expansion_of_coeff(
    head: u64,
    a: &[f64],
    v: usize,
    n: usize,
    out: &mut [f64],
) -> Answer
    ensures { TaylorExpansionOfCoeffPromise head a.now v n out.old result out.new }
{
    kernel::scaled(true, head, a, v, n, out)
}

// The coefficients of v moved down by n, the sum of those that would leave added at 0: refusals 1, 2, 3, 4, 5.
pub fn shift_down(head: u64, a: &[f64], v: usize, n: usize, out: &mut [f64]) -> Answer
    ensures { ShiftDownPromise head a.now v n out.old result out.new }
{
    let o = gates::open_in(Family::Shift(v, n), v, n, head, a.len(), out.len())?;
    let h = o.a;
    let r = o.told;
    let given = o.na;
    let count = o.n;
    kernel::shift_rows(&a[..given], h, r, v, n, &mut out[..count]);
    Ok(pack(r))
}
