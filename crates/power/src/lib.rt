// The power of a polynomial (document 01, port order 7). The entry takes any word, exponent and buffers.
#![tactic(auto)]

pub mod kernel;

ghost use Rattle.model.specs.Promises.{PowPromise};

use model::{Answer, Family, Header};
use shape_words::word::pack;

// a to the power e, cut to its limits: refusals 1, 2, 5, 6. 0 gives one with no variables, 1 a copy.
pub fn pow(head: u64, a: &[f64], e: u32, out: &mut [f64], scratch: &mut [f64]) -> Answer
    ensures { PowPromise head a.now e out.old scratch.old result out.new scratch.new }
{
    let o = gates::open_work(Family::Power(e), head, a.len(), out.len(), scratch.len())?;
    let x = o.a;
    let h = o.told;
    let la = x.lengths;
    let l = h.limits;
    let na = o.na;
    let n = o.n;
    let room = 8 * n;
    let r = kernel::power_into(&a[..na], la, e, l, n, &mut out[..n], &mut scratch[..room]);
    blocks::clear(&mut scratch[..room]);
    Ok(pack(Header::with_lengths(h, r)))
}
