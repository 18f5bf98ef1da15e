// The quotient of two polynomials (document 01, port order 5). The entry takes any words and buffers.
#![tactic(auto)]

pub mod kernel;

ghost use Rattle.model.specs.Promises.{DividePromise};

use model::{Answer, Family};
use shape_words::word::pack;

// a / b, cut to the smaller limits: refusals 1, 2, 5, 6. Division by zero, infinities and NaN go as IEEE 754 says and
// refuse nothing.
pub fn divide(
    ah: u64,
    a: &[f64],
    bh: u64,
    b: &[f64],
    out: &mut [f64],
    scratch: &mut [f64],
) -> Answer
    ensures { DividePromise ah a.now bh b.now out.old scratch.old
        result out.new scratch.new }
{
    let o = gates::open_pair(
        Family::Quotient,
        ah,
        a.len(),
        bh,
        b.len(),
        out.len(),
        scratch.len(),
    )?;
    let x = o.a;
    let y = o.b;
    let h = o.told;
    let la = x.lengths;
    let lb = y.lengths;
    let l = h.limits;
    let r = h.lengths;
    let na = o.na;
    let nb = o.nb;
    let n = o.n;
    let room = 8 * n;
    kernel::divide_into(
        &a[..na],
        la,
        &b[..nb],
        lb,
        l,
        r,
        &mut out[..n],
        &mut scratch[..room],
    );
    blocks::clear(&mut scratch[..room]);
    Ok(pack(h))
}
