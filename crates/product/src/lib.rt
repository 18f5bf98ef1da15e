// The product of two polynomials (document 01, port order 4). The entry takes any words and buffers.
#![tactic(auto)]

pub mod kernel;
mod own;

ghost use Rattle.std.specs.Prelude.{◌≡◌};
ghost use Rattle.model.specs.Product.{product_answer, product_out, product_scratch};
ghost use Rattle.model.specs.Promises.{MultiplyPromise};

use model::{Answer, Header};
use shape_words::word::pack;

// The product, whatever the limits and the ways.
fn multiply_opened(
    ah: u64,
    a: &[f64],
    bh: u64,
    b: &[f64],
    out: &mut [f64],
    scratch: &mut [f64],
) -> Answer
    ensures answer { result ≡ product_answer ah a.now bh b.now out.old scratch.old }
    ensures written { out.new ≡ product_out ah a.now bh b.now out.old scratch.old }
    ensures cleared { scratch.new ≡ product_scratch ah a.now bh b.now
        out.old scratch.old }
{
    let o = gates::open_product(ah, a.len(), bh, b.len(), out.len(), scratch.len())?;
    let x = o.a;
    let y = o.b;
    let h = o.told;
    let la = x.lengths;
    let lb = y.lengths;
    let l = h.limits;
    let na = o.na;
    let nb = o.nb;
    let n = o.n;
    let room = 8 * n;
    let r = kernel::multiply_into(
        &a[..na],
        la,
        &b[..nb],
        lb,
        l,
        n,
        &mut out[..n],
        &mut scratch[..room],
    );
    blocks::clear(&mut scratch[..room]);
    Ok(pack(Header::with_lengths(h, r)))
}

// a * b, cut to the smaller limits: refusals 1, 2, 5, 6.
pub fn multiply(
    ah: u64,
    a: &[f64],
    bh: u64,
    b: &[f64],
    out: &mut [f64],
    scratch: &mut [f64],
) -> Answer
    ensures { MultiplyPromise ah a.now bh b.now out.old
        scratch.old result out.new scratch.new }
{
    let w = own::short_way(ah, a, bh, b, out.len(), scratch.len());
    if let kernel::Way::General = w {
        return multiply_opened(ah, a, bh, b, out, scratch);
    }
    own::multiply_short(w, ah, a, out, scratch)
}
