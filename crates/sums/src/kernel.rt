// What the entries call.
ghost use Rattle.std.specs.Prelude.{◌≡◌};
ghost use Rattle.model.specs.Add.{sum_answer, sum_out, sum_scratch};

use model::{Answer, Family};
use shape_words::word::pack;

// Add and subtract.
pub fn sum(
    minus: bool,
    ah: u64,
    a: &[f64],
    bh: u64,
    b: &[f64],
    out: &mut [f64],
    scratch: &mut [f64],
) -> Answer
    ensures answer { result ≡ sum_answer minus ah a.now bh b.now out.old scratch.old }
    ensures written { out.new ≡ sum_out minus ah a.now bh b.now out.old scratch.old }
    ensures cleared { scratch.new ≡ sum_scratch minus ah a.now bh b.now out.old scratch.old }
{
    let o = gates::open_pair(
        Family::Sum,
        ah,
        a.len(),
        bh,
        b.len(),
        out.len(),
        scratch.len(),
    )?;
    let x = o.a;
    let y = o.b;
    let h = o.told;
    let la = x.lengths;
    let lb = y.lengths;
    let l = h.limits;
    let r = h.lengths;
    let na = o.na;
    let nb = o.nb;
    let n = o.n;
    let room = 8 * n;
    sums_cut::sum_into(
        minus,
        &a[..na],
        la,
        &b[..nb],
        lb,
        l,
        r,
        n,
        &mut out[..n],
        &mut scratch[..room],
    );
    blocks::clear(&mut scratch[..room]);
    Ok(pack(h))
}
