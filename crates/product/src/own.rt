// A right factor that leaves the left operand's header as it is (crate product_kept): no limit cuts, the left operand's
// word is the answer's, and a constant or a linear factor takes one pass.
ghost use Rattle.std.specs.Prelude.{Ok, ◌≡◌, ◌++◌, ◌*◌, length, take, drop};
ghost use Rattle.model.specs.Header.{count, stored};
ghost use Rattle.model.specs.Word.{header_of};
ghost use Rattle.model.specs.Refusals.{zeros};
ghost use Rattle.model.specs.Poly.{block};
ghost use Rattle.shape_words.specs.Lengths.{Lengths};
ghost use Rattle.product.specs.Own.{is_light, light_way, own_count, short_way, ShortBlock, ShortRoom, short_places};

use crate::kernel::{Way, choose};
use gates::stored_of;
use model::Answer;
use product_kept::keeps_header;
use product_linear::{line_rows, scale};
use shape_words::places::strides_of;
use shape_words::word::{header_of, is_good};

// Whether a way is by a constant or a linear factor on the right, c neither zero nor one.
fn is_light(w: Way) -> bool
    ensures { result ≡ is_light w }
{
    match w {
        Way::ScaledLeft(c) => !((c == 0.0) | (c == 1.0)),
        Way::LineLeft(line) => !((line.c == 0.0) | (line.c == 1.0)),
        _ => false,
    }
}

// The way of two operands, if it is that by a constant or a linear factor on the right, c neither zero nor one.
fn light_way(a: &[f64], la: [usize; 4], b: &[f64], lb: [usize; 4]) -> Way
    requires fact_1 { Lengths la }
    requires fact_2 { Lengths lb }
    requires fact_3 { length a.now ≡ count la }
    requires fact_4 { length b.now ≡ count lb }
    ensures { result ≡ light_way (block la a.now) (block lb b.now) }
{
    let w = choose(a, la, b, lb, 1);
    if is_light(w) { w } else { Way::General }
}

// How many places the answer has, if the call is not refused, a product by the right factor, of two places at most, has
// the left operand's header, and that has more places than one; else 0.
fn own_count(ah: u64, am: usize, bh: u64, bm: usize, lent: usize, scratch: usize) -> usize
    ensures { result ≡ own_count ah am bh bm lent scratch }
{
    let x = header_of(ah);
    let y = header_of(bh);
    if !(is_good(ah) & keeps_header(x, y) & (bh & 31 == 0)) {
        return 0;
    }
    let n = stored_of(x);
    let m = stored_of(y);
    if (1 < n) & (m <= 2) & (n <= am) & (m <= bm) & (n <= lent) & (8 * n <= scratch) {
        return n;
    }
    0
}

// The short way of a product, if it has one.
pub fn short_way(ah: u64, a: &[f64], bh: u64, b: &[f64], lent: usize, scratch: usize) -> Way
    ensures { result ≡ short_way ah a.now bh b.now lent scratch }
{
    let n = own_count(ah, a.len(), bh, b.len(), lent, scratch);
    if n == 0 {
        return Way::General;
    }
    let x = header_of(ah);
    let y = header_of(bh);
    let la = x.lengths;
    let lb = y.lengths;
    let m = stored_of(y);
    light_way(&a[..n], la, &b[..m], lb)
}

// A block times a constant, or a linear factor that adds no row, to as many places.
fn short_into(w: Way, a: &[f64], n: [usize; 4], to: &mut [f64])
    requires { ShortBlock w n (length a.now) (length to.old) }
    ensures { to.new ≡ short_places w n a.now }
{
    if let Way::ScaledLeft(c) = w {
        scale(c, a, to);
        return;
    }
    let Way::LineLeft(line) = w else {
        unreachable!()
    };
    let v = line.variable;
    let strides = strides_of(n);
    let s = strides[v];
    let width = n[v] * s;
    line_rows(a, line.c, line.m, s, width, width, to);
}

// The product that `short_way` found.
pub fn multiply_short(w: Way, ah: u64, a: &[f64], out: &mut [f64], scratch: &mut [f64]) -> Answer
    requires { ShortRoom w (header_of ah) (length a.now) (length out.old) (length scratch.old) }
    ensures answer { result ≡ Ok ah }
    ensures written { out.new ≡ short_places w (header_of ah).lengths (take (stored (header_of ah)) a.now)
        ++ drop (stored (header_of ah)) out.old }
    ensures cleared { scratch.new ≡ zeros (8 * stored (header_of ah)) ++ drop (8 * stored (header_of ah)) scratch.old }
{
    let x = header_of(ah);
    let la = x.lengths;
    let n = stored_of(x);
    let room = 8 * n;
    short_into(w, &a[..n], la, &mut out[..n]);
    blocks::clear(&mut scratch[..room]);
    Ok(ah)
}
