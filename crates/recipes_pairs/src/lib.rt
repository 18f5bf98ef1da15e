// Steps of two operands: sum, difference, product, quotient.
#![tactic(auto)]

ghost use Rattle.std.specs.Prelude.{◌≡◌, ◌||◌, ◌+◌, ◌*◌, ◌≤◌, length};
ghost use Rattle.lists.specs.Part.{Kept};
ghost use Rattle.model.specs.Header.{stored};
ghost use Rattle.model.specs.Limits.{cut_to};
ghost use Rattle.model.specs.Refusals.{padded};
ghost use Rattle.model.specs.Poly.{block_of};
ghost use Rattle.model.specs.Product.{is_zero};
ghost use Rattle.shape_words.specs.Rules.{Ruled};
ghost use Rattle.blocks.specs.Two.{Two, Holds, cut_places};
ghost use Rattle.product.specs.Room.{Stands};
ghost use Rattle.shape_operands.specs.Lent.{source, lying, Aside, Lent};
ghost use Rattle.recipes_pairs.specs.Pair.{pair_of, pair_poly, left_in, right_in, Pairing};

use gates::stored_of;
use model::Header;
use shape::limits::cut_to;
use shape_words::places::count_of;

// Both operands into the work, cut to the limits: one at its front, the other from n on. Answers whether one of them,
// uncut, is the constant zero.
fn load_pair<'a>(
    x: Header,
    xi: bool,
    xf: usize,
    y: Header,
    yi: bool,
    yf: usize,
    limits: [usize; 4],
    n: usize,
    coefficients: &'a [f64],
    pool: &'a [f64],
    work: &mut [f64],
) -> bool
    requires fact_1 { Two x.lengths (cut_to limits x.lengths) y.lengths (cut_to limits y.lengths) n (stored x)
        (stored y) (length work.old) }
    requires fact_2 { Ruled x }
    requires fact_3 { Ruled y }
    requires fact_4 { xf + stored x ≤ length (source xi coefficients.now pool.now) }
    requires fact_5 { yf + stored y ≤ length (source yi coefficients.now pool.now) }
    ensures zero { result ≡ (is_zero (block_of (lying xi coefficients.now pool.now xf x))
        || is_zero (block_of (lying yi coefficients.now pool.now yf y))) }
    ensures holds { Holds n (cut_places x.lengths (cut_to limits x.lengths)
        (lying xi coefficients.now pool.now xf x).coeffs)
        (cut_places y.lengths (cut_to limits y.lengths)
        (lying yi coefficients.now pool.now yf y).coeffs) work.new }
{
    let na = stored_of(x);
    let nb = stored_of(y);
    let la = x.lengths;
    let lb = y.lengths;
    let a = shape_operands::stretch(xi, coefficients, pool, xf, na);
    let b = shape_operands::stretch(yi, coefficients, pool, yf, nb);
    let ca = cut_to(limits, la);
    let cb = cut_to(limits, lb);
    blocks::load_two(a, la, ca, b, lb, cb, n, work);
    product::kernel::is_zero(a, la) | product::kernel::is_zero(b, lb)
}

// The value, to the front of `out`, which has the announced count n: x and y are the headers of the operands, which are
// loaded, h is the announced one.
fn pair_front(
    kind: usize,
    zero: bool,
    x: Header,
    y: Header,
    h: Header,
    n: usize,
    work: &mut [f64],
    out: &mut [f64],
) -> [usize; 4]
    requires fact_1 { Pairing kind x y h n }
    requires fact_2 { length work.old ≡ 8 * n }
    requires fact_3 { length out.old ≡ n }
    ensures stands { Stands (pair_of kind zero h.limits (left_in h.limits x.lengths work.old)
        (right_in h.limits y.lengths n work.old)) out.new result }
    ensures spent { length work.new ≡ length work.old }
{
    let l = h.limits;
    let r = h.lengths;
    let la = x.lengths;
    let lb = y.lengths;
    let ca = cut_to(l, la);
    let cb = cut_to(l, lb);
    let na = count_of(ca);
    let nb = count_of(cb);
    let end = n + nb;
    if kind <= 3 {
        blocks::combine(kind == 3, &work[0..na], ca, &work[n..end], cb, r, out);
        return r;
    }
    if kind != 4 {
        quotient::kernel::divide_loaded(work, ca, na, cb, nb, r, out);
        return r;
    }
    if zero {
        return product::kernel::zero_to(out);
    }
    product::kernel::product(work, 0, na, ca, n, end, cb, 2 * n, l, 1, out)
}

// The value to the pool, n places from `at` on.
pub fn pair_to(
    kind: usize,
    x: Header,
    xi: bool,
    xf: usize,
    y: Header,
    yi: bool,
    yf: usize,
    h: Header,
    n: usize,
    coefficients: &[f64],
    pool: &mut [f64],
    at: usize,
    scratch: &mut [f64],
) -> Header
    requires fact_1 { Pairing kind x y h n }
    requires fact_2 { Aside x xi xf at n (length coefficients.now) (length pool.old) }
    requires fact_3 { Aside y yi yf at n (length coefficients.now) (length pool.old) }
    requires fact_4 { Lent n at (length pool.old) (length scratch.old) }
    ensures head { result ≡ (pair_poly kind (lying xi coefficients.now pool.old xf x)
        (lying yi coefficients.now pool.old yf y)).head }
    ensures kept { Kept at (at + n)
        (padded n (pair_poly kind (lying xi coefficients.now pool.old xf x)
        (lying yi coefficients.now pool.old yf y)).coeffs)
        pool.old pool.new }
    ensures spent { length scratch.new ≡ length scratch.old }
{
    let limits = h.limits;
    let room = 8 * n;
    let zero = load_pair(
        x,
        xi,
        xf,
        y,
        yi,
        yf,
        limits,
        n,
        coefficients,
        pool,
        &mut scratch[..room],
    );
    let end = at + n;
    let r = pair_front(
        kind,
        zero,
        x,
        y,
        h,
        n,
        &mut scratch[..room],
        &mut pool[at..end],
    );
    let z = count_of(r);
    shape_operands::pad(pool, at + z, end);
    Header::with_lengths(h, r)
}
