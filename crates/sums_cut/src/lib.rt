// The sum or the difference of two operands, both cut to the limits first.
#![tactic(auto)]

ghost use Rattle.std.specs.Prelude.{◌≡◌, length};
ghost use Rattle.model.specs.Poly.{block, cut};
ghost use Rattle.model.specs.Add.{joined_block};
ghost use Rattle.sums_cut.specs.Summing.{Summing};

// The sum or the difference of two polynomials with the lengths la and lb, cut to the limits; r are the lengths of the
// result, n its count.
pub fn sum_into(
    minus: bool,
    a: &[f64],
    la: [usize; 4],
    b: &[f64],
    lb: [usize; 4],
    limits: [usize; 4],
    r: [usize; 4],
    n: usize,
    out: &mut [f64],
    work: &mut [f64],
)
    requires { Summing la lb limits r n (length a.now) (length b.now) (length out.old) (length work.old) }
    ensures out_after { out.new ≡ (joined_block minus (cut limits (block la a.now)) (cut limits (block lb b.now))).places }
    ensures spent { length work.new ≡ length work.old }
{
    let ca = shape::limits::cut_to(limits, la);
    let cb = shape::limits::cut_to(limits, lb);
    blocks::load_two(a, la, ca, b, lb, cb, n, work);
    let na = shape_words::places::count_of(ca);
    let end = n + shape_words::places::count_of(cb);
    blocks::combine(minus, &work[0..na], ca, &work[n..end], cb, r, out);
}
