// One turn of Horner's rule inside a lent buffer, which is used in blocks of n places: what is put, cut to the limits,
// then the running value, then one row of the polynomial, then what the product needs.
#![tactic(auto)]

ghost use Rattle.std.specs.Prelude.{false, ◌+◌, ◌*◌, length, take};
ghost use Rattle.lists.specs.Part.{part};
ghost use Rattle.model.specs.Header.{count, ones};
ghost use Rattle.model.specs.Refusals.{zero_f};
ghost use Rattle.model.specs.Poly.{block};
ghost use Rattle.model.specs.Add.{joined_block};
ghost use Rattle.model.specs.Product.{constant_block};
ghost use Rattle.product.specs.Room.{Room, Made};
ghost use Rattle.substitution_turn.specs.Room.{Adding, Turning, times_put, turn_of, Turned};

use product::kernel::{add_blocks, is_zero, keep, product, zero_to};
use shape_words::places::count_of;

// The product of the blocks pa..ea and pb..eb, which are cut to the limits already; the right one was tested for zero
// before.
fn times_put(
    work: &mut [f64],
    pa: usize,
    ea: usize,
    la: [usize; 4],
    pb: usize,
    eb: usize,
    lb: [usize; 4],
    spare: usize,
    limits: [usize; 4],
    out: &mut [f64],
) -> [usize; 4]
    requires { Room work.old pa ea la pb eb lb spare limits 1 (length out.old) }
    ensures { Made (times_put limits (block la (part pa ea work.old)) (block lb (part pb eb work.old)))
        spare work.old work.new out.new result }
{
    if is_zero(&work[pa..ea], la) {
        return zero_to(out);
    }
    product(work, pa, ea, la, pb, eb, lb, spare, limits, 1, out)
}

// The block at the front of `out`, whose lengths are k, plus the row: the running value.
fn plus_row(work: &mut [f64], n: usize, k: [usize; 4], c: [usize; 4], out: &mut [f64]) -> [usize; 4]
    requires { Adding k c n (length out.old) (length work.old) }
    ensures { Turned (joined_block false (block k (take (count k) out.old))
        (block c (part (2 * n) (2 * n + count c) work.old))) n work.old
        work.new out.new result }
{
    let row = 2 * n;
    let spare = 3 * n;
    let z = count_of(k);
    keep(out, z, work, spare);
    let end = row + count_of(c);
    let top = spare + z;
    let r = add_blocks(&work[spare..top], k, &work[row..end], c, out);
    let y = count_of(r);
    keep(out, y, work, n);
    r
}

// One turn of Horner's rule, cut to the limits: the running value, whose lengths are r, times what is put, whose
// lengths are b, plus the row.
pub fn turn(
    work: &mut [f64],
    n: usize,
    r: [usize; 4],
    b: [usize; 4],
    c: [usize; 4],
    limits: [usize; 4],
    out: &mut [f64],
) -> [usize; 4]
    requires { Turning r b c limits n (length out.old) (length work.old) }
    ensures { Turned (turn_of limits n r b c work.old) n work.old work.new out.new result }
{
    let end = n + count_of(r);
    let eb = count_of(b);
    let k = times_put(work, n, end, r, 0, eb, b, 3 * n, limits, out);
    plus_row(work, n, k, c, out)
}

// The first turn, a zero of stored count 1 times what is put: it asks nothing of that.
pub fn first_turn(work: &mut [f64], n: usize, c: [usize; 4], out: &mut [f64]) -> [usize; 4]
    requires { Adding ones c n (length out.old) (length work.old) }
    ensures { Turned (joined_block false (constant_block zero_f)
        (block c (part (2 * n) (2 * n + count c) work.old))) n work.old
        work.new out.new result }
{
    let k = zero_to(out);
    plus_row(work, n, k, c, out)
}
