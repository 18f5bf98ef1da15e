// The product of two blocks, with its shortcuts. `product` and `linear_product` call each other; the stage falls at the
// product by a constant.
// The blocks lie in a lent buffer, used as a stack: what lies below `spare` stays as it was. The result goes to the
// front of `out`.
ghost use Rattle.std.specs.Prelude.{◌≡◌, false, ◌+◌, ◌-◌, ◌*◌, ◌≤◌, ◌<◌, length, take};
ghost use Rattle.lists.specs.Table.{table};
ghost use Rattle.lists.specs.Four.{at};
ghost use Rattle.lists.specs.Part.{part, Kept};
ghost use Rattle.model.specs.Header.{count};
ghost use Rattle.model.specs.Places.{index};
ghost use Rattle.model.specs.Refusals.{zero_f, padded};
ghost use Rattle.model.specs.Poly.{block};
ghost use Rattle.model.specs.Add.{joined_block};
ghost use Rattle.model.specs.Product.{general_block, is_zero, constant_block, scaled, grown, raised_at, raised, linear_product, product_of, multiplied};
ghost use Rattle.product.specs.Chosen.{kind_of, line_of, chosen, plain_product};
ghost use Rattle.shape_words.specs.Lengths.{Lengths};
ghost use Rattle.product_linear.specs.Raise.{Raising, lined_at};
ghost use Rattle.product.specs.Room.{line_way, RaisesTo, Plain, Joins, Room, LineRoom, Whole, LineWhole, Times, Put, Stands, Made};

use model::Linear;
use product_linear::{line_rows, raise_rows, scale};

// How a product is made (specs/Chosen.antt numbers the ways).
#[derive(Clone, Copy)]
pub enum Way {
    // The left operand is one: the right one as it is.
    Right,
    // The right operand is one: the left one as it is.
    Left,
    // The left operand is a constant: the right one times it.
    ScaledRight(f64),
    // The right operand is a constant: the left one times it.
    ScaledLeft(f64),
    // The left operand is linear: the right one times that factor.
    LineRight(Linear),
    // The right operand is linear: the left one times that factor.
    LineLeft(Linear),
    // The general product.
    General,
}

// Which way, where neither is a constant: by a linear factor, the left one first, or in general.
fn choose_line(a: &[f64], la: [usize; 4], b: &[f64], lb: [usize; 4]) -> Way
    requires fact_1 { Lengths la }
    requires fact_2 { Lengths lb }
    requires fact_3 { length a.now ≡ count la }
    requires fact_4 { length b.now ≡ count lb }
    ensures { result ≡ line_way (block la a.now) (block lb b.now) }
{
    let f = readings::line::linear_of(a, la);
    if f.yes {
        return Way::LineRight(f);
    }
    let g = readings::line::linear_of(b, lb);
    if g.yes {
        return Way::LineLeft(g);
    }
    Way::General
}

// Which way a product goes.
pub fn choose(a: &[f64], la: [usize; 4], b: &[f64], lb: [usize; 4], stage: usize) -> Way
    requires fact_1 { Lengths la }
    requires fact_2 { Lengths lb }
    requires fact_3 { length a.now ≡ count la }
    requires fact_4 { length b.now ≡ count lb }
    ensures { result ≡ chosen stage (block la a.now) (block lb b.now) }
{
    let x = a[0];
    let y = b[0];
    let ca = a.len() == 1;
    let cb = b.len() == 1;
    if ca & (x == 1.0) {
        return Way::Right;
    }
    if cb & (y == 1.0) {
        return Way::Left;
    }
    if ca {
        return Way::ScaledRight(x);
    }
    if cb {
        return Way::ScaledLeft(y);
    }
    if stage == 0 {
        return Way::General;
    }
    choose_line(a, la, b, lb)
}

// One row more in v, as far as the limit lets it.
fn grown_to(limits: [usize; 4], v: usize, n: [usize; 4]) -> [usize; 4]
    requires fact_1 { v < 4 }
    requires fact_2 { Lengths n }
    ensures { result ≡ grown limits v n }
{
    let mut r = n;
    r[v] = shape::limits::least(limits[v], n[v] + 1);
    r
}

// m times the block with the lengths n, shifted up by one in v; r are the lengths of the result.
fn raise(a: &[f64], n: [usize; 4], v: usize, m: f64, r: [usize; 4], to: &mut [f64])
    requires { Raising n v r (length a.now) (length to.old) }
    ensures { to.new ≡ table (count r) (λ k. raised_at v m (block n a.now) (index r k)) }
{
    let strides = shape_words::places::strides_of(n);
    let s = strides[v];
    raise_rows(a, m, s, n[v] * s, r[v] * s, to);
}

// m times a block, shifted up by one in the line's variable.
fn raise_to(
    a: &[f64],
    n: [usize; 4],
    line: Linear,
    limits: [usize; 4],
    out: &mut [f64],
) -> [usize; 4]
    requires { RaisesTo n line.variable limits (length a.now) (length out.old) }
    ensures { Put (raised limits line.variable line.m (block n a.now)) out.old out.new result }
{
    let v = line.variable;
    let r = grown_to(limits, v, n);
    let z = shape_words::places::count_of(r);
    raise(a, n, v, line.m, r, &mut out[..z]);
    r
}

// One block unchanged.
fn copied(a: &[f64], n: [usize; 4], out: &mut [f64]) -> [usize; 4]
    requires { length a.now ≤ length out.old }
    ensures { Put (block n a.now) out.old out.new result }
{
    let z = a.len();
    blocks::copy(a, &mut out[..z]);
    n
}

// One block times c.
fn scaled_to(c: f64, a: &[f64], n: [usize; 4], out: &mut [f64]) -> [usize; 4]
    requires fact_1 { length a.now ≡ count n }
    requires fact_2 { length a.now ≤ length out.old }
    ensures { Put (scaled c (block n a.now)) out.old out.new result }
{
    let z = a.len();
    scale(c, a, &mut out[..z]);
    n
}

// The general product of two blocks.
fn general_to(
    a: &[f64],
    la: [usize; 4],
    b: &[f64],
    lb: [usize; 4],
    limits: [usize; 4],
    out: &mut [f64],
) -> [usize; 4]
    requires { Plain la lb limits (length a.now) (length b.now) (length out.old) }
    ensures { Put (general_block limits (block la a.now) (block lb b.now)) out.old out.new result }
{
    let r = shape::limits::sum_shape(limits, la, lb);
    let z = shape_words::places::count_of(r);
    product_general::general(a, la, b, lb, r, &mut out[..z]);
    r
}

// The ways that ask for no other product.
fn plain(
    a: &[f64],
    la: [usize; 4],
    b: &[f64],
    lb: [usize; 4],
    way: Way,
    limits: [usize; 4],
    out: &mut [f64],
) -> [usize; 4]
    requires { Plain la lb limits (length a.now) (length b.now) (length out.old) }
    ensures { Put (plain_product limits (kind_of way) (line_of way).c (block la a.now) (block lb b.now)) out.old out.new result }
{
    match way {
        Way::Right => copied(b, lb, out),
        Way::Left => copied(a, la, out),
        Way::ScaledRight(c) => scaled_to(c, b, lb, out),
        Way::ScaledLeft(c) => scaled_to(c, a, la, out),
        _ => general_to(a, la, b, lb, limits, out),
    }
}

// The sum of two blocks.
pub fn add_blocks(a: &[f64], n: [usize; 4], b: &[f64], m: [usize; 4], out: &mut [f64]) -> [usize; 4]
    requires { Joins n m (length a.now) (length b.now) (length out.old) }
    ensures { Put (joined_block false (block n a.now) (block m b.now)) out.old out.new result }
{
    let r = shape::limits::max_shape(n, m);
    let z = shape_words::places::count_of(r);
    blocks::combine(false, a, n, b, m, r, &mut out[..z]);
    r
}

// The first n places of `from`, kept in `work` from `at` on.
pub fn keep(from: &[f64], n: usize, work: &mut [f64], at: usize)
    requires { (n ≤ length from.now) × (at + n ≤ length work.old) }
    ensures { Kept at (at + n) (take n from.now) work.old work.new }
{
    blocks::copy(from, &mut work[at..at + n]);
}

// The product of the blocks pa..ea and pb..eb, which are cut to the limits already and not tested for zero.
#[cycle(linear_product_product)]
pub fn product(
    work: &mut [f64],
    pa: usize,
    ea: usize,
    la: [usize; 4],
    pb: usize,
    eb: usize,
    lb: [usize; 4],
    spare: usize,
    limits: [usize; 4],
    stage: usize,
    out: &mut [f64],
) -> [usize; 4]
    requires { Room work.old pa ea la pb eb lb spare limits stage (length out.old) }
    ensures { Made (product_of stage limits (block la (part pa ea work.old))
        (block lb (part pb eb work.old))) spare work.old
        work.new out.new result }
{
    let w = choose(&work[pa..ea], la, &work[pb..eb], lb, stage);
    match w {
        Way::LineRight(line) => linear_product(work, pb, eb, lb, line, spare, limits, stage, out),
        Way::LineLeft(line) => linear_product(work, pa, ea, la, line, spare, limits, stage, out),
        _ => plain(&work[pa..ea], la, &work[pb..eb], lb, w, limits, out),
    }
}

// The block p..e times a linear factor: m times it, shifted up by one, and, unless c is zero, the product by c added.
#[cycle(linear_product_product)]
fn linear_product(
    work: &mut [f64],
    p: usize,
    e: usize,
    n: [usize; 4],
    line: Linear,
    spare: usize,
    limits: [usize; 4],
    stage: usize,
    out: &mut [f64],
) -> [usize; 4]
    requires { LineRoom work.old p e n line.variable spare limits stage (length out.old) }
    ensures { Made (linear_product (λ x. product_of (stage - 1) limits x (constant_block line.c)) limits line
        (block n (part p e work.old))) spare work.old work.new out.new result }
{
    let r = raise_to(&work[p..e], n, line, limits, out);
    let c = line.c;
    if c == 0.0 {
        return r;
    }
    let z = shape_words::places::count_of(r);
    keep(out, z, work, spare);
    let q = spare + z;
    work[q] = c;
    let t = q + 1;
    let one = [1, 1, 1, 1];
    let k = product(work, p, e, n, q, t, one, t, limits, stage - 1, out);
    let y = shape_words::places::count_of(k);
    keep(out, y, work, t);
    let u = t + y;
    add_blocks(&work[spare..q], r, &work[t..u], k, out)
}

// Whether the block with the lengths n is the constant zero.
pub fn is_zero(a: &[f64], n: [usize; 4]) -> bool
    requires { 0 < length a.now }
    ensures { result ≡ is_zero (block n a.now) }
{
    (n[0] == 1) & (n[1] == 1) & (n[2] == 1) & (n[3] == 1) & (a[0] == 0.0)
}

// The constant zero.
pub fn zero_to(out: &mut [f64]) -> [usize; 4]
    requires { 0 < length out.old }
    ensures { Put (constant_block zero_f) out.old out.new result }
{
    out[0] = 0.0;
    [1, 1, 1, 1]
}

// The product of the blocks pa..ea and pb..eb, which are cut to the limits already.
pub fn times(
    work: &mut [f64],
    pa: usize,
    ea: usize,
    la: [usize; 4],
    pb: usize,
    eb: usize,
    lb: [usize; 4],
    spare: usize,
    limits: [usize; 4],
    out: &mut [f64],
) -> [usize; 4]
    requires { Room work.old pa ea la pb eb lb spare limits 1 (length out.old) }
    ensures { Made (multiplied limits (block la (part pa ea work.old))
        (block lb (part pb eb work.old))) spare work.old
        work.new out.new result }
{
    if is_zero(&work[pa..ea], la) | is_zero(&work[pb..eb], lb) {
        return zero_to(out);
    }
    product(work, pa, ea, la, pb, eb, lb, spare, limits, 1, out)
}

// The block with the lengths n times c, and m times it, shifted up by one in v; r are the lengths of the result, no
// less than n.
fn line_up(a: &[f64], n: [usize; 4], v: usize, c: f64, m: f64, r: [usize; 4], to: &mut [f64])
    requires fact_1 { Raising n v r (length a.now) (length to.old) }
    requires fact_2 { at n v ≤ at r v }
    ensures { to.new ≡ table (count r) (λ k. lined_at v c m (block n a.now) (index r k)) }
{
    let strides = shape_words::places::strides_of(n);
    let s = strides[v];
    line_rows(a, c, m, s, n[v] * s, r[v] * s, to);
}

// A block with more than one place times a linear factor whose constant is neither zero nor one.
fn line_to(
    a: &[f64],
    n: [usize; 4],
    line: Linear,
    limits: [usize; 4],
    out: &mut [f64],
) -> [usize; 4]
    requires fact_1 { RaisesTo n line.variable limits (length a.now) (length out.old) }
    requires fact_2 { 1 < count n }
    ensures { Put (joined_block false (raised limits line.variable line.m (block n a.now))
        (scaled line.c (block n a.now))) out.old out.new result }
{
    let v = line.variable;
    let r = grown_to(limits, v, n);
    let z = shape_words::places::count_of(r);
    line_up(a, n, v, line.c, line.m, r, &mut out[..z]);
    r
}

// A block that no limit cuts times a linear factor.
fn line_whole(
    a: &[f64],
    n: [usize; 4],
    line: Linear,
    limits: [usize; 4],
    out: &mut [f64],
    work: &mut [f64],
) -> [usize; 4]
    requires { LineWhole n line.variable limits (length a.now) (length out.old) (length work.old) }
    ensures stands { Stands (linear_product (λ x. product_of 0 limits x (constant_block line.c)) limits line (block n a.now)) out.new result }
    ensures spent { length work.new ≡ length work.old }
{
    let e = a.len();
    let c = line.c;
    if c == 0.0 {
        return raise_to(a, n, line, limits, out);
    }
    if (e == 1) | (c == 1.0) {
        keep(a, e, work, 0);
        return linear_product(work, 0, e, n, line, e, limits, 1, out);
    }
    line_to(a, n, line, limits, out)
}

// The product of two operands that no limit cuts: they are read where they lie.
fn product_whole(
    a: &[f64],
    la: [usize; 4],
    b: &[f64],
    lb: [usize; 4],
    limits: [usize; 4],
    out: &mut [f64],
    work: &mut [f64],
) -> [usize; 4]
    requires { Whole la lb limits (length a.now) (length b.now) (length out.old) (length work.old) }
    ensures stands { Stands (product_of 1 limits (block la a.now) (block lb b.now)) out.new result }
    ensures spent { length work.new ≡ length work.old }
{
    let w = choose(a, la, b, lb, 1);
    match w {
        Way::LineRight(line) => line_whole(b, lb, line, limits, out, work),
        Way::LineLeft(line) => line_whole(a, la, line, limits, out, work),
        _ => plain(a, la, b, lb, w, limits, out),
    }
}

// The product of two operands with the lengths la and lb, to the front of `out`: zero is tested before the cut. n is
// the announced count.
fn multiply_front(
    a: &[f64],
    la: [usize; 4],
    b: &[f64],
    lb: [usize; 4],
    limits: [usize; 4],
    n: usize,
    out: &mut [f64],
    work: &mut [f64],
) -> [usize; 4]
    requires { Times la lb limits n (length a.now) (length b.now) (length out.old) (length work.old) }
    ensures stands { Stands (multiplied limits (block la a.now) (block lb b.now)) out.new result }
    ensures spent { length work.new ≡ length work.old }
{
    let ca = shape::limits::cut_to(limits, la);
    let cb = shape::limits::cut_to(limits, lb);
    if is_zero(a, la) | is_zero(b, lb) {
        return zero_to(out);
    }
    if blocks::is_same(la, ca) & blocks::is_same(lb, cb) {
        return product_whole(a, ca, b, cb, limits, out, work);
    }
    blocks::load_two(a, la, ca, b, lb, cb, n, work);
    let na = shape_words::places::count_of(ca);
    let end = n + shape_words::places::count_of(cb);
    product(work, 0, na, ca, n, end, cb, 2 * n, limits, 1, out)
}

// The product of two operands, then +0.0 to the end of `out`, which has the announced count n.
pub fn multiply_into(
    a: &[f64],
    la: [usize; 4],
    b: &[f64],
    lb: [usize; 4],
    limits: [usize; 4],
    n: usize,
    out: &mut [f64],
    work: &mut [f64],
) -> [usize; 4]
    requires { Times la lb limits n (length a.now) (length b.now) (length out.old) (length work.old) }
    ensures lengths { result ≡ (multiplied limits (block la a.now) (block lb b.now)).lengths }
    ensures written { out.new ≡ padded n (multiplied limits (block la a.now) (block lb b.now)).places }
    ensures spent { length work.new ≡ length work.old }
{
    let r = multiply_front(a, la, b, lb, limits, n, out, work);
    let z = shape_words::places::count_of(r);
    blocks::clear(&mut out[z..n]);
    r
}
