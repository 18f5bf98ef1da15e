// Powers by squaring, without the last squaring: at most 63 products, whatever the exponent.
// The work is eight blocks of the announced count n: the base lies at its front, the running result from n on, and
// products use what lies from 2 n on.
ghost use Rattle.std.specs.Prelude.{◌≡◌, ◌*◌, ◌%◌, ◌≤◌, ◌<◌, length};
ghost use Rattle.model.specs.Header.{count};
ghost use Rattle.model.specs.Refusals.{padded};
ghost use Rattle.model.specs.Readings.{one_f};
ghost use Rattle.model.specs.Poly.{block};
ghost use Rattle.model.specs.Product.{constant_block, multiplied};
ghost use Rattle.model.specs.Power.{squared};
ghost use Rattle.product.specs.Room.{Stands, Made};
ghost use Rattle.power.specs.Room.{power_block, taken, lain, Step, Placed, Loaded, Powers};

// The product of the blocks that lie from pa and from pb on, to the front of `out`.
fn times_front(
    work: &mut [f64],
    pa: usize,
    la: [usize; 4],
    pb: usize,
    lb: [usize; 4],
    n: usize,
    limits: [usize; 4],
    out: &mut [f64],
) -> [usize; 4]
    requires { Step limits la lb pa pb n (length work.old) (length out.old) }
    ensures { Made (multiplied limits (lain pa la work.old) (lain pb lb work.old)) (2 * n)
        work.old work.new out.new result }
{
    let ea = pa + shape_words::places::count_of(la);
    let eb = pb + shape_words::places::count_of(lb);
    product::kernel::times(work, pa, ea, la, pb, eb, lb, 2 * n, limits, out)
}

// The same product, kept in the work from `to` on.
fn times_to(
    work: &mut [f64],
    pa: usize,
    la: [usize; 4],
    pb: usize,
    lb: [usize; 4],
    to: usize,
    n: usize,
    limits: [usize; 4],
    out: &mut [f64],
) -> [usize; 4]
    requires fact_1 { Step limits la lb pa pb n (length work.old) (length out.old) }
    requires fact_2 { to ≤ n }
    ensures placed { Placed (multiplied limits (lain pa la work.old) (lain pb lb work.old)) to n
        work.old work.new result }
    ensures spent { length out.new ≡ length out.old }
{
    let r = times_front(work, pa, la, pb, lb, n, limits, out);
    let z = shape_words::places::count_of(r);
    product::kernel::keep(out, z, work, to);
    r
}

// The lowest bit of the exponent that is left: where it is set, the result is multiplied by the base.
fn take_bit(
    work: &mut [f64],
    left: u32,
    lr: [usize; 4],
    lb: [usize; 4],
    n: usize,
    limits: [usize; 4],
    out: &mut [f64],
) -> [usize; 4]
    requires { left % 2 ≡ 1 → Step limits lr lb n 0 n (length work.old) (length out.old) }
    ensures placed { Placed (taken limits left (lain n lr work.old) (lain 0 lb work.old)) n n work.old work.new result }
    ensures spent { length out.new ≡ length out.old }
{
    if left % 2 == 1 {
        return times_to(work, n, lr, 0, lb, n, n, limits, out);
    }
    lr
}

// The power e of the base, to the front of `out`: each bit of the exponent below the highest is taken and the base is
// squared; the highest is taken into `out`.
fn squarings(
    work: &mut [f64],
    la: [usize; 4],
    e: u32,
    limits: [usize; 4],
    n: usize,
    out: &mut [f64],
) -> [usize; 4]
    requires fact_1 { Powers la limits e n (length work.old) (length out.old) }
    requires fact_2 { 0 < e }
    ensures stands { Stands (squared 32 limits e (constant_block one_f) (lain 0 la work.old)) out.new result }
    ensures spent { length work.new ≡ length work.old }
{
    work[n] = 1.0;
    let mut lr = [1usize; 4];
    let mut lb = la;
    let mut left = e;
    // A while, as `left` is halved: no index is counted.
    while 1 < left {
        let r = take_bit(work, left, lr, lb, n, limits, out);
        let b = times_to(work, 0, lb, 0, lb, 0, n, limits, out);
        lr = r;
        lb = b;
        left = left / 2;
    }
    times_front(work, n, lr, 0, lb, n, limits, out)
}

// One, the base or its power by squaring, to the front of `out`.
fn power_front(
    work: &mut [f64],
    la: [usize; 4],
    e: u32,
    limits: [usize; 4],
    n: usize,
    out: &mut [f64],
) -> [usize; 4]
    requires { Powers la limits e n (length work.old) (length out.old) }
    ensures stands { Stands (power_block e limits (lain 0 la work.old)) out.new result }
    ensures spent { length work.new ≡ length work.old }
{
    if e == 0 {
        out[0] = 1.0;
        return [1, 1, 1, 1];
    }
    if e == 1 {
        let z = shape_words::places::count_of(la);
        product::kernel::keep(work, z, out, 0);
        return la;
    }
    squarings(work, la, e, limits, n, out)
}

// The power e of the base, which is loaded already, then +0.0 to the end of `out`, which has the announced count n.
pub fn power_loaded(
    work: &mut [f64],
    la: [usize; 4],
    e: u32,
    limits: [usize; 4],
    n: usize,
    out: &mut [f64],
) -> [usize; 4]
    requires { Powers la limits e n (length work.old) (length out.old) }
    ensures lengths { result ≡ (power_block e limits (lain 0 la work.old)).lengths }
    ensures written { out.new ≡ padded n (power_block e limits (lain 0 la work.old)).places }
    ensures spent { length work.new ≡ length work.old }
{
    let r = power_front(work, la, e, limits, n, out);
    let z = shape_words::places::count_of(r);
    blocks::clear(&mut out[z..n]);
    r
}

// The operand at the front of the work. The power 0 asks for none: there the operand may be larger than the work.
pub fn load_base(a: &[f64], e: u32, work: &mut [f64])
    requires { 0 < e → length a.now ≤ length work.old }
    ensures { Loaded e a.now work.new }
{
    if e != 0 {
        let z = a.len();
        blocks::copy(a, &mut work[..z]);
    }
}

// The power e of an operand with the lengths la, then +0.0 to the end of `out`, which has the announced count n.
pub fn power_into(
    a: &[f64],
    la: [usize; 4],
    e: u32,
    limits: [usize; 4],
    n: usize,
    out: &mut [f64],
    work: &mut [f64],
) -> [usize; 4]
    requires fact_1 { Powers la limits e n (length work.old) (length out.old) }
    requires fact_2 { length a.now ≡ count la }
    ensures lengths { result ≡ (power_block e limits (block la a.now)).lengths }
    ensures written { out.new ≡ padded n (power_block e limits (block la a.now)).places }
    ensures spent { length work.new ≡ length work.old }
{
    load_base(a, e, work);
    power_loaded(work, la, e, limits, n, out)
}
