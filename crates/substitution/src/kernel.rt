// What is put for a variable of a polynomial, from operands where they lie (crate shape_operands) to a part of `out`:
// for a call and for a step of a run. A part of `out` cannot be lent beside another, so what is asked of the operands
// is read before the result's part is lent, a row of Horner's rule at a time.
// Scratch is used in blocks of n places, n the announced count: first what is put, cut to the limits, then the running
// value of Horner's rule, then one row of the polynomial, then what the product needs.
ghost use Rattle.std.specs.Prelude.{◌≡◌, true, false, suc, ◌+◌, ◌*◌, ◌≤◌, ◌<◌, length, take, set};
ghost use Rattle.lists.specs.Four.{at as length_at};
ghost use Rattle.lists.specs.Table.{table};
ghost use Rattle.lists.specs.Part.{part, Kept};
ghost use Rattle.model.specs.declared.Family.TheVariants.{Substitution};
ghost use Rattle.model.specs.Header.{count, stored};
ghost use Rattle.model.specs.Places.{index};
ghost use Rattle.model.specs.Limits.{cut_to};
ghost use Rattle.model.specs.Refusals.{zero_f, padded};
ghost use Rattle.model.specs.Poly.{block, block_of, read_at};
ghost use Rattle.model.specs.Product.{is_zero, constant_block};
ghost use Rattle.model.specs.Substitute.{row_at, powered, horner, substitute_poly};
ghost use Rattle.shape_words.specs.Rules.{Ruled};
ghost use Rattle.blocks.specs.Rows.{Cutting};
ghost use Rattle.blocks.specs.Two.{cut_places};
ghost use Rattle.readings_row.specs.Rows.{Picking};
ghost use Rattle.shape_operands.specs.Lent.{Lent};
ghost use Rattle.shape_operands.specs.Operand.{taken, Within, AsideAt};
ghost use Rattle.shape_operands.specs.Announces.{Announces};
ghost use Rattle.product.specs.Room.{Put, Stands};
ghost use Rattle.substitution_way.specs.Way.{way_of, put_for};
ghost use Rattle.substitution.specs.Room.{row_of, Given, Puts, Cuts, turns, Hornering};
ghost use Rattle.substitution.specs.Placed.{plain_of, Plain, Wrote};

use model::Header;
use readings_row::pick;
use shape::limits::cut_to;
use shape_operands::Operand;
use shape_words::places::count_of;
use substitution_way::Way;

// The lengths of a row of v: 1 there, cut to the limits elsewhere.
fn row_lengths(limits: [usize; 4], v: usize, n: [usize; 4]) -> [usize; 4]
    requires { v < 4 }
    ensures { result ≡ row_of limits v n }
{
    let mut r = shape::limits::cut_to(limits, n);
    r[v] = 1;
    r
}

// The highest power of v that a block with the lengths n stores.
fn highest(n: [usize; 4], v: usize) -> usize
    requires { (v < 4) × (0 < length_at n v) }
    ensures { length_at n v ≡ suc result }
{
    n[v] - 1
}

// The row k of v, whose lengths are c, to `work` from `at` on.
fn load_row(
    a: &[f64],
    la: [usize; 4],
    c: [usize; 4],
    v: usize,
    k: usize,
    at: usize,
    work: &mut [f64],
)
    requires fact_1 { Picking la c v k (length a.now) (count c) }
    requires fact_2 { at + count c ≤ length work.old }
    ensures { Kept at (at + count c) (table (count c) (λ p. read_at (block la a.now) (set (index c p) v k)))
        work.old work.new }
{
    let e = at + count_of(c);
    pick(a, la, c, v, k, &mut work[at..e]);
}

// b is zero: the row 0 of v.
fn zero_put(a: &[f64], la: [usize; 4], v: usize, limits: [usize; 4], out: &mut [f64]) -> [usize; 4]
    requires { Cuts la (row_of limits v la) v (length a.now) (length out.old) }
    ensures { Put (row_at limits v (block la a.now) 0) out.old out.new result }
{
    let c = row_lengths(limits, v, la);
    let z = count_of(c);
    pick(a, la, c, v, 0, &mut out[..z]);
    c
}

// b is m times v: row k times m to the k.
fn line_put(
    a: &[f64],
    la: [usize; 4],
    v: usize,
    m: f64,
    limits: [usize; 4],
    out: &mut [f64],
) -> [usize; 4]
    requires { Cuts la (cut_to limits la) v (length a.now) (length out.old) }
    ensures { Put (powered limits v (block la a.now) m) out.old out.new result }
{
    let c = shape::limits::cut_to(limits, la);
    let z = count_of(c);
    blocks::load(a, la, c, &mut out[..z]);
    let strides = shape_words::places::strides_of(c);
    let s = strides[v];
    substitution_powers::power_parts(m, s, c[v] * s, &mut out[..z]);
    c
}

// The value of every way but Horner's rule, to the front of `out`.
fn plain_put(
    w: Way,
    a: &[f64],
    la: [usize; 4],
    v: usize,
    limits: [usize; 4],
    out: &mut [f64],
) -> [usize; 4]
    requires { Plain w la limits v (length a.now) (length out.old) }
    ensures { Stands (plain_of w limits v (block la a.now)) out.new result }
{
    match w {
        Way::Same => {
            blocks::copy(a, out);
            la
        }
        Way::Zero => zero_put(a, la, v, limits, out),
        Way::Powers(line) => line_put(a, la, v, line.m, limits, out),
        Way::Horner => unreachable!(),
    }
}

// Which way what is put goes for v, from where it lies.
fn way_from<'a>(vars: usize, v: usize, q: Operand, b: &'a [f64], earlier: &'a [f64]) -> Way
    requires fact_1 { Ruled q.head }
    requires fact_2 { Within q b.now earlier.now }
    ensures { result ≡ way_of vars v (block_of (taken q b.now earlier.now)) }
{
    let y = q.head;
    let lb = y.lengths;
    let put = shape_operands::stretch(q.input, b, earlier, q.from, q.count);
    substitution_way::choose(vars, v, put, lb)
}

// The value of every way but Horner's rule, of a polynomial where it lies.
fn plain_from<'a>(
    w: Way,
    v: usize,
    p: Operand,
    limits: [usize; 4],
    a: &'a [f64],
    earlier: &'a [f64],
    out: &mut [f64],
) -> [usize; 4]
    requires fact_1 { Plain w p.head.lengths limits v (stored p.head) (length out.old) }
    requires fact_2 { Within p a.now earlier.now }
    ensures { Stands (plain_of w limits v (block_of (taken p a.now earlier.now))) out.new result }
{
    let x = p.head;
    let la = x.lengths;
    let given = shape_operands::stretch(p.input, a, earlier, p.from, p.count);
    plain_put(w, given, la, v, limits, out)
}

// The same of a polynomial that is given, straight to the front of the result's part of `out`.
fn plain_given(
    w: Way,
    v: usize,
    p: Operand,
    limits: [usize; 4],
    n: usize,
    a: &[f64],
    out: &mut [f64],
    at: usize,
) -> [usize; 4]
    requires fact_1 { Plain w p.head.lengths limits v (stored p.head) n }
    requires fact_2 { AsideAt p at n (length a.now) (length out.old) }
    requires fact_3 { p.input ≡ true }
    requires fact_4 { at + n ≤ length out.old }
    ensures { Wrote at n (plain_of w limits v (block_of (taken p a.now out.old)))
        out.old out.new result }
{
    let end = at + n;
    plain_from(w, v, p, limits, a, a, &mut out[at..end])
}

// The same of one that lies in `out`, by way of the work.
fn plain_earlier(
    w: Way,
    v: usize,
    p: Operand,
    limits: [usize; 4],
    n: usize,
    a: &[f64],
    out: &mut [f64],
    at: usize,
    work: &mut [f64],
) -> [usize; 4]
    requires fact_1 { Plain w p.head.lengths limits v (stored p.head) n }
    requires fact_2 { AsideAt p at n (length a.now) (length out.old) }
    requires fact_3 { at + n ≤ length out.old }
    requires fact_4 { length work.old ≡ 8 * n }
    ensures wrote { Wrote at n (plain_of w limits v (block_of (taken p a.now out.old)))
        out.old out.new result }
    ensures spent { length work.new ≡ length work.old }
{
    let r = plain_from(w, v, p, limits, a, out, &mut work[..n]);
    product::kernel::keep(work, n, out, at);
    r
}

// The row k of v, whose lengths are c, to `work` from `to` on.
fn row_from<'a>(
    p: Operand,
    c: [usize; 4],
    v: usize,
    k: usize,
    a: &'a [f64],
    earlier: &'a [f64],
    to: usize,
    work: &mut [f64],
)
    requires fact_1 { Picking p.head.lengths c v k (stored p.head) (count c) }
    requires fact_2 { to + count c ≤ length work.old }
    requires fact_3 { Within p a.now earlier.now }
    ensures { Kept to (to + count c) (table (count c)
        (λ i. read_at (block_of (taken p a.now earlier.now)) (set (index c i) v k)))
        work.old work.new }
{
    let x = p.head;
    let la = x.lengths;
    let given = shape_operands::stretch(p.input, a, earlier, p.from, p.count);
    load_row(given, la, c, v, k, to, work);
}

// What is put, cut to the lengths c, to the front of `work`.
fn put_from<'a>(q: Operand, c: [usize; 4], b: &'a [f64], earlier: &'a [f64], work: &mut [f64])
    requires fact_1 { Cutting q.head.lengths c (stored q.head) (count c) }
    requires fact_2 { count c ≤ length work.old }
    requires fact_3 { Within q b.now earlier.now }
    ensures { Kept 0 (count c) (cut_places q.head.lengths c (taken q b.now earlier.now).coeffs)
        work.old work.new }
{
    let y = q.head;
    let lb = y.lengths;
    let put = shape_operands::stretch(q.input, b, earlier, q.from, q.count);
    let z = count_of(c);
    blocks::load(put, lb, c, &mut work[..z]);
}

// Horner's rule over the rows below k, the highest first: r the lengths of the running value, b those of what is put, c
// those of a row.
fn rows_to(
    p: Operand,
    v: usize,
    k: usize,
    r: [usize; 4],
    b: [usize; 4],
    c: [usize; 4],
    limits: [usize; 4],
    n: usize,
    a: &[f64],
    out: &mut [f64],
    at: usize,
    work: &mut [f64],
) -> [usize; 4]
    requires fact_1 { Hornering p.head.lengths v k r b c limits n (stored p.head) n (length work.old) }
    requires fact_2 { take (count r) (part at (at + n) out.old) ≡ part n (n + count r) work.old }
    requires fact_3 { AsideAt p at n (length a.now) (length out.old) }
    requires fact_4 { at + n ≤ length out.old }
    ensures wrote { Wrote at n (turns limits v (block_of (taken p a.now out.old)) k
        (block b (part 0 (count b) work.old)) (block r (part n (n + count r) work.old)))
        out.old out.new result }
    ensures spent { length work.new ≡ length work.old }
{
    let row = 2 * n;
    let end = at + n;
    let mut value = r;
    for left in (0..k).rev() {
        row_from(p, c, v, left, a, out, row, work);
        // not into `value` at once: the borrow checker does not cover a call's array laid in a loop's variable
        let next = substitution_turn::turn(work, n, value, b, c, limits, &mut out[at..end]);
        value = next;
    }
    value
}

// Horner's rule from the highest power of v, every power counted. Where there is one row alone, what is put is not
// needed, and may be too large.
fn horner_to(
    v: usize,
    p: Operand,
    q: Operand,
    limits: [usize; 4],
    n: usize,
    a: &[f64],
    b: &[f64],
    out: &mut [f64],
    at: usize,
    work: &mut [f64],
) -> [usize; 4]
    requires fact_1 { Puts p.head.lengths q.head.lengths limits v n (stored p.head) (stored q.head) n (length work.old) }
    requires fact_2 { is_zero (block_of (taken q b.now out.old)) ≡ false }
    requires fact_3 { AsideAt p at n (length a.now) (length out.old) × AsideAt q at n (length b.now) (length out.old) }
    requires fact_4 { at + n ≤ length out.old }
    ensures wrote { Wrote at n (horner limits v (block_of (taken p a.now out.old))
        (length_at p.head.lengths v) (block_of (taken q b.now out.old))
        (constant_block zero_f)) out.old out.new result }
    ensures spent { length work.new ≡ length work.old }
{
    let x = p.head;
    let y = q.head;
    let la = x.lengths;
    let c = row_lengths(limits, v, la);
    let last = highest(la, v);
    let row = 2 * n;
    let end = at + n;
    row_from(p, c, v, last, a, out, row, work);
    let r = substitution_turn::first_turn(work, n, c, &mut out[at..end]);
    if last == 0 {
        return r;
    }
    let lb = y.lengths;
    let lengths = cut_to(limits, lb);
    put_from(q, lengths, b, out, work);
    rows_to(p, v, last, r, lengths, c, limits, n, a, out, at, work)
}

// The value to the front of its part of `out`.
fn front_to(
    v: usize,
    p: Operand,
    q: Operand,
    h: Header,
    n: usize,
    a: &[f64],
    b: &[f64],
    out: &mut [f64],
    at: usize,
    work: &mut [f64],
) -> [usize; 4]
    requires fact_1 { Given p.head q.head h v n (stored p.head) (stored q.head) n (length work.old) }
    requires fact_2 { AsideAt p at n (length a.now) (length out.old) }
    requires fact_3 { AsideAt q at n (length b.now) (length out.old) }
    requires fact_4 { at + n ≤ length out.old }
    ensures wrote { Wrote at n (put_for p.head.vars h.limits v (block_of (taken p a.now out.old))
        (block_of (taken q b.now out.old))) out.old out.new result }
    ensures spent { length work.new ≡ length work.old }
{
    let x = p.head;
    let limits = h.limits;
    let w = way_from(x.vars, v, q, b, out);
    if let Way::Horner = w {
        return horner_to(v, p, q, limits, n, a, b, out, at, work);
    }
    if p.input {
        return plain_given(w, v, p, limits, n, a, out, at);
    }
    plain_earlier(w, v, p, limits, n, a, out, at, work)
}

// The value, then +0.0, to the n places of `out` from `at` on, n the announced count; answers its header. h is the
// announced one.
pub fn substitute_to(
    v: usize,
    p: Operand,
    q: Operand,
    h: Header,
    n: usize,
    a: &[f64],
    b: &[f64],
    out: &mut [f64],
    at: usize,
    scratch: &mut [f64],
) -> Header
    requires fact_1 { Announces (Substitution v) p.head q.head h n }
    requires fact_2 { AsideAt p at n (length a.now) (length out.old) }
    requires fact_3 { AsideAt q at n (length b.now) (length out.old) }
    requires fact_4 { Lent n at (length out.old) (length scratch.old) }
    ensures head { result ≡ (substitute_poly v (taken p a.now out.old)
        (taken q b.now out.old)).head }
    ensures kept { Kept at (at + n) (padded n (substitute_poly v (taken p a.now out.old)
        (taken q b.now out.old)).coeffs) out.old out.new }
    ensures spent { length scratch.new ≡ length scratch.old }
{
    let room = 8 * n;
    let r = front_to(v, p, q, h, n, a, b, out, at, &mut scratch[..room]);
    let z = count_of(r);
    shape_operands::pad(out, at + z, at + n);
    Header::with_lengths(h, r)
}
