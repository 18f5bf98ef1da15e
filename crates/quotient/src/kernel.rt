// The quotient of two blocks: by a constant, or by the recurrence, row by row, which recurses over the variables.
// In the work lie the dividend, the divisor, the finished places, and behind these, used as a stack, what each level
// still has to divide.
ghost use Rattle.std.specs.Prelude.{◌≡◌, ◌+◌, ◌*◌, ◌<◌, false, cond, length, get_or, take};
ghost use Rattle.std.specs.Float.{nan};
ghost use Rattle.std.specs.Float.Ieee.{eq};
ghost use Rattle.lists.specs.Four.{at};
ghost use Rattle.lists.specs.Table.{table};
ghost use Rattle.lists.specs.Part.{part};
ghost use Rattle.model.specs.Header.{count};
ghost use Rattle.model.specs.Places.{index};
ghost use Rattle.model.specs.Poly.{block};
ghost use Rattle.model.specs.Readings.{one_f};
ghost use Rattle.model.specs.Add.{join_at};
ghost use Rattle.model.specs.Quotient.{divided_at, recurred, divided};
ghost use Rattle.shape_words.specs.InRow.{in_row};
ghost use Rattle.quotient_lessening.specs.Laid.{Laid};
ghost use Rattle.quotient_levels.specs.Room.{Dividing, Room, RowRoom};
ghost use Rattle.quotient.specs.Room.{Adding, First, Recurring, Divides, loaded_quotient};
ghost use Rattle.quotient.specs.First.{first_at};

// Each place divided by c.
fn divide_by(c: f64, a: &[f64], to: &mut [f64])
    requires { length to.old ≡ length a.now }
    ensures { to.new ≡ table (length a.now) (divided_at c a.now) }
{
    for (k, place) in to.iter_mut().enumerate() {
        *place = a[k] / c;
    }
}

// The row k, with what the dividend stores in it added.
fn add_dividend(xs: &[f64], lx: [usize; 4], r: [usize; 4], k: usize, row: &mut [f64])
    requires { Adding lx r k (length xs.now) (length row.old) }
    ensures { row.new ≡ table (in_row r 0)
        (λ i. join_at false (get_or row.old i nan) (block lx xs.now)
        (index r (k * in_row r 0 + i))) }
{
    if lx[0] <= k {
        return;
    }
    let n = [1, lx[1], lx[2], lx[3]];
    let m = [1, r[1], r[2], r[3]];
    let from = k * shape_words::places::count_of(n);
    blocks::join_block(false, &xs[from..], n, m, row);
}

// What the row k of the whole still has to divide: what the rows before it take, negated, then the dividend added. It
// goes to p.
fn gather_first(
    work: &mut [f64],
    lx: [usize; 4],
    nx: usize,
    p: usize,
    q: usize,
    b: usize,
    f: usize,
    ly: [usize; 4],
    sy: [usize; 4],
    r: [usize; 4],
    sr: [usize; 4],
    k: usize,
    row: &mut [f64],
)
    requires fact_1 { Dividing ly sy r sr }
    requires fact_2 { First lx r nx q }
    requires fact_3 { RowRoom ly r 0 k p (p + count r) q b f (length work.old) (length row.old) }
    ensures laid { Laid p (table (in_row r 0) (first_at lx (take nx work.old) ly r k
        (part q (q + k * in_row r 0) work.old) (part b f work.old))) (length work.old)
        work.old work.new }
    ensures spent { length row.new ≡ length row.old }
{
    let s = sr[0];
    let end = q + k * s;
    quotient_levels::taken_row(&work[q..end], &work[b..f], ly, sy, r, sr, 0, k, row);
    blocks::turn(row);
    add_dividend(&work[..nx], lx, r, k, row);
    blocks::copy(row, &mut work[p..p + s]);
}

// Each row of the whole: the dividend lies at the front of the work, nx places; the quotient goes to q.
fn each_first(
    work: &mut [f64],
    lx: [usize; 4],
    nx: usize,
    p: usize,
    q: usize,
    b: usize,
    f: usize,
    ly: [usize; 4],
    sy: [usize; 4],
    r: [usize; 4],
    sr: [usize; 4],
    row: &mut [f64],
)
    requires fact_1 { Dividing ly sy r sr }
    requires fact_2 { First lx r nx q }
    requires fact_3 { Room ly r 0 p (p + count r) q b f (length work.old) (length row.old) }
    ensures laid { Laid q (recurred (block lx (take nx work.old)) (block ly (part b f work.old)) r) p
        work.old work.new }
    ensures spent { length row.new ≡ length row.old }
{
    let s = sr[0];
    let end = p + s;
    for k in 0..r[0] {
        let at = q + k * s;
        gather_first(work, lx, nx, p, q, b, f, ly, sy, r, sr, k, &mut row[..s]);
        quotient_levels::level(work, p, end, at, b, f, ly, sy, r, sr, 1, row);
    }
}

// The recurrence: the dividend lies in the work from 0, the divisor from as many places on as the quotient has.
pub fn recur(
    work: &mut [f64],
    lx: [usize; 4],
    nx: usize,
    ly: [usize; 4],
    ny: usize,
    r: [usize; 4],
    out: &mut [f64],
)
    requires { Recurring lx ly r nx ny (length work.old) (length out.old) }
    ensures out_after { out.new ≡ recurred (block lx (take nx work.old))
        (block ly (part (length out.old) (length out.old + ny) work.old)) r }
    ensures spent { length work.new ≡ length work.old }
{
    let n = out.len();
    let sy = shape_words::places::strides_of(ly);
    let sr = shape_words::places::strides_of(r);
    let q = 2 * n;
    let p = 3 * n;
    each_first(work, lx, nx, p, q, n, n + ny, ly, sy, r, sr, out);
    blocks::copy(&work[q..p], out);
}

// By a constant: nothing to do where it is one.
fn divide_constant(c: f64, a: &[f64], to: &mut [f64])
    requires { length to.old ≡ length a.now }
    ensures { to.new ≡ cond (eq c one_f) a.now (table (length a.now) (divided_at c a.now)) }
{
    if c == 1.0 {
        blocks::copy(a, to);
        return;
    }
    divide_by(c, a, to);
}

// The quotient of two operands that are loaded already, cut to the limits: the dividend, na places, at the front of the
// work, the divisor, nb places, from as many places on as the quotient has, whose lengths are r.
pub fn divide_loaded(
    work: &mut [f64],
    ca: [usize; 4],
    na: usize,
    cb: [usize; 4],
    nb: usize,
    r: [usize; 4],
    out: &mut [f64],
)
    requires fact_1 { Recurring ca cb r na nb (length work.old) (length out.old) }
    requires fact_2 { (nb ≡ 1 → length out.old ≡ na) }
    ensures out_after { out.new ≡ loaded_quotient ca na cb nb r (length out.old) work.old }
    ensures spent { length work.new ≡ length work.old }
{
    let n = out.len();
    if nb == 1 {
        divide_constant(work[n], &work[..na], out);
        return;
    }
    recur(work, ca, na, cb, nb, r, out);
}

// The quotient of two operands with the lengths la and lb under the limits: all of `out`. r are the announced lengths.
pub fn divide_into(
    a: &[f64],
    la: [usize; 4],
    b: &[f64],
    lb: [usize; 4],
    limits: [usize; 4],
    r: [usize; 4],
    out: &mut [f64],
    work: &mut [f64],
)
    requires { Divides la lb limits r (length a.now) (length b.now) (length out.old) (length work.old) }
    ensures out_after { out.new ≡ (divided limits (block la a.now) (block lb b.now)).places }
    ensures spent { length work.new ≡ length work.old }
{
    let n = out.len();
    let ca = shape::limits::cut_to(limits, la);
    let cb = shape::limits::cut_to(limits, lb);
    blocks::load_two(a, la, ca, b, lb, cb, n, work);
    let na = shape_words::places::count_of(ca);
    let nb = shape_words::places::count_of(cb);
    divide_loaded(work, ca, na, cb, nb, r, out);
}
