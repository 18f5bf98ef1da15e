// log, row by row; it recurses over the variables. One long variable has its own order of operations.
// At the front of the work lie the finished rows, and from n on the same rows, each times its number; the rest is for
// the inner quotient.
// A row is gathered in the buffer of the result.
#![tactic(auto)]

ghost use Rattle.std.specs.Prelude.{◌≡◌, true, false, cond, ◌+◌, ◌-◌, ◌*◌, ◌<◌, ltb, length, get_or, take};
ghost use Rattle.std.specs.Float.{nan};
ghost use Rattle.lists.specs.Table.{table};
ghost use Rattle.lists.specs.Part.{part, Below};
ghost use Rattle.lists.specs.Four.{at};
ghost use Rattle.lists.specs.Stack.{stack};
ghost use Rattle.model.specs.Header.{span, count};
ghost use Rattle.model.specs.Places.{index};
ghost use Rattle.model.specs.Poly.{block};
ghost use Rattle.model.specs.Add.{join_at};
ghost use Rattle.model.specs.Series.{after, log_rows};
ghost use Rattle.blocks.specs.Rows.{Joining};
ghost use Rattle.shape_words.specs.InRow.{in_row};
ghost use Rattle.series_gathering.specs.Reach.{Shaped};
ghost use Rattle.series_gathering.specs.Whole.{Whole};
ghost use Rattle.model.specs.Quotient.{recurred};
ghost use Rattle.series_log.specs.LogRow.{multiplied_by, LogRoom, left_row};
ghost use Rattle.series_log.specs.LogDone.{Divisor, Rowed, divided_row};
ghost use Rattle.series_log.specs.LogRows.{log_step};
ghost use Rattle.series_log.specs.LogBlock.{Long, LogShaped, RowsRoom};

// The length of the variable w, where it comes after v.
fn length_after(v: usize, w: usize, n: usize) -> usize
    ensures { result ≡ cond (ltb v w) n 1 }
{
    if v < w { n } else { 1 }
}

// The lengths of the variables after v alone.
fn after_of(v: usize, l: [usize; 4]) -> [usize; 4]
    ensures { result ≡ after v l }
{
    let a = length_after(v, 0, l[0]);
    let b = length_after(v, 1, l[1]);
    let c = length_after(v, 2, l[2]);
    let d = length_after(v, 3, l[3]);
    [a, b, c, d]
}

// The row with k times the operand's row added: ax and ar are the lengths of the two, `times` takes the product.
fn add_operand(
    k: usize,
    a: &[f64],
    ax: [usize; 4],
    ar: [usize; 4],
    times: &mut [f64],
    row: &mut [f64],
)
    requires fact_1 { k < 64 }
    requires fact_2 { length times.old ≡ length a.now }
    requires fact_3 { Joining ax ar (length a.now) (length row.old) }
    ensures row_after { row.new ≡ table (count ar)
        (λ i. join_at false (get_or row.old i nan)
        (block ax (multiplied_by k a.now)) (index ar i)) }
    ensures spent { length times.new ≡ length times.old }
{
    series_scaling::multiply(k, a, times);
    blocks::join_block(false, times, ax, ar, row);
}

// The row k of the variable v before it is divided: gathered from the rows before it, negated, k times the operand's
// row k added, where it is stored.
fn log_gather(
    xs: &[f64],
    lx: [usize; 4],
    sx: [usize; 4],
    r: [usize; 4],
    sr: [usize; 4],
    v: usize,
    k: usize,
    n: usize,
    work: &mut [f64],
    row: &mut [f64],
)
    requires fact_1 { Shaped lx sx r sr }
    requires fact_2 { LogRoom lx r v k n (length xs.now) (length work.old) (length row.old) }
    ensures row { row.new ≡ left_row lx r v k xs.now (part n (n + k * in_row r v) work.old) }
    ensures work { Below (2 * n) work.old work.new }
{
    let m = lx[v];
    let at = k * sr[v];
    let lo = series_log_line::first_turn(k, m);
    series_gathering::gather_rows(true, xs, lx, sx, &work[n..n + at], r, sr, v, k, lo, k, row);
    blocks::turn(row);
    if m <= k {
        return;
    }
    let t = sx[v];
    let from = k * t;
    let p = 2 * n;
    let ax = after_of(v, lx);
    let ar = after_of(v, r);
    add_operand(k, &xs[from..from + t], ax, ar, &mut work[p..p + t], row);
}

// The row over the operand's row 0, by the quotient's recurrence; ax and ar are the lengths of the two.
fn log_divide(xs: &[f64], ax: [usize; 4], ar: [usize; 4], work: &mut [f64], row: &mut [f64])
    requires { Divisor ax ar (length xs.now) (length work.old) (length row.old) }
    ensures row_after { row.new ≡ recurred (block ar row.old) (block ax xs.now) ar }
    ensures spent { length work.new ≡ length work.old }
{
    let s = row.len();
    let t = xs.len();
    blocks::copy(row, &mut work[..s]);
    blocks::copy(xs, &mut work[s..s + t]);
    quotient::kernel::recur(work, ar, s, ax, t, ar, row);
}

// The row k of the variable v; it goes behind the rows before it, and times k behind those times their numbers.
fn log_row(
    xs: &[f64],
    lx: [usize; 4],
    sx: [usize; 4],
    r: [usize; 4],
    sr: [usize; 4],
    v: usize,
    k: usize,
    n: usize,
    work: &mut [f64],
    row: &mut [f64],
)
    requires fact_1 { Shaped lx sx r sr }
    requires fact_2 { LogRoom lx r v k n (length xs.now) (length work.old) (length row.old) }
    ensures rowed { Rowed n (k * in_row r v) (k * in_row r v + in_row r v) k
        (divided_row lx r v k xs.now (part n (n + k * in_row r v) work.old))
        work.old work.new }
    ensures spent { length row.new ≡ length row.old }
{
    let s = sr[v];
    let t = sx[v];
    let at = k * s;
    let p = 2 * n;
    log_gather(xs, lx, sx, r, sr, v, k, n, work, row);
    let ax = after_of(v, lx);
    let ar = after_of(v, r);
    log_divide(&xs[0..t], ax, ar, &mut work[p..p + 8 * s], row);
    series_scaling::divide_by(k, row);
    blocks::copy(row, &mut work[at..at + s]);
    series_scaling::scale(k, row, &mut work[n + at..n + at + s]);
}

// The rows of the variable v after its row 0, which lies at the front of the work.
fn log_rows(
    xs: &[f64],
    lx: [usize; 4],
    sx: [usize; 4],
    r: [usize; 4],
    sr: [usize; 4],
    v: usize,
    n: usize,
    work: &mut [f64],
    row: &mut [f64],
)
    requires fact_1 { Shaped lx sx r sr }
    requires fact_2 { RowsRoom lx r v n (length xs.now) (length work.old) (length row.old) }
    requires fact_3 { v < 4 }
    ensures work_after { take (span r (4 - v) v) work.new
        ≡ stack (at r v - 1) (log_step lx r v xs.now) (take (in_row r v) work.old) }
    ensures spent { length row.new ≡ length row.old }
{
    let s = sr[v];
    for k in 1..r[v] {
        log_row(xs, lx, sx, r, sr, v, k, n, work, &mut row[..s]);
    }
}

// The sub-block of the variables from v on.
fn log_block(
    head: f64,
    xs: &[f64],
    lx: [usize; 4],
    sx: [usize; 4],
    r: [usize; 4],
    sr: [usize; 4],
    v: usize,
    n: usize,
    work: &mut [f64],
    row: &mut [f64],
)
    requires { (LogShaped lx sx r sr) × (RowsRoom lx r v n (length xs.now) (length work.old) (length row.old)) }
    ensures work_after { take (span r (4 - v) v) work.new ≡ log_rows head lx r (4 - v) v xs.now }
    ensures spent { length row.new ≡ length row.old }
{
    if v == 4 {
        work[0] = head;
        return;
    }
    if (r[v] != 1) & (sr[v] == 1) {
        let m = r[v];
        series_log_line::log_line(head, xs, lx[v], &mut work[..m]);
        return;
    }
    log_block(head, xs, lx, sx, r, sr, v + 1, n, work, row);
    log_rows(xs, lx, sx, r, sr, v, n, work, row);
}

// log of a block with the lengths lx: all of `out`, which has the lengths r and n places.
pub fn log_into(
    head: f64,
    xs: &[f64],
    lx: [usize; 4],
    r: [usize; 4],
    n: usize,
    out: &mut [f64],
    work: &mut [f64],
)
    requires fact_1 { Whole lx r n (length xs.now) (length out.old) (length work.old) }
    requires fact_2 { Long lx r }
    ensures out_after { out.new ≡ log_rows head lx r 4 0 xs.now }
    ensures spent { length work.new ≡ length work.old }
{
    let sx = shape_words::places::strides_of(lx);
    let sr = shape_words::places::strides_of(r);
    log_block(head, xs, lx, sx, r, sr, 0, n, work, out);
    blocks::copy(work, out);
}
