// exp, row by row; it recurses over the variables.
// At the front of the work lie the finished rows, and from n on the operand's rows, each times its number. A row is
// gathered in the buffer of the result.
#![tactic(auto)]

ghost use Rattle.std.specs.Prelude.{◌≡◌, false, ◌+◌, ◌-◌, ◌*◌, ◌<◌, min, length, take};
ghost use Rattle.lists.specs.Four.{at};
ghost use Rattle.lists.specs.Stack.{stack};
ghost use Rattle.lists.specs.Part.{part, Kept};
ghost use Rattle.model.specs.Header.{span};
ghost use Rattle.model.specs.Series.{over_whole, exp_rows};
ghost use Rattle.shape_words.specs.InRow.{in_row};
ghost use Rattle.series_gathering.specs.Reach.{Shaped};
ghost use Rattle.series_exp.specs.Room.{RowRoom, Room};
ghost use Rattle.series_gathering.specs.Whole.{Whole};
ghost use Rattle.series_gathering.specs.Gather.{gathered};
ghost use Rattle.series_exp.specs.NextRow.{next_row};

// The row k of the variable v, over k; it goes behind the rows before it, which lie at the front of the work. The
// operand's rows lie from n up to e.
fn exp_row(
    work: &mut [f64],
    n: usize,
    e: usize,
    lx: [usize; 4],
    sx: [usize; 4],
    r: [usize; 4],
    sr: [usize; 4],
    v: usize,
    k: usize,
    row: &mut [f64],
)
    requires fact_1 { Shaped lx sx r sr }
    requires fact_2 { RowRoom lx r v k n e (length work.old) (length row.old) }
    ensures kept { Kept (k * in_row r v) (k * in_row r v + in_row r v)
        (over_whole k (gathered false lx r v k 1 (min (k + 1) (at lx v)) (part n e work.old)
        (take (k * in_row r v) work.old))) work.old work.new }
    ensures spent { length row.new ≡ length row.old }
{
    let at = k * sr[v];
    let end = at + sr[v];
    series_gathering::gather(&work[n..e], lx, sx, &work[0..at], r, sr, v, k, row);
    series_scaling::divide_by(k, row);
    blocks::copy(row, &mut work[at..end]);
}

// The rows of the variable v after its row 0, which lies at the front of the work.
fn exp_rows(
    xs: &[f64],
    lx: [usize; 4],
    sx: [usize; 4],
    r: [usize; 4],
    sr: [usize; 4],
    v: usize,
    n: usize,
    work: &mut [f64],
    row: &mut [f64],
)
    requires fact_1 { Shaped lx sx r sr }
    requires fact_2 { Room lx r v n (length xs.now) (length work.old) (length row.old) }
    requires fact_3 { v < 4 }
    ensures work_after { take (span r (4 - v) v) work.new
        ≡ stack (at r v - 1) (next_row lx r v xs.now) (take (in_row r v) work.old) }
    ensures spent { length row.new ≡ length row.old }
{
    let t = sx[v];
    let s = sr[v];
    let e = n + lx[v] * t;
    series_scaling::weigh(xs, t, &mut work[n..e]);
    for k in 1..r[v] {
        exp_row(work, n, e, lx, sx, r, sr, v, k, &mut row[..s]);
    }
}

// The sub-block of the variables from v on: its row 0 first, which is the sub-block of the variables after v.
fn exp_block(
    head: f64,
    xs: &[f64],
    lx: [usize; 4],
    sx: [usize; 4],
    r: [usize; 4],
    sr: [usize; 4],
    v: usize,
    n: usize,
    work: &mut [f64],
    row: &mut [f64],
)
    requires { (Shaped lx sx r sr) × (Room lx r v n (length xs.now) (length work.old) (length row.old)) }
    ensures work_after { take (span r (4 - v) v) work.new ≡ exp_rows head lx r (4 - v) v xs.now }
    ensures spent { length row.new ≡ length row.old }
{
    if v == 4 {
        work[0] = head;
        return;
    }
    exp_block(head, xs, lx, sx, r, sr, v + 1, n, work, row);
    exp_rows(xs, lx, sx, r, sr, v, n, work, row);
}

// exp of a block with the lengths lx: all of `out`, which has the lengths r and n places.
pub fn exp_into(
    head: f64,
    xs: &[f64],
    lx: [usize; 4],
    r: [usize; 4],
    n: usize,
    out: &mut [f64],
    work: &mut [f64],
)
    requires { Whole lx r n (length xs.now) (length out.old) (length work.old) }
    ensures out_after { out.new ≡ exp_rows head lx r 4 0 xs.now }
    ensures spent { length work.new ≡ length work.old }
{
    let sx = shape_words::places::strides_of(lx);
    let sr = shape_words::places::strides_of(r);
    exp_block(head, xs, lx, sx, r, sr, 0, n, work, out);
    blocks::copy(work, out);
}
