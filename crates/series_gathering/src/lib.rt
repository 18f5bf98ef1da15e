// One row of a series, gathered from the rows before it: sums of products of rows.
#![tactic(auto)]

ghost use Rattle.std.specs.Prelude.{◌≡◌, false, ◌+◌, ◌-◌, ◌*◌, ◌≤◌, ◌<◌, min, length};
ghost use Rattle.lists.specs.Four.{at};
ghost use Rattle.product_general.specs.Rows.{Strided};
ghost use Rattle.series_gathering.specs.Reach.{left_of, Reach, Shaped, Gathering};
ghost use Rattle.series_gathering.specs.Gather.{gathered};

// The number of the left row at the turn j.
fn left_row(back: bool, k: usize, j: usize) -> usize
    requires { j ≤ k }
    ensures { result ≡ left_of back k j }
{
    if back { k - j } else { j }
}

// The row k of the variable v, from +0.0: for j from lo up to hi the row j of xs times the row k - j of ys; or,
// backwards, k - j and j.
pub fn gather_rows(
    back: bool,
    xs: &[f64],
    lx: [usize; 4],
    sx: [usize; 4],
    ys: &[f64],
    r: [usize; 4],
    sr: [usize; 4],
    v: usize,
    k: usize,
    lo: usize,
    hi: usize,
    row: &mut [f64],
)
    requires fact_1 { Strided lx sx r sr r sr }
    requires fact_2 { Gathering lx r v k (length xs.now) (length ys.now) (length row.old) }
    requires fact_3 { Reach back k (at lx v) lo hi }
    ensures { row.new ≡ gathered back lx r v k lo hi xs.now ys.now }
{
    blocks::clear(row);
    let w = v + 1;
    let t = sx[v];
    let s = sr[v];
    for j in lo..hi {
        let i = left_row(back, k, j);
        let p = i * t;
        let q = (k - i) * s;
        product_general::rows(&xs[p..p + t], lx, sx, &ys[q..q + s], r, sr, r, sr, w, row);
    }
}

// The row k of exp before it is divided: x's row j, weighed, times the finished row k - j, as far as x reaches. Where a
// row is one place, it is one sum.
pub fn gather(
    xs: &[f64],
    lx: [usize; 4],
    sx: [usize; 4],
    done: &[f64],
    r: [usize; 4],
    sr: [usize; 4],
    v: usize,
    k: usize,
    row: &mut [f64],
)
    requires fact_1 { Shaped lx sx r sr }
    requires fact_2 { Gathering lx r v k (length xs.now) (length done.now) (length row.old) }
    ensures { row.new ≡ gathered false lx r v k 1 (min (k + 1) (at lx v)) xs.now done.now }
{
    let hi = product_lines::upto(k, lx[v]);
    if sr[v] == 1 {
        row[0] = product_lines::sum_on(xs, done, k, 1, hi, 0.0);
        return;
    }
    gather_rows(false, xs, lx, sx, done, r, sr, v, k, 1, hi, row);
}
