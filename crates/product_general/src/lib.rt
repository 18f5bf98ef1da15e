// The general product of two blocks, row by row (document 01, port order 4).
#![tactic(auto)]

pub mod plane;

ghost use Rattle.std.specs.Prelude.{◌≡◌, length};
ghost use Rattle.lists.specs.Four.{at};
ghost use Rattle.model.specs.General.{general as generalPlaces};
ghost use Rattle.product_general.specs.Rows.{Multiplying, Strided, Rowing, Several, Pairing, rows_of, pairs_of};

// The row k of the variable v of the result: what each pair of a row of xs and one of ys adds to it, j ascending.
#[cycle(each_pair_each_row_rows)]
fn each_pair(
    xs: &[f64],
    lx: [usize; 4],
    sx: [usize; 4],
    ys: &[f64],
    ly: [usize; 4],
    sy: [usize; 4],
    r: [usize; 4],
    sr: [usize; 4],
    v: usize,
    k: usize,
    row: &mut [f64],
)
    requires { (Strided lx sx ly sy r sr) × (Pairing lx ly r v k (length xs.now) (length ys.now) (length row.old)) }
    ensures { row.new ≡ pairs_of lx ly r v k (at sx v) (at sy v) xs.now ys.now row.old }
{
    let w = v + 1;
    let tx = sx[v];
    let ty = sy[v];
    let lo = product_lines::from(k, ly[v]);
    let hi = product_lines::upto(k, lx[v]);
    for j in lo..hi {
        let p = j * tx;
        let q = (k - j) * ty;
        rows(&xs[p..], lx, sx, &ys[q..], ly, sy, r, sr, w, row);
    }
}

// Each row of the variable v of the result.
#[cycle(each_pair_each_row_rows)]
fn each_row(
    xs: &[f64],
    lx: [usize; 4],
    sx: [usize; 4],
    ys: &[f64],
    ly: [usize; 4],
    sy: [usize; 4],
    r: [usize; 4],
    sr: [usize; 4],
    v: usize,
    res: &mut [f64],
)
    requires { (Strided lx sx ly sy r sr) × ((Rowing lx ly r v (length xs.now) (length ys.now) (length res.old)) × (Several r v)) }
    ensures { res.new ≡ rows_of lx ly r v xs.now ys.now res.old }
{
    let s = sr[v];
    for k in 0..r[v] {
        let at = k * s;
        each_pair(xs, lx, sx, ys, ly, sy, r, sr, v, k, &mut res[at..at + s]);
    }
}

// The sub-block of the variables from v on: what they add to each of its places.
#[cycle(each_pair_each_row_rows)]
pub fn rows(
    xs: &[f64],
    lx: [usize; 4],
    sx: [usize; 4],
    ys: &[f64],
    ly: [usize; 4],
    sy: [usize; 4],
    r: [usize; 4],
    sr: [usize; 4],
    v: usize,
    res: &mut [f64],
)
    requires { (Strided lx sx ly sy r sr) × (Rowing lx ly r v (length xs.now) (length ys.now) (length res.old)) }
    ensures { res.new ≡ rows_of lx ly r v xs.now ys.now res.old }
{
    if v == 4 {
        res[0] = res[0] + xs[0] * ys[0];
        return;
    }
    if (r[v] != 1) & (sr[v] == 1) {
        // one pair of lines: `lines` is called in one place only, and the compiler puts it inline there
        let nx = lx[v];
        let ny = ly[v];
        plane::each_line(xs, 0, nx, ys, 0, ny, 0, 0, 1, res);
        return;
    }
    let w = v + 1;
    if w < 4 {
        if (r[w] != 1) & (sr[w] == 1) {
            plane::two_long(xs, lx, sx, ys, ly, sy, r, sr, v, res);
            return;
        }
    }
    each_row(xs, lx, sx, ys, ly, sy, r, sr, v, res);
}

// The general product of two blocks with the lengths lx and ly: all of `out`, which has the lengths r.
pub fn general(
    xs: &[f64],
    lx: [usize; 4],
    ys: &[f64],
    ly: [usize; 4],
    r: [usize; 4],
    out: &mut [f64],
)
    requires { Multiplying lx ly r (length xs.now) (length ys.now) (length out.old) }
    ensures { out.new ≡ generalPlaces lx ly r xs.now ys.now }
{
    blocks::clear(out);
    let sx = shape_words::places::strides_of(lx);
    let sy = shape_words::places::strides_of(ly);
    let sr = shape_words::places::strides_of(r);
    rows(xs, lx, sx, ys, ly, sy, r, sr, 0, out);
}
