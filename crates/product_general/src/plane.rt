// Two long variables: a plane, whose rows are made of pairs of lines. It takes plain numbers in place of the lengths
// and strides: most calls of a product are made here.
ghost use Rattle.std.specs.Prelude.{◌≡◌, length};
ghost use Rattle.product_general.specs.Plane.{Lining, Planing, lines_of, plane_of};
ghost use Rattle.product_general.specs.Rows.{Strided, Rowing, Several, TwoLong, rows_of};

// What each pair of lines, for j from a up to b, adds to the row k, j ascending. tx and ty are the places in a row, nx
// and ny those of a line.
pub fn each_line(
    xs: &[f64],
    tx: usize,
    nx: usize,
    ys: &[f64],
    ty: usize,
    ny: usize,
    k: usize,
    a: usize,
    b: usize,
    row: &mut [f64],
)
    requires { Lining tx nx ty ny k a b (length xs.now) (length ys.now) (length row.old) }
    ensures { row.new ≡ lines_of xs.now tx nx ys.now ty ny k a b row.old }
{
    for j in a..b {
        let p = j * tx;
        let q = (k - j) * ty;
        product_lines::lines(&xs[p..], nx, &ys[q..], ny, row);
    }
}

// Each of the n rows of s places; mx and my are the numbers of rows on the left and on the right.
pub fn plane(
    xs: &[f64],
    mx: usize,
    tx: usize,
    nx: usize,
    ys: &[f64],
    my: usize,
    ty: usize,
    ny: usize,
    n: usize,
    s: usize,
    res: &mut [f64],
)
    requires { Planing mx tx nx my ty ny n s (length xs.now) (length ys.now) (length res.old) }
    ensures { res.new ≡ plane_of xs.now mx tx nx ys.now my ty ny s res.old }
{
    for k in 0..n {
        let at = k * s;
        let a = product_lines::from(k, my);
        let b = product_lines::upto(k, mx);
        each_line(xs, tx, nx, ys, ty, ny, k, a, b, &mut res[at..at + s]);
    }
}

// The sub-block of the variables from v on, where the one after v is the last long one.
pub fn two_long(
    xs: &[f64],
    lx: [usize; 4],
    sx: [usize; 4],
    ys: &[f64],
    ly: [usize; 4],
    sy: [usize; 4],
    r: [usize; 4],
    sr: [usize; 4],
    v: usize,
    res: &mut [f64],
)
    requires fact_1 { Strided lx sx ly sy r sr }
    requires fact_2 { Rowing lx ly r v (length xs.now) (length ys.now) (length res.old) }
    requires fact_3 { Several r v }
    requires fact_4 { TwoLong r v }
    ensures { res.new ≡ rows_of lx ly r v xs.now ys.now res.old }
{
    let w = v + 1;
    plane(
        xs, lx[v], sx[v], lx[w], ys, ly[v], sy[v], ly[w], r[v], sr[v], res,
    );
}
