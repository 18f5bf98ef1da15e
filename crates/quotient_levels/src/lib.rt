// The quotient from a variable on: rows of the variables left, each lessened by what the rows before it take. It
// recurses over the variables.
// In the work lie the divisor, the finished places, and behind these, used as a stack, what each level still has to
// divide.
#![tactic(auto)]

ghost use Rattle.std.specs.Prelude.{◌≡◌, ◌+◌, ◌-◌, ◌*◌, ◌<◌, length};
ghost use Rattle.lists.specs.Four.{at};
ghost use Rattle.lists.specs.Table.{table};
ghost use Rattle.lists.specs.Walk.{walk};
ghost use Rattle.lists.specs.Part.{part};
ghost use Rattle.shape_words.specs.InRow.{in_row};
ghost use Rattle.product_general.specs.Rows.{Strided};
ghost use Rattle.quotient_lessening.specs.Laid.{Laid};
ghost use Rattle.quotient_levels.specs.Level.{taken_at, left_at, level_of, passed};
ghost use Rattle.quotient_levels.specs.Room.{Dividing, Taking, Room, RowRoom, Line};

// What the rows before the row k of the variable v take from each of its places: the row j times the divisor's row k -
// j, j ascending.
fn taken_by_rows(
    done: &[f64],
    ys: &[f64],
    ly: [usize; 4],
    sy: [usize; 4],
    r: [usize; 4],
    sr: [usize; 4],
    v: usize,
    k: usize,
    row: &mut [f64],
)
    requires fact_1 { Strided r sr ly sy r sr }
    requires fact_2 { Taking ly r v k (length done.now) (length ys.now) (length row.old) }
    ensures { row.new ≡ table (in_row r v) (taken_at ly r v k done.now ys.now) }
{
    blocks::clear(row);
    let w = v + 1;
    let s = sr[v];
    let t = sy[v];
    let lo = product_lines::from(k, ly[v]);
    for j in lo..k {
        let p = j * s;
        let q = (k - j) * t;
        product_general::rows(&done[p..], r, sr, &ys[q..], ly, sy, r, sr, w, row);
    }
}

// The same; where a row is one place, it is one sum.
pub fn taken_row(
    done: &[f64],
    ys: &[f64],
    ly: [usize; 4],
    sy: [usize; 4],
    r: [usize; 4],
    sr: [usize; 4],
    v: usize,
    k: usize,
    row: &mut [f64],
)
    requires fact_1 { Dividing ly sy r sr }
    requires fact_2 { Taking ly r v k (length done.now) (length ys.now) (length row.old) }
    ensures { row.new ≡ table (in_row r v) (taken_at ly r v k done.now ys.now) }
{
    if sr[v] == 1 {
        let lo = product_lines::from(k, ly[v]);
        row[0] = product_lines::sum_on(done, ys, k, lo, k, 0.0);
        return;
    }
    taken_by_rows(done, ys, ly, sy, r, sr, v, k, row);
}

// What the row k of a level still has to divide: its c lies from p up to e, and the rows before it from q on. It goes
// to e.
fn gather(
    work: &mut [f64],
    p: usize,
    e: usize,
    q: usize,
    b: usize,
    f: usize,
    ly: [usize; 4],
    sy: [usize; 4],
    r: [usize; 4],
    sr: [usize; 4],
    v: usize,
    k: usize,
    row: &mut [f64],
)
    requires fact_1 { Dividing ly sy r sr }
    requires fact_2 { RowRoom ly r v k p e q b f (length work.old) (length row.old) }
    ensures laid { Laid e (table (in_row r v) (left_at ly r v k (part q (q + k * in_row r v) work.old)
        (part b f work.old) (part p e work.old))) (length work.old)
        work.old work.new }
    ensures spent { length row.new ≡ length row.old }
{
    let at = k * sr[v];
    let end = q + at;
    taken_row(&work[q..end], &work[b..f], ly, sy, r, sr, v, k, row);
    quotient_lessening::lessen(row, work, p + at, e);
}

// c after the variables past v, in each of which its place has the number 0.
fn through(c: f64, v: usize) -> f64
    requires { v < 4 }
    ensures { result ≡ walk passed (4 - (v + 1)) (v + 1) c }
{
    let mut x = c;
    for _j in v + 1..4 {
        x = -0.0 + x;
    }
    x
}

// The sub-block of the variables from v on, where a row of v is one place.
fn line(
    work: &mut [f64],
    p: usize,
    e: usize,
    q: usize,
    b: usize,
    f: usize,
    ly: [usize; 4],
    r: [usize; 4],
    v: usize,
)
    requires { Line ly r v p e q b f (length work.old) }
    ensures { Laid q (level_of ly r (part b f work.old) v (part p e work.old)) e work.old work.new }
{
    for k in 0..r[v] {
        let end = q + k;
        let lo = product_lines::from(k, ly[v]);
        let sum = product_lines::sum_on(&work[q..end], &work[b..f], k, lo, k, 0.0);
        let c = through(-sum + work[p + k], v);
        work[end] = c / work[b];
    }
}

// Each row of the sub-block of the variables from v on.
#[cycle(each_row_level)]
fn each_row(
    work: &mut [f64],
    p: usize,
    e: usize,
    q: usize,
    b: usize,
    f: usize,
    ly: [usize; 4],
    sy: [usize; 4],
    r: [usize; 4],
    sr: [usize; 4],
    v: usize,
    row: &mut [f64],
)
    requires { (Dividing ly sy r sr) × ((Room ly r v p e q b f (length work.old) (length row.old)) × (1 < at sr v)) }
    ensures laid { Laid q (level_of ly r (part b f work.old) v (part p e work.old)) e work.old work.new }
    ensures spent { length row.new ≡ length row.old }
{
    let w = v + 1;
    let s = sr[v];
    let end = e + s;
    for k in 0..r[v] {
        let at = q + k * s;
        gather(work, p, e, q, b, f, ly, sy, r, sr, v, k, &mut row[..s]);
        level(work, e, end, at, b, f, ly, sy, r, sr, w, row);
    }
}

// The sub-block of the variables from v on: what lies from p up to e, divided by the divisor, which lies from b up to
// f, goes to q.
#[cycle(each_row_level)]
pub fn level(
    work: &mut [f64],
    p: usize,
    e: usize,
    q: usize,
    b: usize,
    f: usize,
    ly: [usize; 4],
    sy: [usize; 4],
    r: [usize; 4],
    sr: [usize; 4],
    v: usize,
    row: &mut [f64],
)
    requires { (Dividing ly sy r sr) × (Room ly r v p e q b f (length work.old) (length row.old)) }
    ensures laid { Laid q (level_of ly r (part b f work.old) v (part p e work.old)) e work.old work.new }
    ensures spent { length row.new ≡ length row.old }
{
    if sr[v] == 1 {
        line(work, p, e, q, b, f, ly, r, v);
        return;
    }
    each_row(work, p, e, q, b, f, ly, sy, r, sr, v, row);
}
