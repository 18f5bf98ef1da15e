// One long variable: the places of a line, four at once where they share terms. The order of each place's sum is its
// own.
#![tactic(auto)]

ghost use Rattle.std.specs.Prelude.{◌≡◌, ℕ, ◌+◌, ◌-◌, ◌≤◌, ◌<◌, min, length};
ghost use Rattle.lists.specs.Table.{table};
ghost use Rattle.lists.specs.Walk.{walk};
ghost use Rattle.model.specs.General.{lo as loOf, term, line};
ghost use Rattle.product_lines.specs.Added.{line_added};
ghost use Rattle.product_lines.specs.Fours.{Summing, Sharing, Abreast, Walks, Ends, Lines, put_four};

// The first j at the place k, for a right operand of the length n.
pub fn from(k: usize, n: usize) -> usize
    requires { k < 64 }
    ensures { result ≡ loOf n k }
{
    if k + 1 < n { 0 } else { k + 1 - n }
}

// One past the last j, for a left operand of the length n.
pub fn upto(k: usize, n: usize) -> usize
    requires { k < 64 }
    ensures { result ≡ min (k + 1) n }
{
    if k + 1 < n { k + 1 } else { n }
}

// acc, and xs[j] * ys[k - j] for each j from a up to b, ascending.
pub fn sum_on(xs: &[f64], ys: &[f64], k: usize, a: usize, b: usize, acc: f64) -> f64
    requires { Summing k a b (length xs.now) (length ys.now) }
    ensures { result ≡ walk (term xs.now ys.now k) (b - a) a acc }
{
    let mut sum = acc;
    for j in a..b {
        sum = sum + xs[j] * ys[k - j];
    }
    sum
}

// The place k.
fn line_at(xs: &[f64], nx: usize, ys: &[f64], ny: usize, k: usize) -> f64
    requires fact_1 { (nx ≤ length xs.now) × (ny ≤ length ys.now) }
    requires fact_2 { k < 64 }
    ensures { result ≡ line xs.now ys.now nx ny k }
{
    let lo = from(k, ny);
    let hi = upto(k, nx);
    sum_on(xs, ys, k, lo, hi, 0.0)
}

// Four places from k on, each with its term for j.
fn four_more(xs: &[f64], ys: &[f64], k: usize, j: usize, s: [f64; 4]) -> [f64; 4]
    requires fact_1 { (j ≤ k) × (j < length xs.now) }
    requires fact_2 { k + 3 < j + length ys.now }
    ensures { Walks xs.now ys.now k j (j + 1) s result }
{
    let x = xs[j];
    let i = k - j;
    let z0 = s[0] + x * ys[i];
    let z1 = s[1] + x * ys[i + 1];
    let z2 = s[2] + x * ys[i + 2];
    let z3 = s[3] + x * ys[i + 3];
    [z0, z1, z2, z3]
}

// Four places from k on, each with its terms for j from a up to b. Two j a turn: the compiler then puts the places side
// by side, where with one it works along j.
fn four_on(xs: &[f64], ys: &[f64], k: usize, a: usize, b: usize, s: [f64; 4]) -> [f64; 4]
    requires { Abreast k a b (length xs.now) (length ys.now) }
    ensures { Walks xs.now ys.now k a b s result }
{
    let mut s0 = s[0];
    let mut s1 = s[1];
    let mut s2 = s[2];
    let mut s3 = s[3];
    let mut j = a;
    // No `step_by(2)`: the j at which it ends says whether one more is left.
    while j + 1 < b {
        let x = xs[j];
        let u = xs[j + 1];
        let i = k - j;
        let y0 = ys[i];
        let y1 = ys[i + 1];
        let y2 = ys[i + 2];
        s0 = s0 + x * y0 + u * ys[i - 1];
        s1 = s1 + x * y1 + u * y0;
        s2 = s2 + x * y2 + u * y1;
        s3 = s3 + x * ys[i + 3] + u * y2;
        j += 2;
    }
    if j < b {
        return four_more(xs, ys, k, j, [s0, s1, s2, s3]);
    }
    [s0, s1, s2, s3]
}

// Four places from k on with their last terms, for j from k on.
fn four_last(xs: &[f64], ys: &[f64], k: usize, s: [f64; 4]) -> [f64; 4]
    requires { (k + 3 < length xs.now) × (3 < length ys.now) }
    ensures { Ends xs.now ys.now k s result }
{
    let x0 = xs[k];
    let x1 = xs[k + 1];
    let x2 = xs[k + 2];
    let y0 = ys[0];
    let y1 = ys[1];
    let y2 = ys[2];
    let z0 = s[0] + x0 * y0;
    let z1 = s[1] + x0 * y1 + x1 * y0;
    let z2 = s[2] + x0 * y2 + x1 * y1 + x2 * y0;
    let z3 = s[3] + x0 * ys[3] + x1 * y2 + x2 * y1 + xs[k + 3] * y0;
    [z0, z1, z2, z3]
}

// Four places from k on, where neither operand ends before the fourth.
fn four_full(xs: &[f64], ys: &[f64], k: usize) -> [f64; 4]
    requires fact_1 { (k + 3 < length xs.now) × (k + 3 < length ys.now) }
    requires fact_2 { k + 3 < 64 }
    ensures { (n m : ℕ) → k + 3 < n → k + 3 < m → Lines xs.now ys.now n m k result }
{
    let s = four_on(xs, ys, k, 0, k, [0.0, 0.0, 0.0, 0.0]);
    four_last(xs, ys, k, s)
}

// Four places from k on that share the terms for j from a up to b.
fn four_by(xs: &[f64], nx: usize, ys: &[f64], ny: usize, k: usize, a: usize, b: usize) -> [f64; 4]
    requires { Sharing nx ny k a b (length xs.now) (length ys.now) }
    ensures { Lines xs.now ys.now nx ny k result }
{
    let s0 = sum_on(xs, ys, k, from(k, ny), a, 0.0);
    let s1 = sum_on(xs, ys, k + 1, from(k + 1, ny), a, 0.0);
    let s2 = sum_on(xs, ys, k + 2, from(k + 2, ny), a, 0.0);
    let m = four_on(xs, ys, k, a, b, [s0, s1, s2, 0.0]);
    let z1 = sum_on(xs, ys, k + 1, b, upto(k + 1, nx), m[1]);
    let z2 = sum_on(xs, ys, k + 2, b, upto(k + 2, nx), m[2]);
    let z3 = sum_on(xs, ys, k + 3, b, upto(k + 3, nx), m[3]);
    [m[0], z1, z2, z3]
}

// Four places from k on.
fn four_at(xs: &[f64], nx: usize, ys: &[f64], ny: usize, k: usize) -> [f64; 4]
    requires fact_1 { (nx ≤ length xs.now) × (ny ≤ length ys.now) }
    requires fact_2 { k + 3 < 64 }
    ensures { Lines xs.now ys.now nx ny k result }
{
    if (k + 3 < nx) & (k + 3 < ny) {
        return four_full(xs, ys, k);
    }
    let a = from(k + 3, ny);
    let b = upto(k, nx);
    if a <= b {
        return four_by(xs, nx, ys, ny, k, a, b);
    }
    let z0 = line_at(xs, nx, ys, ny, k);
    let z1 = line_at(xs, nx, ys, ny, k + 1);
    let z2 = line_at(xs, nx, ys, ny, k + 2);
    let z3 = line_at(xs, nx, ys, ny, k + 3);
    [z0, z1, z2, z3]
}

// Four places of `res` from k on, each with its sum added.
fn add_four(res: &mut [f64], k: usize, z: [f64; 4])
    requires { k + 3 < length res.old }
    ensures { res.new ≡ put_four res.old k z }
{
    res[k] = res[k] + z[0];
    res[k + 1] = res[k + 1] + z[1];
    res[k + 2] = res[k + 2] + z[2];
    res[k + 3] = res[k + 3] + z[3];
}

// Each place of `res` with its sum added.
pub fn lines(xs: &[f64], nx: usize, ys: &[f64], ny: usize, res: &mut [f64])
    requires fact_1 { (nx ≤ length xs.now) × (ny ≤ length ys.now) }
    requires fact_2 { length res.old ≤ 64 }
    ensures { res.new ≡ table (length res.old) (line_added xs.now ys.now nx ny res.old) }
{
    let n = res.len();
    let mut k = 0;
    // No `for`: a test says whether a turn takes four places or one.
    while k < n {
        if k + 3 < n {
            add_four(res, k, four_at(xs, nx, ys, ny, k));
            k += 4;
        } else {
            res[k] = res[k] + line_at(xs, nx, ys, ny, k);
            k += 1;
        }
    }
}
